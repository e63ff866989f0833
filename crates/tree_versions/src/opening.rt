//! A board is made.
ghost use Rattle.std.specs.Prelude.{◌≡◌, ◌+◌, ◌<◌, ◌≤◌, [], All, IfOk, OnOk, length};
ghost use Rattle.left_right.specs.Handles.{published};
ghost use Rattle.tree_versions.specs.Boards.{IsNew};
ghost use Rattle.tree_versions.specs.declared.opening.TheConstants.{MOST_DESKS};

use crate::MOST_RECORDS;
use crate::board::Board;
use crate::copies::{Addition, ListCopy};
use crate::front::{Front, OpenedLog};
use crate::publisher::{BoardWriter, Publisher, Tally, WriterSide};
use crate::seat::Seat;
use cut_model::NoMemory;
use left_right::WriteHandle;
use std::alloc::Global;
use std::sync::ledger::{Blank, Share};
use std::sync::{Mutex, Wait};

/// The most desks that share a board.
pub const MOST_DESKS: u32 = 8;

/// A copy of a list without records, with room for all that there may be.
fn make_copy<B: Board>(alloc: Global, front: Front<B>) -> Result<ListCopy<B>, NoMemory>
    requires { front ≡ [] }
    ensures { IfOk result (λ copy. copy ≡ []) }
{
    let records = Vec::with_capacity(alloc, MOST_RECORDS as usize)?;
    Ok(ListCopy::make(records, front))
}

/// What writes the two copies of a list without records, for at most so many readers. The room in which an addition is
/// pending is taken by a first one that adds nothing.
fn make_writer<B: Board, R: Wait + Drop>(
    alloc: Global,
    rt: R,
    front: &Front<B>,
    readers: u32,
) -> Result<BoardWriter<B, R>, NoMemory>
    requires front { front.now ≡ [] }
    requires some { 0 < readers }
    ensures { IfOk result (λ writer. published writer ≡ []) }
{
    let first = make_copy(alloc, front.again())?;
    let second = make_copy(alloc, front.again())?;
    let mut writer = WriteHandle::new(alloc, rt, first, second, readers as usize)?;
    if writer.append(Addition::idle(front.again())).is_err() {
        return Err(NoMemory);
    }
    writer.publish()?;
    Ok(writer)
}

/// As many seats as can be had, of those that are wanted.
fn make_seats<B: Board, R: Wait + Drop>(
    alloc: Global,
    writer: &BoardWriter<B, R>,
    front: &Front<B>,
    rest: &mut Share<B>,
    desks: u32,
) -> Result<Vec<Seat<B>>, NoMemory>
    requires front { front.now ≡ [] }
    requires parts { desks < rest.old.parts }
    requires idle { rest.old.amount ≡ 0 }
    ensures most { IfOk result (λ seats. length seats.items ≤ desks) }
    ensures parts { IfOk result (λ seats. rest.new.parts + length seats.items ≡ rest.old.parts) }
    ensures idle { OnOk result (rest.new.amount ≡ 0) }
    ensures new { IfOk result (λ seats. All IsNew seats.items) }
{
    let mut seats = Vec::with_capacity(alloc, desks as usize)?;
    for _ in 0..desks {
        let (Ok(reader), Ok(records)) = (
            writer.handle(),
            Vec::with_capacity(alloc, MOST_RECORDS as usize),
        ) else {
            break;
        };
        let share = rest.split_off(1, 0);
        seats.push_reserved(Seat::make(reader, records, front.again(), share));
    }
    Ok(seats)
}

/// A board without records, for at most so many desks, from 1 to [`MOST_DESKS`], and its seats, at least one. All its
/// memory is taken here, but for the notes. The handle is kept by what publishes.
///
/// # Errors
/// [`NoMemory`] where that memory can't be had.
pub fn make_board<B: Board, R: Wait + Drop>(
    alloc: Global,
    rt: R,
    desks: u32,
    opened: OpenedLog,
    blank: Blank,
) -> Result<(Publisher<B, BoardWriter<B, R>>, Vec<Seat<B>>), NoMemory>
    requires some { 0 < desks }
    requires most { desks ≤ MOST_DESKS }
    requires log { opened.seen.book ≡ B.log }
    requires name { blank.name ≡ B.name }
    requires parts { blank.parts ≡ B.parts }
    requires all { B.all ≡ B.parts }
    requires room { MOST_DESKS < B.parts }
    ensures some { IfOk result (λ board. 0 < length board.1.items) }
    ensures most { IfOk result (λ board. length board.1.items ≤ desks) }
    ensures seats { IfOk result (λ board. length board.1.items ≡ board.0.seats) }
    ensures new { IfOk result (λ board. All IsNew board.1.items) }
{
    let (length, front) = opened.named::<B>();
    let (book, mut rest) = blank.open::<B>();
    let writer = make_writer(alloc, rt, &front, desks)?;
    let made = make_seats(alloc, &writer, &front, &mut rest, desks)?;
    if made.is_empty() {
        return Err(NoMemory);
    }
    let seats = made.len() as u32;
    let tally = Tally {
        front,
        book,
        rest,
        seats,
    };
    let publisher = Publisher {
        side: Mutex::new(WriterSide { writer, tally }),
        length,
        seats,
    };
    Ok((publisher, made))
}
