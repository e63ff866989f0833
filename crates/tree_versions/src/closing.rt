//! A board is closed.
ghost use Rattle.std.specs.Prelude.{◌≡◌, ◌+◌, All, length, sum_by};
ghost use Rattle.tree_versions.specs.Boards.{IsFrontOf};
ghost use Rattle.tree_versions.specs.Solo.{IsSoundShelf, views_of};

use crate::board::Board;
use crate::front::Front;
use crate::publisher::{BoardWriter, Publisher, Tally, WriterSide, show};
use crate::seat::Seat;
use crate::{MOST_RECORDS, Record};
use std::sync::ledger::Share;
use std::sync::{Arc, Wait};

/// Knows that what was seen is a front of the list, since both are of one log. It waits for ever where more was seen
/// than the list has, which can't be.
fn know_front<B: Board, W: Wait>(rt: &W, list: &Front<B>, seen: &Front<B>)
    ensures { IsFrontOf list.now seen.now }
{
    let _begins = list.longer(seen);
    if seen.len() <= list.len() {
        return;
    }
    for _ in rt.forever() {}
    unreachable!()
}

/// Knows it of what each seat has seen.
fn know_fronts<B: Board, W: Wait>(rt: &W, list: &Front<B>, seats: &[Seat<B>])
    ensures { All (λ seat. IsFrontOf list.now seat.seen) seats.now }
{
    for seat in seats {
        know_front(rt, list, seat.front());
    }
}

/// Puts all parts of the ledger together.
fn gather<B: Board>(rest: Share<B>, seats: Vec<Seat<B>>) -> Share<B>
    ensures parts { result.parts ≡ rest.parts + length seats.items }
    ensures amount { result.amount ≡ rest.amount + sum_by (λ seat. seat.own) seats.items }
{
    let mut rest = rest;
    for seat in seats {
        rest.merge(seat.into_share());
    }
    rest
}

/// Knows that as many records were published for all seats as the list has. It waits for ever where it has another
/// number than was counted, which can't be.
fn audit<B: Board, W: Wait>(
    rt: &W,
    tally: Tally<B>,
    given: u32,
    list: &Front<B>,
    seats: Vec<Seat<B>>,
)
    requires all { length seats.items ≡ given }
    requires parts { B.all ≡ B.parts }
    ensures { sum_by (λ seat. seat.own) seats.items ≡ length list.now }
{
    let Tally {
        front,
        mut book,
        rest,
        seats: made,
    } = tally;
    let mut all = gather(rest, seats);
    if made == given && front.len() == list.len() {
        book.audit(&mut all);
        return;
    }
    for _ in rt.forever() {}
    unreachable!()
}

/// The whole list of a board, version 1 first, once all its seats are back. What each seat has seen is a front of it,
/// and it has as many records as were published for the seats. It takes no memory.
pub fn close_board<B: Board, R: Wait + Drop, W: Wait>(
    rt: &W,
    publisher: Publisher<B, BoardWriter<B, R>>,
    seats: Vec<Seat<B>>,
) -> Vec<Arc<Record>>
    requires seats { length seats.items ≡ publisher.seats }
    requires parts { B.all ≡ B.parts }
    ensures fronts { All (λ seat. IsFrontOf (views_of result.items) seat.seen) seats.items }
    ensures own { sum_by (λ seat. seat.own) seats.items ≡ length result.items }
    ensures sound { IsSoundShelf (views_of result.items) }
{
    let Publisher {
        side,
        length: _,
        seats: given,
    } = publisher;
    let WriterSide { mut writer, tally } = side.into_inner();
    if writer.has_pending_operations() {
        show(rt, &mut writer);
    }
    let (records, list) = Box::into_inner(writer.take()).into_parts();
    know_fronts(rt, &list, seats.as_slice());
    audit(rt, tally, given, &list, seats);
    prove!(list.len() <= u64::from(MOST_RECORDS));
    records
}
