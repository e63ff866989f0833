//! The side of a board from which records are published.
ghost use Rattle.std.specs.Prelude.{◌≡◌, ◌+◌, ◌≤◌, ◌++◌, ◌∷◌, [], fold, length, vec_capacity};
ghost use Rattle.std.specs.Prelude.{IfErr, IfOk, IfSome, MatchResult};
ghost use Rattle.std.specs.Arc.{arc_value};
ghost use Rattle.left_right.specs.Handles.{pending, published};
ghost use Rattle.tree_versions.specs.Boards.{with_addition};
ghost use Rattle.tree_versions.specs.Publishing.{Places, Refuses, Shows, TellsOf};
ghost use Rattle.tree_versions.specs.Records.{Grows};
ghost use Rattle.tree_versions.specs.declared.shelf.TheConstants.{MOST_RECORDS};

use crate::board::Board;
use crate::copies::{Addition, ListCopy};
use crate::front::{Front, LogLength};
use crate::note::{Note, take_rest};
use crate::seat::Seat;
use crate::{MOST_RECORDS, Record};
use left_right::WriteHandle;
use std::alloc::Global;
use std::sync::ledger::{Book, Share};
use std::sync::{Arc, Mutex, Wait};

/// What writes the two copies of the list of a board.
pub type BoardWriter<B, R> = WriteHandle<ListCopy<B>, Addition<B>, R>;

/// Why a record wasn't published on a board. It is handed back then.
#[derive(Drop)]
pub enum BoardFault<B: Board> {
    /// As many records are held as can be, [`MOST_RECORDS`]: the note has them.
    Full(Note<B>),
    /// Memory was wanted. Nothing was published.
    NoMemory,
}

/// What became of a record under the lock.
#[derive(Drop)]
pub(crate) enum Placed<B: Board> {
    Added(Note<B>),
    Full(Note<B>),
    NoMemory,
}

/// How many records were published for all seats together: as many as the list has. The parts of the ledger that are
/// with the seats aren't here.
#[derive(Drop)]
pub(crate) struct Tally<B: Board> {
    pub(crate) front: Front<B>,
    pub(crate) book: Book<B>,
    pub(crate) rest: Share<B>,
    pub(crate) seats: u32,
    ghost counted: { book.total ≡ length front },
    ghost whole: { rest.parts + seats ≡ B.all },
    ghost idle: { rest.amount ≡ 0 },
}

/// What lies under the lock of a board.
#[derive(Drop)]
pub struct WriterSide<B: Board, W> {
    pub(crate) writer: W,
    pub(crate) tally: Tally<B>,
}

/// Publishes the records of all desks of a board, one at a time. Desks share it by reference. `seats` is how many seats
/// were made with it.
///
/// What writes is a parameter (`W`, a [`BoardWriter`]), since no struct can name the writer of a list that is generic.
#[derive(Drop)]
pub struct Publisher<B: Board, W> {
    pub(crate) side: Mutex<WriterSide<B, W>>,
    pub(crate) length: LogLength<B>,
    pub(crate) seats: u32,
}

impl<B: Board> Tally<B> {
    /// Counts one record more, for the seat with this part.
    fn add(&mut self, share: &mut Share<B>, next: &Front<B>)
        requires part { share.old.parts ≡ 1 }
        requires more { length next.now ≡ length self.old.front + 1 }
        ensures parts { share.new.parts ≡ share.old.parts }
        ensures amount { share.new.amount ≡ share.old.amount + 1 }
        ensures front { self.new.front ≡ next.now }
    {
        let front = next.again();
        let Tally {
            front: counted,
            book,
            ..
        } = self;
        book.add(share, 1);
        *counted = front;
    }
}

/// Appends an addition, and tries until it is done.
fn append<B: Board, R: Wait + Drop, W: Wait>(
    rt: &W,
    writer: &mut BoardWriter<B, R>,
    addition: Addition<B>,
)
    ensures published { published writer.new ≡ published writer.old }
    ensures pending { pending writer.new ≡ pending writer.old ++ addition ∷ [] }
{
    let mut addition = addition;
    for _ in rt.forever() {
        match writer.append(addition) {
            Ok(()) => return,
            Err(back) => addition = back,
        }
    }
    unreachable!()
}

/// Shows readers what is pending, and tries until it is done.
pub(crate) fn show<B: Board, R: Wait + Drop, W: Wait>(rt: &W, writer: &mut BoardWriter<B, R>)
    ensures shown { published writer.new ≡ fold with_addition (published writer.old) (pending writer.old) }
    ensures pending { pending writer.new ≡ [] }
{
    for _ in rt.forever() {
        if writer.publish().is_ok() {
            return;
        }
    }
    unreachable!()
}

/// A note of the published list, for a seat. There is none where a further owner of a record can't be had.
fn note_for<B: Board, R: Wait + Drop>(
    writer: &BoardWriter<B, R>,
    tally: &Tally<B>,
    seat: &Seat<B>,
    room: Vec<Arc<Record>>,
) -> Option<Note<B>>
    requires none { room.items ≡ [] }
    requires room { MOST_RECORDS ≤ vec_capacity room }
    ensures published { IfSome result (λ note. note ≡ published writer.now) }
    ensures grows { IfSome result (λ note. Grows seat.now.seen note) }
    ensures counted { IfSome result (λ note. length note ≡ length tally.now.front) }
{
    let front = writer.published().front().again();
    let _begins = front.longer(seat.front());
    if seat.front().len() > front.len() || tally.front.len() != front.len() {
        return None;
    }
    let mut records = room;
    if !take_rest(&mut records, writer.published().records()) {
        return None;
    }
    Some(Note::make(records, front))
}

/// Publishes a record for a seat, where nothing is pending.
fn place<B: Board, R: Wait + Drop, W: Wait>(
    rt: &W,
    side: &mut WriterSide<B, BoardWriter<B, R>>,
    log: &LogLength<B>,
    seat: &mut Seat<B>,
    new: &Arc<Record>,
    room: Vec<Arc<Record>>,
) -> Placed<B>
    requires pending { pending side.old.writer ≡ [] }
    requires none { room.items ≡ [] }
    requires room { MOST_RECORDS ≤ vec_capacity room }
    ensures seen { seat.new.seen ≡ seat.old.seen }
    ensures placed { Places seat.old.seen (arc_value new.now) seat.old.own seat.new.own result }
    ensures shown { Shows (published side.old.writer) (published side.new.writer) (arc_value new.now) result }
    ensures pending { pending side.new.writer ≡ [] }
{
    let WriterSide { writer, tally } = side;
    let Some(note) = note_for(writer, tally, seat, room) else {
        return Placed::NoMemory;
    };
    if note.front.len() >= u64::from(MOST_RECORDS) {
        return Placed::Full(note);
    }
    let (Ok(last), Ok(given)) = (Arc::try_clone(new), Arc::try_clone(new)) else {
        return Placed::NoMemory;
    };
    let Note {
        mut records,
        mut front,
    } = note;
    // The run of the new record is over its own network and complete, and its tree a cut tree.
    prove!(new.finished().net().routers() == new.sheet().net().routers());
    if !front.add(log, new) {
        return Placed::NoMemory;
    }
    tally.add(&mut seat.share, &front);
    append(rt, writer, Addition::of(given, front.again()));
    show(rt, writer);
    records.push_reserved(last);
    Placed::Added(Note::make(records, front))
}

impl<B: Board, R: Wait + Drop> Publisher<B, BoardWriter<B, R>> {
    /// Publishes a record for a seat of the same board, and gives a note that has it at its end. The seat hasn't seen
    /// it before it learns the note. What the note needs is taken before the record is published. It makes one step for
    /// each record of the list, and waits for others who publish, and for looks that are in the copy that it writes.
    ///
    /// # Errors
    /// [`BoardFault::Full`] only where [`MOST_RECORDS`] records are held, and [`BoardFault::NoMemory`] where memory
    /// was wanted. The record is handed back.
    pub fn publish<W: Wait>(
        &self,
        alloc: Global,
        rt: &W,
        seat: &mut Seat<B>,
        new: Arc<Record>,
    ) -> Result<Note<B>, (BoardFault<B>, Arc<Record>)>
        ensures told { IfOk result (λ note. TellsOf seat.old.seen note (arc_value new)) }
        ensures refused { IfErr result (λ refused. Refuses seat.old.seen refused.0) }
        ensures back { IfErr result (λ refused. refused.1 ≡ new) }
        ensures own { MatchResult result (λ _. seat.new.own ≡ seat.old.own + 1) (λ _. seat.new.own ≡ seat.old.own) }
        ensures seen { seat.new.seen ≡ seat.old.seen }
    {
        let Ok(room) = Vec::with_capacity(alloc, MOST_RECORDS as usize) else {
            return Err((BoardFault::NoMemory, new));
        };
        let mut side = self.side.lock(rt);
        if side.writer.has_pending_operations() {
            show(rt, &mut side.writer);
        }
        match place(rt, &mut *side, &self.length, seat, &new, room) {
            Placed::Added(note) => Ok(note),
            Placed::Full(note) => Err((BoardFault::Full(note), new)),
            Placed::NoMemory => Err((BoardFault::NoMemory, new)),
        }
    }
}
