//! Records on shelves and boards, with ample memory.
ghost use Rattle.std.specs.Prelude.{◌≡◌, ◌+◌, ◌*◌, ◌<◌, ◌≤◌, [], All, IfOk, length, sum_by, vec_capacity};
ghost use Rattle.tree_versions.specs.Boards.{IsNew};
ghost use Rattle.tree_versions.specs.declared.opening.TheConstants.{MOST_DESKS};
ghost use Rattle.tree_versions.specs.declared.tests.TheConstants.{TURNS};

use crate::{
    Board, BoardFault, BoardWriter, DeskShelf, MOST_DESKS, MOST_RECORDS, Note, OpenedLog,
    PublishFault, Publisher, Record, Seat, Shelf, SoloShelf, close_board, make_board,
};
use commit_rule::complete;
use network_text::{Fed, Reader};
use std::alloc::Global;
use std::marker::Brand;
use std::process::Abort;
use std::sync::ledger::Blank;
use std::sync::{Arc, Wait};
use std::test::Fail;
use std::thread::{self, Threads};
use tree_state::Growing;

/// How often each desk publishes.
const TURNS: u32 = 20;

/// The record of a network of one router, with a name of one letter.
fn record_of(alloc: Global, router: u8) -> Result<Arc<Record>, Fail> {
    let mut line = *b"router a";
    line[7] = router;
    let mut reader = Reader::begin(alloc)?;
    if reader.line(&line) != Fed::More || reader.line(b"END") != Fed::Ended {
        return Err(Fail::from("no network"));
    }
    let sheet = reader.close()?;
    let grow = Growing::make(alloc, sheet.net().clone()?)?;
    let finished = complete(grow).ok().ok_or("a router wasn't committed")?;
    Ok(Record::make(alloc, sheet, finished)?)
}

#[test]
fn a_record_is_published(rt: HostRuntime) -> Result<(), Fail> {
    let record = record_of(rt.alloc(), b'a')?;
    let mut shelf = SoloShelf::make(rt.alloc())?;
    assert_eq!(rt; shelf.publish(record), Ok(1));
    assert_eq!(rt; shelf.look(), 1);
    Ok(())
}

/// A desk that publishes one record over and over, and counts how often it was accepted.
#[derive(Drop)]
struct Desk<H: Shelf> {
    shelf: H,
    record: Arc<Record>,
    router: u8,
    accepted: u32,
    wrong: bool,
    ghost counted: { H.published shelf ≡ accepted },
    ghost few: { accepted ≤ TURNS },
}

impl<H: Shelf> Desk<H> {
    /// Publishes the record once, which then stands at its version, and is seen.
    fn publish(&mut self) {
        let Desk {
            shelf,
            record,
            router,
            accepted,
            wrong,
        } = self;
        let Ok(more) = Arc::try_clone(record) else {
            return;
        };
        if *accepted == TURNS {
            return;
        }
        let Ok(version) = shelf.publish(more) else {
            return;
        };
        *accepted += 1;
        if shelf
            .record_at(version)
            .sheet()
            .number_of(&[*router])
            .is_none()
            || shelf.look() < version
        {
            *wrong = true;
        }
    }

    fn work(&mut self) {
        for _ in 0..TURNS {
            self.publish();
        }
    }
}

/// Each desk works in a thread of its own.
fn work_all<H: Shelf + Send, R: Threads + Sync>(rt: &R, desks: &mut [Desk<H>]) {
    thread::for_each_mut(rt, desks, 2, &|_, desk: &mut Desk<H>| desk.work());
}

/// The desk of a seat.
type SeatedDesk<'a, B, S, R> = Desk<DeskShelf<'a, B, BoardWriter<B, S>, R>>;

/// A desk that hasn't published yet.
fn desk_of<H: Shelf + Drop>(alloc: Global, shelf: H, router: u8) -> Result<Desk<H>, Fail>
    requires { H.published shelf ≡ 0 }
{
    Ok(Desk {
        shelf,
        record: record_of(alloc, router)?,
        router,
        accepted: 0,
        wrong: false,
    })
}

/// A desk for each new seat. The list of seats is left empty, with its room.
fn make_desks<'a, B: Board, S: Wait + Drop, R: Wait>(
    alloc: Global,
    rt: &'a R,
    publisher: &'a Publisher<B, BoardWriter<B, S>>,
    seats: &mut Vec<Seat<B>>,
) -> Result<Vec<SeatedDesk<'a, B, S, R>>, Fail>
    requires { All IsNew seats.old.items }
    ensures count { IfOk result (λ desks. length desks.items ≡ length seats.old.items) }
    ensures none { IfOk result (λ _. seats.new.items ≡ []) }
    ensures room { IfOk result (λ desks. length desks.items ≤ vec_capacity seats.new) }
{
    let mut desks = Vec::with_capacity(alloc, seats.len())?;
    while let Some(seat) = seats.pop() {
        let router = if desks.is_empty() { b'a' } else { b'b' };
        let shelf = DeskShelf::make(alloc, rt, seat, publisher);
        desks.push_reserved(desk_of(alloc, shelf, router)?);
    }
    Ok(desks)
}

/// Gives the seats back. It tells how many records were accepted, and whether a desk met what was wrong.
fn leave_desks<'a, B: Board, S: Wait + Drop, R: Wait>(
    desks: Vec<SeatedDesk<'a, B, S, R>>,
    seats: &mut Vec<Seat<B>>,
) -> (u32, bool)
    requires few { length desks.items ≤ MOST_DESKS }
    requires none { seats.old.items ≡ [] }
    requires room { length desks.items ≤ vec_capacity seats.old }
    ensures count { length seats.new.items ≡ length desks.entry.items }
    ensures accepted { sum_by (λ seat. seat.own) seats.new.items ≡ result.0 }
{
    let mut desks = desks;
    let mut all = 0;
    let mut any = false;
    while let Some(desk) = desks.pop() {
        let Desk {
            shelf,
            record: _,
            router: _,
            accepted,
            wrong,
        } = desk;
        all += accepted;
        any |= wrong;
        seats.push_reserved(shelf.into_seat());
    }
    (all, any)
}

/// The whole list of two desks, how many records they say were accepted, and whether one met what was wrong.
fn work_two_desks<B: Board + Send + Sync, R: Threads + Wait + Sync>(
    alloc: Global,
    rt: &R,
    opened: OpenedLog,
    blank: Blank,
) -> Result<(Vec<Arc<Record>>, u32, bool), Fail>
    requires log { opened.seen.book ≡ B.log }
    requires name { blank.name ≡ B.name }
    requires parts { blank.parts ≡ B.parts }
    requires all { B.all ≡ B.parts }
    requires room { MOST_DESKS < B.parts }
    ensures { IfOk result (λ done. done.1 ≡ length done.0.items) }
{
    let (publisher, mut seats) = make_board::<B, &R>(alloc, rt, 2, opened, blank)?;
    let mut desks = make_desks(alloc, rt, &publisher, &mut seats)?;
    work_all(rt, desks.as_mut_slice());
    let (accepted, wrong) = leave_desks(desks, &mut seats);
    Ok((close_board(rt, publisher, seats), accepted, wrong))
}

#[test]
fn what_two_desks_publish_stands_at_its_versions(rt: HostRuntime) -> Result<(), Fail> {
    let blank = Blank::new(u64::from(MOST_DESKS) + 1);
    let (records, accepted, wrong) = work_two_desks::<Brand, _>(
        rt.alloc(),
        &rt,
        OpenedLog::new(),
        blank,
    )?;
    assert_eq!(rt; (records.len(), accepted, wrong), (40, 40, false));
    Ok(())
}

/// Publishes a record for a seat, and gives the note that has it.
fn publish_one<B: Board, S: Wait + Drop, R: Wait + AllocGlobal>(
    rt: &R,
    publisher: &Publisher<B, BoardWriter<B, S>>,
    seat: &mut Seat<B>,
) -> Result<Note<B>, Fail> {
    let alloc = rt.alloc();
    let record = record_of(alloc, b'a')?;
    match publisher.publish(alloc, rt, seat, record) {
        Ok(note) => Ok(note),
        Err(_) => Err(Fail::from("refused")),
    }
}

/// A record is published for the first of two seats, and the second, which has never looked, learns the note of it.
fn learn_at_another_seat<B: Board, R: Wait + Abort + AllocGlobal>(
    rt: &R,
    opened: OpenedLog,
    blank: Blank,
) -> Result<(), Fail>
    requires log { opened.seen.book ≡ B.log }
    requires name { blank.name ≡ B.name }
    requires parts { blank.parts ≡ B.parts }
    requires all { B.all ≡ B.parts }
    requires room { MOST_DESKS < B.parts }
{
    let (publisher, mut seats) = make_board::<B, &R>(rt.alloc(), rt, 2, opened, blank)?;
    assert_eq!(rt; seats.len(), 2);
    let note = publish_one(rt, &publisher, &mut seats[0])?;
    let told = note.version();
    assert_eq!(rt; told, 1);
    seats[1].learn(note);
    assert!(rt; seats[1].look() >= told);
    Ok(())
}

#[test]
fn a_seat_sees_what_it_was_told_of(rt: HostRuntime) -> Result<(), Fail> {
    let blank = Blank::new(u64::from(MOST_DESKS) + 1);
    learn_at_another_seat::<Brand, _>(&rt, OpenedLog::new(), blank)
}

/// A record is published for the first of two seats, and the second, which learns nothing, looks.
fn look_from_another_seat<B: Board, R: Wait + Abort + AllocGlobal>(
    rt: &R,
    opened: OpenedLog,
    blank: Blank,
) -> Result<(), Fail>
    requires log { opened.seen.book ≡ B.log }
    requires name { blank.name ≡ B.name }
    requires parts { blank.parts ≡ B.parts }
    requires all { B.all ≡ B.parts }
    requires room { MOST_DESKS < B.parts }
{
    let (publisher, mut seats) = make_board::<B, &R>(rt.alloc(), rt, 2, opened, blank)?;
    assert_eq!(rt; seats.len(), 2);
    let _note = publish_one(rt, &publisher, &mut seats[0])?;
    assert_eq!(rt; seats[0].versions(), 0);
    assert_eq!(rt; seats[1].look(), 1);
    assert_eq!(rt; seats[1].record_at(1).sheet().number_of(b"a"), Some(0));
    Ok(())
}

#[test]
fn a_seat_sees_what_it_was_not_told_of(rt: HostRuntime) -> Result<(), Fail> {
    let blank = Blank::new(u64::from(MOST_DESKS) + 1);
    look_from_another_seat::<Brand, _>(&rt, OpenedLog::new(), blank)
}

/// Fills a shelf with a record, over and over. Each stands at the next version, and no more can be published.
fn fill<H: Shelf, R: Abort>(rt: &R, shelf: &mut H, record: &Arc<Record>) -> Result<(), Fail> {
    for version in 1..=MOST_RECORDS {
        let more = Arc::try_clone(record)?;
        assert_eq!(rt; shelf.publish(more), Ok(version));
    }
    let more = Arc::try_clone(record)?;
    assert_eq!(rt; shelf.publish(more), Err(PublishFault::Full));
    assert_eq!(rt; shelf.look(), MOST_RECORDS);
    Ok(())
}

/// A desk fills its shelf, and then the next record is handed back to its seat.
fn publish_one_too_many<B: Board, R: Wait + Abort + AllocGlobal>(
    rt: &R,
    opened: OpenedLog,
    blank: Blank,
) -> Result<(), Fail>
    requires log { opened.seen.book ≡ B.log }
    requires name { blank.name ≡ B.name }
    requires parts { blank.parts ≡ B.parts }
    requires all { B.all ≡ B.parts }
    requires room { MOST_DESKS < B.parts }
{
    let alloc = rt.alloc();
    let (publisher, mut seats) = make_board::<B, &R>(alloc, rt, 1, opened, blank)?;
    let record = record_of(alloc, b'a')?;
    let Some(seat) = seats.pop() else {
        return Err(Fail::from("no seat"));
    };
    let mut shelf = DeskShelf::make(alloc, rt, seat, &publisher);
    fill(rt, &mut shelf, &record)?;
    let mut seat = shelf.into_seat();
    let Err(refused) = publisher.publish(alloc, rt, &mut seat, record) else {
        return Err(Fail::from("accepted"));
    };
    let (fault, _record) = refused;
    let BoardFault::Full(note) = fault else {
        return Err(Fail::from("no memory"));
    };
    assert_eq!(rt; note.version(), MOST_RECORDS);
    seats.push_reserved(seat);
    assert_eq!(rt;
        close_board(rt, publisher, seats).len(),
        MOST_RECORDS as usize
    );
    Ok(())
}

#[test]
fn a_board_is_full_at_256_records(rt: HostRuntime) -> Result<(), Fail> {
    let blank = Blank::new(u64::from(MOST_DESKS) + 1);
    publish_one_too_many::<Brand, _>(&rt, OpenedLog::new(), blank)
}
