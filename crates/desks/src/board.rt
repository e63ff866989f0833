//! Desks that share a board.
ghost use Rattle.std.specs.Prelude.{◌≡◌, ◌≤◌, ◌<◌, [], All, None, IfOk, OnErr, OnOk, drop};
ghost use Rattle.std.specs.Prelude.{length, map, sum_by, vec_capacity};
ghost use Rattle.desks.specs.Boards.{DoorsServed};
ghost use Rattle.desks.specs.Doors.{door_view};
ghost use Rattle.job_queue.specs.declared.jobs.TheConstants.{MOST_WORKERS};
ghost use Rattle.tree_versions.specs.Boards.{IsNew};
ghost use Rattle.tree_versions.specs.Solo.{IsSoundShelf, views_of};
ghost use Rattle.tree_versions.specs.declared.opening.TheConstants.{MOST_DESKS};

use crate::desk::Kit;
use crate::doors::Means;
use crate::seating::{DoorsEnd, serve_first};
use cut_model::NoMemory;
use session::Session;
use std::alloc::Global;
use std::marker::Brand;
use std::sync::ledger::Blank;
use std::sync::{Arc, Wait};
use std::thread::Threads;
use tree_versions::{
    Board, BoardWriter, DeskShelf, MOST_DESKS, OpenedLog, Publisher, Record, Seat, close_board,
    make_board,
};
use wires::Door;
use worker_gate::Gate;

/// How doors are served.
#[derive(Clone, Copy)]
pub struct Opening {
    /// How many desks there are at most, from 1 to [`MOST_DESKS`]. At most so many doors are served, the first ones.
    pub desks: u32,
    /// How many clients of each door are served at most.
    pub sessions: u32,
    /// How many workers build the tree of a network that a client loads, from 1 to 16.
    pub workers: u32,
}

/// What was done at the doors.
#[derive(Drop)]
pub struct Served {
    /// How many clients were served.
    pub clients: u64,
    /// Whether a door failed.
    pub failed: bool,
    /// The networks that were published, version 1 first.
    pub records: Vec<Arc<Record>>,
}

/// A desk's kit over a board.
type SeatedKit<'a, B, W, R> = Kit<DeskShelf<'a, B, BoardWriter<B, W>, R>>;

/// So many sessions.
///
/// # Errors
/// [`NoMemory`] where their memory can't be had.
fn make_sessions(alloc: Global, count: u32, workers: u32) -> Result<Vec<Session>, NoMemory>
    requires some { 0 < workers }
    requires most { workers ≤ MOST_WORKERS }
    ensures { IfOk result (λ sessions. length sessions.items ≡ count) }
{
    let mut sessions = Vec::with_capacity(alloc, count as usize)?;
    for _number in 0..count {
        sessions.push_reserved(Session::make(alloc, workers)?);
    }
    Ok(sessions)
}

/// A kit for each new seat. The list of seats is left empty, with its room.
///
/// # Errors
/// [`NoMemory`] where the room for the kits can't be had.
fn make_kits<'a, B: Board, W: Wait + Drop, R: Wait>(
    alloc: Global,
    rt: &'a R,
    publisher: &'a Publisher<B, BoardWriter<B, W>>,
    seats: &mut Vec<Seat<B>>,
    sessions: Vec<Session>,
) -> Result<Vec<SeatedKit<'a, B, W, R>>, NoMemory>
    requires enough { length seats.old.items ≤ length sessions.items }
    requires new { All IsNew seats.old.items }
    ensures count { IfOk result (λ kits. length kits.items ≡ length seats.old.items) }
    ensures none { OnOk result (seats.new.items ≡ []) }
    ensures room { IfOk result (λ kits. length kits.items ≤ vec_capacity seats.new) }
    ensures own { IfOk result (λ kits. sum_by (λ kit. kit.shelf.seat.own) kits.items ≡ 0) }
{
    let mut sessions = sessions;
    let mut kits = Vec::with_capacity(alloc, seats.len())?;
    while let Some(seat) = seats.pop() {
        let Some(session) = sessions.pop() else {
            unreachable!()
        };
        let shelf = DeskShelf::make(alloc, rt, seat, publisher);
        kits.push_reserved(Kit { session, shelf });
    }
    Ok(kits)
}

/// Gives all seats back.
fn leave_seats<'a, B: Board, W: Wait + Drop, R: Wait>(
    kits: Vec<SeatedKit<'a, B, W, R>>,
    seats: &mut Vec<Seat<B>>,
)
    requires none { seats.old.items ≡ [] }
    requires room { length kits.items ≤ vec_capacity seats.old }
    ensures { seats.new.items ≡ map (λ kit. kit.shelf.seat) kits.entry.items }
{
    for kit in kits {
        let Kit { session: _, shelf } = kit;
        seats.push_reserved(shelf.into_seat());
    }
}

/// Serves doors by desks that share a board.
fn serve_on_board<
    B: Board + Send + Sync,
    R: Threads + Wait + Sync,
    D: Door + Send + Drop,
    G: Gate + Sync,
>(
    means: &Means<'_, R, G>,
    count: u32,
    workers: u32,
    doors: &mut Vec<D>,
    opened: OpenedLog,
    blank: Blank,
) -> Result<Served, NoMemory>
where
    D::Client: Send,
    requires some { 0 < count }
    requires most { count ≤ MOST_DESKS }
    requires enough { count ≤ length doors.old.items }
    requires workers { (0 < workers) × (workers ≤ MOST_WORKERS) }
    requires nobody { All (λ door. D.out door ≡ None) doors.old.items }
    requires log { opened.seen.book ≡ B.log }
    requires name { blank.name ≡ B.name }
    requires parts { blank.parts ≡ B.parts }
    requires all { B.all ≡ B.parts }
    requires room { MOST_DESKS < B.parts }
    ensures served { IfOk result (λ served. DoorsServed means.now.quota count (views_of served.records.items)
        (record {
          olds = map (door_view D.Door D.Client.Source D.Client.Sink) doors.old.items;
          news = map (door_view D.Door D.Client.Source D.Client.Sink) doors.new.items;
          end = record { clients = served.clients; failed = served.failed };
        })) }
    ensures others { drop count doors.new.items ≡ drop count doors.old.items }
    ensures sound { IfOk result (λ served. IsSoundShelf (views_of served.records.items)) }
    ensures kept { OnErr result (doors.new.items ≡ doors.old.items) }
{
    let sessions = make_sessions(means.alloc, count, workers)?;
    let (publisher, mut seats) = make_board::<B, &R>(means.alloc, means.rt, count, opened, blank)?;
    let kits = make_kits(means.alloc, means.rt, &publisher, &mut seats, sessions)?;
    let (kits, end) = serve_first(means, kits, doors, count)?;
    leave_seats(kits, &mut seats);
    let records = close_board(means.rt, publisher, seats);
    Ok(Served {
        clients: end.clients,
        failed: end.failed,
        records,
    })
}

/// Serves the clients of the first doors, as many as there are desks at most, each desk at a door of its own and all
/// at the same time. All clients load networks into one list. Neither a fault in a session nor one that takes too many
/// bytes is the desk's end: the client goes back through the door, as each does, and the next one comes. A desk is done
/// when its door has failed, which is asked no more then. Where fewer desks can be had than are asked for, the doors
/// that are left over are served behind a desk's own.
///
/// The contract tells for each door what its clients were answered, one after another, over the list that is handed
/// back, and that the networks which they loaded are as many as it has. It doesn't say that desks worked at once.
///
/// It takes some 0.7 MB for each desk, and what is loaded.
///
/// # Errors
/// [`NoMemory`] where the desks can't be had. No door was asked then.
pub fn serve_doors<R: Threads + Wait + Sync, D: Door + Send + Drop, G: Gate + Sync>(
    alloc: Global,
    rt: &R,
    opening: Opening,
    doors: &mut Vec<D>,
    gate: &G,
) -> Result<Served, NoMemory>
where
    D::Client: Send,
    requires some { 0 < opening.desks }
    requires most { opening.desks ≤ MOST_DESKS }
    requires workers { (0 < opening.workers) × (opening.workers ≤ MOST_WORKERS) }
    requires nobody { All (λ door. D.out door ≡ None) doors.old.items }
    ensures served { IfOk result (λ served. DoorsServed opening.sessions opening.desks (views_of served.records.items)
        (record {
          olds = map (door_view D.Door D.Client.Source D.Client.Sink) doors.old.items;
          news = map (door_view D.Door D.Client.Source D.Client.Sink) doors.new.items;
          end = record { clients = served.clients; failed = served.failed };
        })) }
    ensures others { drop opening.desks doors.new.items ≡ drop opening.desks doors.old.items }
    ensures sound { IfOk result (λ served. IsSoundShelf (views_of served.records.items)) }
    ensures kept { OnErr result (doors.new.items ≡ doors.old.items) }
{
    if doors.is_empty() {
        return Ok(Served {
            clients: 0,
            failed: false,
            records: Vec::new(alloc),
        });
    }
    let means = Means {
        alloc,
        rt,
        gate,
        quota: opening.sessions,
    };
    let count = doors.len().min(opening.desks as usize) as u32;
    let blank = Blank::new(u64::from(MOST_DESKS) + 1);
    serve_on_board::<Brand, R, D, G>(
        &means,
        count,
        opening.workers,
        doors,
        OpenedLog::new(),
        blank,
    )
}
