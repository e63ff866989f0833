//! All doors, by as many desks as there are.
ghost use Rattle.std.specs.Prelude.{◌≡◌, ◌≤◌, ◌<◌, ◌+◌, ◌*◌, ◌^◌, ◌++◌, [], All, None, IfOk, OnErr};
ghost use Rattle.std.specs.Prelude.{length, map, vec_capacity};
ghost use Rattle.std.specs.Vec.Iter.{into_iter_items, into_iter_len};
ghost use Rattle.desks.specs.Desks.{ServesFirst, ServesFront, all_of};
ghost use Rattle.desks.specs.Doors.{both, door_view, end_of, nothing};
ghost use Rattle.session.specs.Shelved.{shelved};
ghost use Rattle.tree_versions.specs.declared.opening.TheConstants.{MOST_DESKS};

use crate::desk::{Desk, Kit, work_at_doors};
use crate::doors::{DoorEnd, Means, serve_door};
use cut_model::NoMemory;
use std::alloc::Global;
use std::mem;
use std::sync::Wait;
use std::thread::Threads;
use std::vec::IntoIter;
use tree_versions::Shelf;
use wires::Door;
use worker_gate::Gate;

/// How many clients of several doors were served, and whether one of them failed.
#[derive(Clone, Copy)]
pub(crate) struct DoorsEnd {
    pub(crate) clients: u64,
    pub(crate) failed: bool,
}

impl DoorsEnd {
    /// That of no door.
    fn none() -> DoorsEnd
        ensures { result ≡ nothing }
    {
        DoorsEnd {
            clients: 0,
            failed: false,
        }
    }

    /// That of one door.
    fn of(end: DoorEnd) -> DoorsEnd
        ensures end { result ≡ end_of end }
        ensures few { result.clients ≤ 2 ^ 32 }
    {
        DoorsEnd {
            clients: u64::from(end.clients),
            failed: end.failed,
        }
    }

    /// Both together.
    fn and(self, other: DoorsEnd) -> DoorsEnd
        requires { self.clients + other.clients < 2 ^ 64 }
        ensures { result ≡ both self other }
    {
        DoorsEnd {
            clients: self.clients + other.clients,
            failed: self.failed || other.failed,
        }
    }
}

/// Takes each kit to a door, the first that wait, in their order.
fn seat<H: Drop, D: Drop>(kits: Vec<Kit<H>>, waiting: &mut IntoIter<D>, desks: &mut Vec<Desk<H, D>>)
    requires none { desks.old.items ≡ [] }
    requires room { length kits.items ≤ vec_capacity desks.old }
    requires enough { length kits.items ≤ into_iter_len waiting.old }
    ensures doors { into_iter_items waiting.old
        ≡ map (λ desk. desk.door) desks.new.items ++ into_iter_items waiting.new }
    ensures kits { map (λ desk. desk.kit) desks.new.items ≡ kits.items }
    ensures left { into_iter_len waiting.new + length kits.items ≡ into_iter_len waiting.old }
{
    for kit in kits {
        let Some(door) = waiting.next() else {
            unreachable!()
        };
        desks.push_reserved(Desk {
            kit,
            door,
            end: DoorEnd {
                clients: 0,
                failed: false,
            },
        });
    }
}

/// Takes all desks from their doors, which are put behind others, and adds up how they ended.
fn leave<H: Drop, D: Drop>(
    desks: Vec<Desk<H, D>>,
    doors: &mut Vec<D>,
    kits: &mut Vec<Kit<H>>,
) -> DoorsEnd
    requires few { length desks.items ≤ MOST_DESKS }
    requires none { kits.old.items ≡ [] }
    requires kits { length desks.items ≤ vec_capacity kits.old }
    requires doors { length doors.old.items + length desks.items ≤ vec_capacity doors.old }
    ensures doors { doors.new.items ≡ doors.old.items ++ map (λ desk. desk.door) desks.items }
    ensures kits { kits.new.items ≡ map (λ desk. desk.kit) desks.items }
    ensures end { result ≡ all_of (λ desk. desk.end) desks.items }
    ensures most { result.clients ≤ 2 ^ 32 * length desks.items }
    ensures room { vec_capacity doors.new ≡ vec_capacity doors.old }
    ensures kits_room { vec_capacity kits.new ≡ vec_capacity kits.old }
{
    let mut all = DoorsEnd::none();
    for desk in desks {
        let Desk { kit, door, end } = desk;
        doors.push_reserved(door);
        kits.push_reserved(kit);
        all = all.and(DoorsEnd::of(end));
    }
    all
}

/// Serves so many of the doors that wait with one kit, one after another, and puts them behind others.
fn serve_left_over<R: Threads + Wait + Sync, H: Shelf, D: Door + Drop, G: Gate + Sync>(
    means: &Means<'_, R, G>,
    kit: &mut Kit<H>,
    waiting: &mut IntoIter<D>,
    doors: &mut Vec<D>,
    count: u32,
) -> DoorsEnd
    requires nobody { All (λ door. D.out door ≡ None) (into_iter_items waiting.old) }
    requires enough { count ≤ into_iter_len waiting.old }
    requires few { count ≤ MOST_DESKS }
    requires room { length doors.old.items + count ≤ vec_capacity doors.old }
    ensures serves { ServesFront (door_view D.Door D.Client.Source D.Client.Sink) means.now.quota count
        (shelved H.Shelf kit.old.shelf) (shelved H.Shelf kit.new.shelf)
        (record { waiting = into_iter_items waiting.old; doors = doors.old.items })
        (record { waiting = into_iter_items waiting.new; doors = doors.new.items }) result }
    ensures room { vec_capacity doors.new ≡ vec_capacity doors.old }
    ensures most { result.clients ≤ 2 ^ 32 * count }
{
    let mut all = DoorsEnd::none();
    for _number in 0..count {
        let Some(mut door) = waiting.next() else {
            unreachable!()
        };
        let end = serve_door(means, &mut kit.session, &mut kit.shelf, &mut door);
        doors.push_reserved(door);
        all = all.and(DoorsEnd::of(end));
    }
    all
}

/// Puts the doors that still wait behind others.
fn put_behind<D: Drop>(waiting: IntoIter<D>, doors: &mut Vec<D>)
    requires room { length doors.old.items + into_iter_len waiting ≤ vec_capacity doors.old }
    ensures doors { doors.new.items ≡ doors.old.items ++ into_iter_items waiting }
{
    for door in waiting {
        doors.push_reserved(door);
    }
}

/// The room in which kits are moved.
struct Room<H, D> {
    desks: Vec<Desk<H, D>>,
    kits: Vec<Kit<H>>,
}

/// The room for so many kits.
///
/// # Errors
/// [`NoMemory`] where it can't be had.
fn take_room<H: Drop, D: Drop>(alloc: Global, kits: usize) -> Result<Room<H, D>, NoMemory>
    ensures desks { IfOk result (λ room. (room.desks.items ≡ []) × (kits ≤ vec_capacity room.desks)) }
    ensures kits { IfOk result (λ room. (room.kits.items ≡ []) × (kits ≤ vec_capacity room.kits)) }
{
    Ok(Room {
        desks: Vec::with_capacity(alloc, kits)?,
        kits: Vec::with_capacity(alloc, kits)?,
    })
}

/// Serves the first of the doors that wait: each kit at one of them, all at the same time, and then those for which
/// there was no kit by the last one. All the doors are put behind others, in their order.
fn serve_taken<
    R: Threads + Wait + Sync,
    H: Shelf + Send + Drop,
    D: Door + Send + Drop,
    G: Gate + Sync,
>(
    means: &Means<'_, R, G>,
    kits: Vec<Kit<H>>,
    taken: Vec<D>,
    count: u32,
    room: Room<H, D>,
    doors: &mut Vec<D>,
) -> (Vec<Kit<H>>, DoorsEnd)
where
    D::Client: Send,
    requires some { 0 < length kits.items }
    requires seats { length kits.items ≤ count }
    requires enough { count ≤ length taken.items }
    requires few { count ≤ MOST_DESKS }
    requires nobody { All (λ door. D.out door ≡ None) taken.items }
    requires none { doors.old.items ≡ [] }
    requires space { length taken.items ≤ vec_capacity doors.old }
    requires desks { (room.desks.items ≡ []) × (length kits.items ≤ vec_capacity room.desks) }
    requires kits { (room.kits.items ≡ []) × (length kits.items ≤ vec_capacity room.kits) }
    ensures first { ServesFirst (door_view D.Door D.Client.Source D.Client.Sink) means.now.quota count
        (map (λ kit. shelved H.Shelf kit.shelf) kits.items) (map (λ kit. shelved H.Shelf kit.shelf) result.0.items)
        (record { olds = taken.items; news = doors.new.items; end = result.1 }) }
    ensures count { length result.0.items ≡ length kits.items }
{
    let Room {
        mut desks,
        kits: mut free,
    } = room;
    let seats = kits.len() as u32;
    let mut waiting = taken.into_iter();
    seat(kits, &mut waiting, &mut desks);
    work_at_doors(means, &mut desks);
    let first = leave(desks, doors, &mut free);
    let Some(mut last) = free.pop() else {
        unreachable!()
    };
    let rest = serve_left_over(means, &mut last, &mut waiting, doors, count - seats);
    free.push_reserved(last);
    put_behind(waiting, doors);
    (free, first.and(rest))
}

/// Serves the first doors, as many as are told: each kit at one of them, all at the same time, and then those for which
/// there was no kit. The other doors are as they were.
///
/// # Errors
/// [`NoMemory`] where the room to move doors can't be had. No door was asked then.
pub(crate) fn serve_first<
    R: Threads + Wait + Sync,
    H: Shelf + Send + Drop,
    D: Door + Send + Drop,
    G: Gate + Sync,
>(
    means: &Means<'_, R, G>,
    kits: Vec<Kit<H>>,
    doors: &mut Vec<D>,
    count: u32,
) -> Result<(Vec<Kit<H>>, DoorsEnd), NoMemory>
where
    D::Client: Send,
    requires some { 0 < length kits.items }
    requires seats { length kits.items ≤ count }
    requires enough { count ≤ length doors.old.items }
    requires few { count ≤ MOST_DESKS }
    requires nobody { All (λ door. D.out door ≡ None) doors.old.items }
    ensures first { IfOk result (λ done.
        ServesFirst (door_view D.Door D.Client.Source D.Client.Sink) means.now.quota count
        (map (λ kit. shelved H.Shelf kit.shelf) kits.items) (map (λ kit. shelved H.Shelf kit.shelf) done.0.items)
        (record { olds = doors.old.items; news = doors.new.items; end = done.1 })) }
    ensures count { IfOk result (λ done. length done.0.items ≡ length kits.items) }
    ensures kept { OnErr result (doors.new.items ≡ doors.old.items) }
{
    let mut taken = Vec::with_capacity(means.alloc, doors.len())?;
    let room = take_room(means.alloc, kits.len())?;
    mem::swap(doors, &mut taken);
    Ok(serve_taken(means, kits, taken, count, room, doors))
}
