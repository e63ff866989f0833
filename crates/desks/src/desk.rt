//! Desks at work, each at a door.
ghost use Rattle.std.specs.Prelude.{◌≡◌, ℕ, ◌+◌, ◌≤◌, ◌<◌, All, None, length, map, slice_index_or, vec_capacity};
ghost use Rattle.desks.specs.Desks.{desk_view, Works};
ghost use Rattle.desks.specs.Doors.{ServesDoor, door_view};
ghost use Rattle.session.specs.Shelved.{shelved};

use crate::doors::{DoorEnd, Means, serve_door};
use session::Session;
use std::sync::Wait;
use std::thread::{self, Threads};
use tree_versions::{MOST_DESKS, Shelf};
use wires::Door;
use worker_gate::Gate;

/// What a desk works with at whatever door: a session, and a shelf on which it publishes.
#[derive(Drop)]
pub(crate) struct Kit<H> {
    pub(crate) session: Session,
    pub(crate) shelf: H,
}

/// A desk at a door, and how it ended there.
#[derive(Drop)]
pub(crate) struct Desk<H, D> {
    pub(crate) kit: Kit<H>,
    pub(crate) door: D,
    pub(crate) end: DoorEnd,
}

/// Serves the clients of a desk's door.
fn work<R: Threads + Wait + Sync, H: Shelf, D: Door, G: Gate + Sync>(
    means: &Means<'_, R, G>,
    desk: &mut Desk<H, D>,
)
    requires nobody { D.out desk.old.door ≡ None }
    ensures { Works means.now.quota (desk_view H.Shelf D.Door D.Client.Source D.Client.Sink desk.old)
        (desk_view H.Shelf D.Door D.Client.Source D.Client.Sink desk.new) }
{
    desk.end = serve_door(
        means,
        &mut desk.kit.session,
        &mut desk.kit.shelf,
        &mut desk.door,
    );
}

/// Serves at each desk of a slice, in threads where they can be made.
fn work_all<R: Threads + Wait + Sync, H: Shelf + Send, D: Door + Send, G: Gate + Sync>(
    means: &Means<'_, R, G>,
    desks: &mut [Desk<H, D>],
)
where
    D::Client: Send,
    requires nobody { All (λ desk. D.out desk.door ≡ None) desks.old }
    ensures each { (i : ℕ) (d : _) → i < length desks.old
        → Works means.now.quota
        (desk_view H.Shelf D.Door D.Client.Source D.Client.Sink (slice_index_or desks.old i d))
        (desk_view H.Shelf D.Door D.Client.Source D.Client.Sink (slice_index_or desks.new i d)) }
    ensures count { length desks.new ≡ length desks.old }
{
    let serve = |_: usize, desk: &mut Desk<H, D>|
        requires { D.out desk.now.door ≡ None }
    { work(means, desk) };
    thread::for_each_mut(means.rt, desks, MOST_DESKS as usize, &serve);
}

/// All desks of a list serve their doors at the same time, each in a thread of its own where one can be made.
pub(crate) fn work_at_doors<
    R: Threads + Wait + Sync,
    H: Shelf + Send,
    D: Door + Send,
    G: Gate + Sync,
>(means: &Means<'_, R, G>, desks: &mut Vec<Desk<H, D>>)
where
    D::Client: Send,
    requires nobody { All (λ desk. D.out desk.door ≡ None) desks.old.items }
    ensures each { (i : ℕ) (d : _) → i < length desks.old.items
        → Works means.now.quota
        (desk_view H.Shelf D.Door D.Client.Source D.Client.Sink (slice_index_or desks.old.items i d))
        (desk_view H.Shelf D.Door D.Client.Source D.Client.Sink (slice_index_or desks.new.items i d)) }
    ensures count { length desks.new.items ≡ length desks.old.items }
{
    work_all(means, desks.as_mut_slice());
}
