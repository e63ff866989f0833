//! One door, and the clients that come through it.
ghost use Rattle.std.specs.Prelude.{◌≡◌, ℕ, ◌≤◌, None, length};
ghost use Rattle.desks.specs.Doors.{ServesClient, ServesDoor, client_view, door_view, station};
ghost use Rattle.desks.specs.Visits.{begin_of};
ghost use Rattle.session.specs.Shelved.{shelved};
ghost use Rattle.wires.specs.Doors.{IsOut};

use session::{Session, serve_session};
use std::alloc::Global;
use std::sync::Wait;
use std::thread::Threads;
use tree_versions::Shelf;
use wires::Door;
use worker_gate::Gate;

/// What all desks work with: whence memory and threads come, how the cuts of trees are computed, and how many clients
/// of a door are served.
#[derive(Drop)]
pub(crate) struct Means<'a, R, G> {
    pub(crate) alloc: Global,
    pub(crate) rt: &'a R,
    pub(crate) gate: &'a G,
    pub(crate) quota: u32,
}

/// How many clients of a door were served, and whether the door failed.
#[derive(Clone, Copy)]
pub(crate) struct DoorEnd {
    pub(crate) clients: u32,
    pub(crate) failed: bool,
}

/// Serves a client that a door has given, and gives it back.
fn serve_client<R: Threads + Wait + Sync, H: Shelf, D: Door, G: Gate + Sync>(
    means: &Means<'_, R, G>,
    session: &mut Session,
    shelf: &mut H,
    door: &mut D,
    client: D::Client,
)
    requires out { IsOut (D.out door.old) (begin_of (client_view D.Client.Source D.Client.Sink client)) }
    ensures { (seen : ℕ) → seen ≤ length (H.seen shelf.old)
        → ServesClient seen (begin_of (client_view D.Client.Source D.Client.Sink client))
        (station (shelved H.Shelf shelf.old) (door_view D.Door D.Client.Source D.Client.Sink door.old))
        (station (shelved H.Shelf shelf.new) (door_view D.Door D.Client.Source D.Client.Sink door.new)) }
{
    let mut client = client;
    serve_session(
        means.alloc,
        means.rt,
        session,
        shelf,
        &mut client,
        means.gate,
    );
    door.back(client);
}

/// Serves the clients of a door, one after another, until so many came, none comes any more, or the door fails.
pub(crate) fn serve_door<R: Threads + Wait + Sync, H: Shelf, D: Door, G: Gate + Sync>(
    means: &Means<'_, R, G>,
    session: &mut Session,
    shelf: &mut H,
    door: &mut D,
) -> DoorEnd
    requires nobody { D.out door.old ≡ None }
    ensures { ServesDoor means.now.quota
        (station (shelved H.Shelf shelf.old) (door_view D.Door D.Client.Source D.Client.Sink door.old))
        (station (shelved H.Shelf shelf.new) (door_view D.Door D.Client.Source D.Client.Sink door.new)) result }
{
    for clients in 0..means.quota {
        match door.next() {
            Ok(Some(client)) => serve_client(means, session, shelf, door, client),
            Ok(None) => {
                return DoorEnd {
                    clients,
                    failed: false,
                };
            }
            Err(_) => {
                return DoorEnd {
                    clients,
                    failed: true,
                };
            }
        }
    }
    DoorEnd {
        clients: means.quota,
        failed: false,
    }
}
