//! The path between two terminals.
ghost use Rattle.std.specs.Prelude.{◌≡◌, ◌≢◌, ◌+◌, ◌<◌, ◌≤◌, ◌++◌, true, All};
ghost use Rattle.std.specs.Prelude.{length, take, drop, reverse, vec_capacity, vec_len};
ghost use Rattle.cut_model.specs.Terminals.{IsTerminal};
ghost use Rattle.cut_model.specs.declared.network.TheConstants.{MOST_ROUTERS};
ghost use Rattle.tree_state.specs.Views.{up_of, HoldsCutTree};
ghost use Rattle.tree_state.specs.Shown.{ShowsSet};
ghost use Rattle.tree_state.specs.Tables.{below};
ghost use Rattle.path_minimum.specs.Depths.{depth_of};
ghost use Rattle.path_minimum.specs.Paths.{IsOrderedPath};
ghost use Rattle.path_minimum.specs.Walks.{way_between, IsMeeting};

use crate::path_room::PathRoom;
use cut_model::Side;
use tree_state::Finished;

/// The routers of the way up of a terminal: those that have it below them.
fn mark_way(finished: &Finished, router: u32) -> Side
    requires { IsTerminal finished.now.tree.net router }
    ensures marks { ShowsSet finished.now.tree.net.routers
        (λ c. below finished.now.tree.net.routers (up_of finished.now.tree) c router) result }
    ensures tree { HoldsCutTree finished.now.tree }
    ensures few { finished.now.tree.net.routers ≤ MOST_ROUTERS }
{
    let root = finished.root();
    let mut marks = Side::empty(finished.net().routers());
    let mut at = router;
    while at != root {
        marks.put(at);
        at = finished.up(at);
    }
    marks.put(root);
    marks
}

/// Where the ways up of two terminals meet: the first router of that of `b` that is on that of `a` too.
fn meeting_of(finished: &Finished, a: u32, b: u32) -> u32
    requires a { IsTerminal finished.now.tree.net a }
    requires b { IsTerminal finished.now.tree.net b }
    ensures meeting { IsMeeting finished.now.tree.net (up_of finished.now.tree) a b result }
    ensures tree { HoldsCutTree finished.now.tree }
    ensures few { finished.now.tree.net.routers ≤ MOST_ROUTERS }
{
    let marks = mark_way(finished, a);
    let mut at = b;
    while !marks.has(at) {
        at = finished.up(at);
    }
    at
}

/// Adds the routers of the way from one terminal up to another, without the last.
fn push_way(finished: &Finished, from: u32, to: u32, children: &mut Vec<u32>)
    requires tree { HoldsCutTree finished.now.tree }
    requires from { IsTerminal finished.now.tree.net from }
    requires to { IsTerminal finished.now.tree.net to }
    requires above { below finished.now.tree.net.routers (up_of finished.now.tree) to from ≡ true }
    requires room { vec_len children.old + depth_of finished.now.tree from
        ≤ MOST_ROUTERS + depth_of finished.now.tree to }
    requires capacity { MOST_ROUTERS ≤ vec_capacity children.old }
    ensures way { children.new.items ≡ children.old.items ++ way_between finished.now.tree from to }
    ensures capacity { vec_capacity children.new ≡ vec_capacity children.old }
{
    let mut at = from;
    while at != to {
        children.push_reserved(at);
        at = finished.up(at);
    }
}

/// Turns round the order of what stands behind a front of a list.
fn turn_behind(children: &mut [u32], front: usize)
    requires { front ≤ length children.old }
    ensures { children.new ≡ take front children.old ++ reverse (drop front children.old) }
{
    children[front..].reverse();
}

/// Leaves the path between two terminals in the room, in its order: the edges from `a` up to where the
/// ways up of the two meet, and from there down to `b`. Each router of the two ways up is passed at most
/// twice. It takes no memory.
///
/// Where 1 hangs from 0 and 2 from 1, `path(&finished, 2, 0, &mut room)` leaves 2 and 1 in the room, and
/// `path(&finished, 0, 2, &mut room)` leaves 1 and 2.
pub fn path(finished: &Finished, a: u32, b: u32, room: &mut PathRoom)
    requires a { IsTerminal finished.now.tree.net a }
    requires b { IsTerminal finished.now.tree.net b }
    requires differ { a ≢ b }
    ensures path { IsOrderedPath finished.now.tree.net (up_of finished.now.tree) a b room.new }
    ensures few { length room.new < finished.now.tree.net.routers }
    ensures within { All (λ c. c < finished.now.tree.net.routers) room.new }
{
    let meeting = meeting_of(finished, a, b);
    room.children.clear();
    push_way(finished, a, meeting, &mut room.children);
    let front = room.children.len();
    push_way(finished, b, meeting, &mut room.children);
    turn_behind(&mut room.children, front);
}
