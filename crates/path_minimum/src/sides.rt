//! The sides of an edge.
ghost use Rattle.std.specs.Prelude.{◌≡◌, ℕ, ◌<◌, ◌≤◌, true, length, replicate, slice_index, if◌then◌else◌};
ghost use Rattle.cut_model.specs.Crossing.{outside};
ghost use Rattle.cut_model.specs.Cuts.{set_of};
ghost use Rattle.cut_model.specs.declared.network.TheConstants.{MOST_ROUTERS};
ghost use Rattle.tree_state.specs.Views.{up_of};
ghost use Rattle.tree_state.specs.Paths.{side_for};
ghost use Rattle.tree_state.specs.Shown.{ShowsSet};
ghost use Rattle.path_minimum.specs.Ladders.{IsLadderOf};
ghost use Rattle.path_minimum.specs.Stretches.{below_in, AreWithin, IsNotBetween};

use crate::ladder::Ladder;
use cut_model::Side;
use cut_sides::turn_over;
use tree_state::{Finished, side_below};

/// The side of the edge above `child` that holds `a`: what is below `child`, or all other routers. The
/// time is proportional to the number of routers.
///
/// Where 1 hangs from 0 and 2 from 1, `side_holding(&finished, 1, 2)` has 1 and 2, and
/// `side_holding(&finished, 1, 0)` has 0 alone.
pub fn side_holding(finished: &Finished, child: u32, a: u32) -> Side
    requires child { child < finished.now.tree.net.routers }
    requires a { a < finished.now.tree.net.routers }
    ensures { ShowsSet finished.now.tree.net.routers
        (side_for finished.now.tree.net.routers (up_of finished.now.tree) a child) result }
{
    let mut side = side_below(finished, child);
    if !side.has(a) {
        turn_over(&mut side);
    }
    side
}

/// Puts the routers at these places of an order into a side, or takes them out.
fn mark(side: &mut Side, order: &[u32], from: usize, end: usize, inside: bool)
    requires order { from ≤ end }
    requires end { end ≤ length order.now }
    requires within { AreWithin (length side.old) order.now }
    ensures marked { (k : ℕ) → from ≤ k → k < end → set_of side.new (slice_index order.now k) ≡ inside }
    ensures others { (r : ℕ) → IsNotBetween order.now from end r → set_of side.new r ≡ set_of side.old r }
    ensures size { length side.new ≡ length side.old }
{
    for place in from..end {
        let router = order[place];
        if inside {
            side.put(router);
        } else {
            side.take_out(router);
        }
    }
}

/// The side of all routers, or of none.
fn all_or_none(ladder: &Ladder, all: bool) -> Side
    requires few { length ladder.now.everyone ≤ MOST_ROUTERS }
    requires everyone { ladder.now.everyone ≡ replicate (length ladder.now.everyone) true }
    ensures { result ≡ replicate (length ladder.now.everyone) all }
{
    if all {
        *ladder.everyone()
    } else {
        Side::empty(ladder.everyone().size())
    }
}

/// The routers below one, or all others: by marking these one by one, or all but the others, as fewer are to be
/// marked.
fn side_of_stretch(ladder: &Ladder, finished: &Finished, child: u32, holds: bool) -> Side
    requires ladder { IsLadderOf finished.now.tree ladder.now }
    requires child { child < finished.now.tree.net.routers }
    ensures { ShowsSet finished.now.tree.net.routers
        (if holds then below_in finished.now.tree child else outside (below_in finished.now.tree child)) result }
{
    let routers = finished.net().routers() as usize;
    let order = ladder.order();
    let stretch = ladder.stretch(child);
    let (from, end) = (stretch.from as usize, stretch.end as usize);
    if end - from <= routers / 2 {
        let mut side = all_or_none(ladder, !holds);
        mark(&mut side, order, from, end, holds);
        return side;
    }
    let mut side = all_or_none(ladder, holds);
    mark(&mut side, order, 0, from, !holds);
    mark(&mut side, order, end, routers, !holds);
    side
}

/// As `side_holding`, by the ladder of the tree: in time proportional to the number of routers on the side, or
/// of the others if these are fewer. It takes no memory.
///
/// Where 1 hangs from 0 and 2 from 1, `side_by_ladder(&ladder, &finished, 1, 2)` has 1 and 2.
pub fn side_by_ladder(ladder: &Ladder, finished: &Finished, child: u32, a: u32) -> Side
    requires ladder { IsLadderOf finished.now.tree ladder.now }
    requires child { child < finished.now.tree.net.routers }
    requires a { a < finished.now.tree.net.routers }
    ensures { ShowsSet finished.now.tree.net.routers
        (side_for finished.now.tree.net.routers (up_of finished.now.tree) a child) result }
{
    let stretch = ladder.stretch(child);
    let place = ladder.stretch(a).from;
    let holds = stretch.from <= place && place < stretch.end;
    side_of_stretch(ladder, finished, child, holds)
}
