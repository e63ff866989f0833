//! The least edge of a path.
ghost use Rattle.std.specs.Prelude.{◌≡◌, ◌≢◌, ◌⊎◌, ℕ, ◌+◌, ◌*◌, ◌^◌, ◌<◌, ◌≤◌, length, slice_index};
ghost use Rattle.cut_model.specs.Cuts.{IsLeastCut};
ghost use Rattle.cut_model.specs.Terminals.{IsTerminal};
ghost use Rattle.tree_state.specs.Views.{up_of, width_of, HoldsCutTree};
ghost use Rattle.tree_state.specs.Paths.{IsLeastEdge, side_for};
ghost use Rattle.path_minimum.specs.Depths.{depth_of};
ghost use Rattle.path_minimum.specs.Jumps.{AreRungsOf, IsRungOf};
ghost use Rattle.path_minimum.specs.Ladders.{IsLadderOf};
ghost use Rattle.path_minimum.specs.Passing.{AreApart, HasPassed};
ghost use Rattle.path_minimum.specs.Walks.{edge_of, IsLesser};

use crate::ladder::Ladder;
use crate::rungs::Rung;
use cut_model::Steps;
use std::marker::Brand;
use std::sync::ledger::{Blank, Ledger};
use tree_state::Finished;

/// An edge of a tree that is the least of some: the router at its lower end, and its width.
#[derive(Clone, Copy, PartialEq, Eq, Debug)]
pub struct PathLeast {
    /// The router at the lower end: the edge leads from it to the router above it.
    pub child: u32,
    /// What the cut costs that the edge stands for.
    pub width: u64,
}

/// The edge above a router.
#[inline]
pub(crate) fn edge_above(finished: &Finished, child: u32) -> PathLeast
    requires { child < finished.now.tree.net.routers }
    ensures { result ≡ edge_of finished.now.tree child }
{
    PathLeast {
        child,
        width: finished.width(child),
    }
}

/// Of two edges that of the smaller width, and of two as wide ones that whose lower end has the smaller
/// number.
#[inline]
pub(crate) fn lesser(one: PathLeast, other: PathLeast) -> PathLeast
    ensures { IsLesser result one other }
{
    if one.width < other.width {
        one
    } else if other.width < one.width {
        other
    } else if one.child < other.child {
        one
    } else {
        other
    }
}

/// Two routers, the deeper one first.
#[inline]
fn deeper_first(ladder: &Ladder, x: u32, y: u32) -> (u32, u32)
    requires x { x < length ladder.now.depths }
    requires y { y < length ladder.now.depths }
    ensures either { (result ≡ record { 0 = x; 1 = y }) ⊎ (result ≡ record { 0 = y; 1 = x }) }
    ensures order { slice_index ladder.now.depths result.1 ≤ slice_index ladder.now.depths result.0 }
{
    if ladder.depth(x) < ladder.depth(y) {
        (y, x)
    } else {
        (x, y)
    }
}

/// What is left of a path: its two ends, and the least edge of what was passed to reach them.
#[derive(Clone, Copy)]
struct Ends {
    x: u32,
    y: u32,
    least: PathLeast,
}

/// The ends of a path before anything of it is passed, the deeper one first. The edge above that one is on the
/// path, so it may be the least so far.
fn begin(ladder: &Ladder, finished: &Finished, a: u32, b: u32) -> Ends
    requires tree { HoldsCutTree finished.now.tree }
    requires ladder { IsLadderOf finished.now.tree ladder.now }
    requires a { IsTerminal finished.now.tree.net a }
    requires b { IsTerminal finished.now.tree.net b }
    requires differ { a ≢ b }
    ensures passed { HasPassed finished.now.tree a b result }
    ensures order { depth_of finished.now.tree result.y ≤ depth_of finished.now.tree result.x }
{
    let (x, y) = deeper_first(ladder, a, b);
    Ends {
        x,
        y,
        least: edge_above(finished, x),
    }
}

/// The ends once the first has jumped so many steps up.
fn jump_first<L: Ledger>(rung: &Rung, finished: &Finished, ends: Ends, steps: &mut Steps<L>) -> Ends
    requires tree { HoldsCutTree finished.now.tree }
    requires rung { IsRungOf finished.now.tree rung.now }
    requires x { IsTerminal finished.now.tree.net ends.x }
    requires y { IsTerminal finished.now.tree.net ends.y }
    requires some { 0 < rung.now.steps }
    requires deeper { depth_of finished.now.tree ends.y + rung.now.steps ≤ depth_of finished.now.tree ends.x }
    ensures passed { (a b : ℕ) → HasPassed finished.now.tree a b ends → HasPassed finished.now.tree a b result }
    ensures depth { depth_of finished.now.tree result.x + rung.now.steps ≡ depth_of finished.now.tree ends.x }
    ensures x { IsTerminal finished.now.tree.net result.x }
    ensures y { result.y ≡ ends.y }
    ensures steps { steps.new ≡ steps.old + 1 }
{
    let jump = rung.look(ends.x, steps);
    Ends {
        x: jump.router,
        y: ends.y,
        least: lesser(ends.least, edge_above(finished, jump.child)),
    }
}

/// The ends once the first, which lies as deep as the second or deeper, has come up to its depth: by the
/// longest jump that fits each time, at most one of each rung.
fn lift<L: Ledger>(ladder: &Ladder, finished: &Finished, from: Ends, steps: &mut Steps<L>) -> Ends
    requires tree { HoldsCutTree finished.now.tree }
    requires ladder { IsLadderOf finished.now.tree ladder.now }
    requires x { IsTerminal finished.now.tree.net from.x }
    requires y { IsTerminal finished.now.tree.net from.y }
    requires order { depth_of finished.now.tree from.y ≤ depth_of finished.now.tree from.x }
    ensures passed { (a b : ℕ) → HasPassed finished.now.tree a b from → HasPassed finished.now.tree a b result }
    ensures depth { depth_of finished.now.tree result.x ≡ depth_of finished.now.tree result.y }
    ensures steps { steps.new ≤ steps.old + length ladder.now.rungs }
{
    let mut ends = from;
    let mut left = ladder.depth(from.x) - ladder.depth(from.y);
    let mut level = ladder.levels();
    while level > 0 {
        level -= 1;
        let rung = ladder.rung(level);
        if rung.steps() <= left {
            ends = jump_first(rung, finished, ends, steps);
            left -= rung.steps();
        }
    }
    ends
}

/// The ends, of one depth, once both have jumped so many steps up; where these lead to one router, they stay.
fn jump_apart<L: Ledger>(rung: &Rung, finished: &Finished, ends: Ends, steps: &mut Steps<L>) -> Ends
    requires tree { HoldsCutTree finished.now.tree }
    requires rung { IsRungOf finished.now.tree rung.now }
    requires ends { AreApart finished.now.tree (rung.now.steps + rung.now.steps) ends }
    ensures passed { (a b : ℕ) → HasPassed finished.now.tree a b ends → HasPassed finished.now.tree a b result }
    ensures ends { AreApart finished.now.tree rung.now.steps result }
    ensures steps { steps.new ≡ steps.old + 2 }
{
    let one = rung.look(ends.x, steps);
    let other = rung.look(ends.y, steps);
    if one.router == other.router {
        return ends;
    }
    let least = lesser(ends.least, edge_above(finished, one.child));
    Ends {
        x: one.router,
        y: other.router,
        least: lesser(least, edge_above(finished, other.child)),
    }
}

/// The ends, of one depth, once both have come up as far as they are apart: then both hang from one router.
fn rise<L: Ledger>(ladder: &Ladder, finished: &Finished, from: Ends, steps: &mut Steps<L>) -> Ends
    requires tree { HoldsCutTree finished.now.tree }
    requires rungs { AreRungsOf finished.now.tree ladder.now.rungs }
    requires ends { AreApart finished.now.tree (2 ^ length ladder.now.rungs) from }
    ensures passed { (a b : ℕ) → HasPassed finished.now.tree a b from → HasPassed finished.now.tree a b result }
    ensures ends { AreApart finished.now.tree 1 result }
    ensures steps { steps.new ≤ steps.old + 2 * length ladder.now.rungs }
{
    let mut ends = from;
    let mut level = ladder.levels();
    while level > 0 {
        level -= 1;
        ends = jump_apart(ladder.rung(level), finished, ends, steps);
    }
    ends
}

/// The least edge of the path once the last two edges, from one router to both ends, are passed.
fn meet<L: Ledger>(
    ladder: &Ladder,
    finished: &Finished,
    ends: Ends,
    steps: &mut Steps<L>,
) -> PathLeast
    requires tree { HoldsCutTree finished.now.tree }
    requires rungs { AreRungsOf finished.now.tree ladder.now.rungs }
    requires ends { AreApart finished.now.tree 1 ends }
    ensures edge { (a b : ℕ) → HasPassed finished.now.tree a b ends → IsLeastEdge finished.now.tree.net
        (up_of finished.now.tree) (width_of finished.now.tree) a b result.child }
    ensures is { (a b : ℕ) → HasPassed finished.now.tree a b ends → result ≡ edge_of finished.now.tree result.child }
    ensures steps { steps.new ≡ steps.old + 2 }
{
    let single = ladder.rung(0);
    let one = single.look(ends.x, steps);
    let other = single.look(ends.y, steps);
    let nearer = lesser(ends.least, edge_above(finished, one.child));
    lesser(nearer, edge_above(finished, other.child))
}

/// The least edge of the path between two terminals: that of the smallest width, and of these that whose
/// lower end has the smallest number. Its side that holds `a` is a least cut of `a` from `b`, of the
/// edge's width (Gomory and Hu, 1961). The deeper one jumps to the depth of the other, and then both as long as
/// they don't meet, by jump pointers (Bender and Farach-Colton, 2002). It takes no memory.
///
/// `steps` counts each look at an entry of a rung: at most 3L + 2 of them, with 2^L no less than the number of
/// routers.
///
/// Where 1 hangs from 0 by an edge of width 5 and 2 from 1 by one of 7, `least_on_path(&ladder, &finished,
/// 2, 0, &mut steps)` gives `PathLeast { child: 1, width: 5 }`.
pub fn least_on_path<L: Ledger>(
    ladder: &Ladder,
    finished: &Finished,
    a: u32,
    b: u32,
    steps: &mut Steps<L>,
) -> PathLeast
    requires ladder { IsLadderOf finished.now.tree ladder.now }
    requires a { IsTerminal finished.now.tree.net a }
    requires b { IsTerminal finished.now.tree.net b }
    requires differ { a ≢ b }
    ensures edge { IsLeastEdge finished.now.tree.net (up_of finished.now.tree) (width_of finished.now.tree)
        a b result.child }
    ensures width { result.width ≡ width_of finished.now.tree result.child }
    ensures least { IsLeastCut finished.now.tree.net a b
        (side_for finished.now.tree.net.routers (up_of finished.now.tree) a result.child) result.width }
    ensures within { result.child < finished.now.tree.net.routers }
    ensures steps { (levels : ℕ) → finished.now.tree.net.routers ≤ 2 ^ levels
        → steps.new ≤ steps.old + 3 * levels + 2 }
{
    // (called for what it ensures: the tree is a cut tree)
    finished.net();
    let level = lift(ladder, finished, begin(ladder, finished, a, b), steps);
    if level.x == level.y {
        return level.least;
    }
    let near = rise(ladder, finished, level, steps);
    meet(ladder, finished, near, steps)
}

/// As `least_on_path`, with a counter of its own from a blank.
fn least_on_path_from<L: Ledger>(
    ladder: &Ladder,
    finished: &Finished,
    a: u32,
    b: u32,
    blank: Blank,
) -> PathLeast
    requires name { blank.name ≡ L.name }
    requires parts { blank.parts ≡ L.parts }
    requires some { 0 < L.parts }
    requires ladder { IsLadderOf finished.now.tree ladder.now }
    requires a { IsTerminal finished.now.tree.net a }
    requires b { IsTerminal finished.now.tree.net b }
    requires differ { a ≢ b }
    ensures edge { IsLeastEdge finished.now.tree.net (up_of finished.now.tree) (width_of finished.now.tree)
        a b result.child }
    ensures width { result.width ≡ width_of finished.now.tree result.child }
    ensures least { IsLeastCut finished.now.tree.net a b
        (side_for finished.now.tree.net.routers (up_of finished.now.tree) a result.child) result.width }
    ensures within { result.child < finished.now.tree.net.routers }
{
    let mut steps = Steps::<L>::zero(blank);
    least_on_path(ladder, finished, a, b, &mut steps)
}

/// As `least_on_path`, for a caller that counts no steps: `least_on_path_uncounted(&ladder, &finished, 2,
/// 0)` gives the same.
pub fn least_on_path_uncounted(ladder: &Ladder, finished: &Finished, a: u32, b: u32) -> PathLeast
    requires ladder { IsLadderOf finished.now.tree ladder.now }
    requires a { IsTerminal finished.now.tree.net a }
    requires b { IsTerminal finished.now.tree.net b }
    requires differ { a ≢ b }
    ensures edge { IsLeastEdge finished.now.tree.net (up_of finished.now.tree) (width_of finished.now.tree)
        a b result.child }
    ensures width { result.width ≡ width_of finished.now.tree result.child }
    ensures least { IsLeastCut finished.now.tree.net a b
        (side_for finished.now.tree.net.routers (up_of finished.now.tree) a result.child) result.width }
    ensures within { result.child < finished.now.tree.net.routers }
{
    least_on_path_from::<Brand>(ladder, finished, a, b, Blank::new(1))
}
