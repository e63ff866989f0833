//! Least cuts from greatest flows.
ghost use Rattle.std.specs.Prelude.{◌≡◌, ◌≢◌, ◌↔◌, ℕ, ◌+◌, ◌*◌, ◌<◌, ◌≤◌};
ghost use Rattle.std.specs.Prelude.{All, Contains, length, pos, replicate, true};
ghost use Rattle.cut_model.specs.Cuts.{IsLeastSide, set_of};
ghost use Rattle.cut_model.specs.Flow.{IsFlow};
ghost use Rattle.residual_graph.specs.View.{IsSound};

use crate::flow::{Flow, max_flow};
use crate::labels::Labels;
use cut_model::{Side, Steps};
use residual_graph::Residual;
use std::sync::ledger::Ledger;

/// A least cut's value, and the phases that its flow took.
#[derive(Clone, Copy, Debug)]
pub struct Cut {
    pub value: u64,
    pub phases: u32,
}

/// Makes a side hold just these routers.
fn hold_only(side: &mut Side, routers: &[u32])
    requires { All (λ r. r < length side.old) routers.now }
    ensures size { length side.new ≡ length side.old }
    ensures held { (r : ℕ) → (set_of side.new r ≡ true) ↔ Contains routers.now r }
{
    side.clear();
    for router in routers {
        side.put(*router);
    }
}

/// A flow from `s` to `t` over the arcs that have at least `threshold` left, where there is none yet.
/// Where `threshold` is 1 or 0, it is left to the flow that follows, and stays at none.
fn coarse_flow<L: Ledger>(
    graph: &mut Residual,
    s: u32,
    t: u32,
    threshold: u64,
    label: &mut Labels,
    marks: &mut Labels,
    cursor: &mut [u32],
    ahead: &mut [u32],
    behind: &mut [u32],
    steps: &mut Steps<L>,
) -> Flow
    requires sound { IsSound graph.old }
    requires flow { IsFlow graph.old.net s t graph.old.flow 0 }
    requires s { s < graph.old.net.routers }
    requires t { t < graph.old.net.routers }
    requires label { graph.old.net.routers ≤ length label.old }
    requires marks { graph.old.net.routers ≤ length marks.old }
    requires cursor { length cursor.old ≡ graph.old.net.routers }
    requires ahead { length ahead.old ≡ graph.old.net.routers }
    requires behind { length behind.old ≡ graph.old.net.routers }
    ensures same { graph.new ≡ record graph.old { flow = graph.new.flow } }
    ensures sound { IsSound graph.new }
    ensures flow { IsFlow graph.new.net s t graph.new.flow result.value }
    ensures phases { result.phases < graph.old.net.routers }
    ensures label { length label.new ≡ length label.old }
    ensures marks { length marks.new ≡ length marks.old }
    ensures steps { steps.new ≤ steps.old
        + 3 * length graph.old.net.links * graph.old.net.routers * graph.old.net.routers }
{
    if threshold > 1 {
        max_flow(
            graph, s, t, threshold, 0, label, marks, cursor, ahead, behind, steps,
        )
    } else {
        Flow {
            value: 0,
            phases: 0,
            reached: 0,
        }
    }
}

/// A least cut of `s` from `t` in a graph without a flow, whose least side goes into `side`. Flow
/// is first sent over the arcs that have at least `threshold` left, and then over all that have any.
/// The labels and lists have room for all routers; what they hold before and afterwards means nothing.
pub fn least_side<L: Ledger>(
    graph: &mut Residual,
    s: u32,
    t: u32,
    threshold: u64,
    label: &mut Labels,
    marks: &mut Labels,
    cursor: &mut [u32],
    ahead: &mut [u32],
    behind: &mut [u32],
    side: &mut Side,
    steps: &mut Steps<L>,
) -> Cut
    requires sound { IsSound graph.old }
    requires still { graph.old.flow ≡ replicate (length graph.old.net.links) (pos 0) }
    requires differ { s ≢ t }
    requires s { s < graph.old.net.routers }
    requires t { t < graph.old.net.routers }
    requires label { graph.old.net.routers ≤ length label.old }
    requires marks { graph.old.net.routers ≤ length marks.old }
    requires cursor { graph.old.net.routers ≤ length cursor.old }
    requires ahead { graph.old.net.routers ≤ length ahead.old }
    requires behind { graph.old.net.routers ≤ length behind.old }
    requires size { length side.old ≡ graph.old.net.routers }
    ensures same { graph.new ≡ record graph.old { flow = graph.new.flow } }
    ensures sound { IsSound graph.new }
    ensures least { IsLeastSide graph.new.net s t (set_of side.new) result.value }
    ensures flow { IsFlow graph.new.net s t graph.new.flow result.value }
    ensures size { length side.new ≡ length side.old }
    ensures label { length label.new ≡ length label.old }
    ensures marks { length marks.new ≡ length marks.old }
    ensures steps { steps.new ≤ steps.old
        + 6 * length graph.old.net.links * graph.old.net.routers * graph.old.net.routers }
{
    let routers = side.size() as usize;
    let cursor = &mut cursor[..routers];
    let ahead = &mut ahead[..routers];
    let behind = &mut behind[..routers];
    let coarse = coarse_flow(
        graph, s, t, threshold, label, marks, cursor, ahead, behind, steps,
    );
    let fine = max_flow(
        graph,
        s,
        t,
        1,
        coarse.value,
        label,
        marks,
        cursor,
        ahead,
        behind,
        steps,
    );
    hold_only(side, &ahead[..fine.reached]);
    Cut {
        value: fine.value,
        phases: coarse.phases + fine.phases,
    }
}
