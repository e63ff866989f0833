//! Greatest flows over open arcs, phase by phase.
ghost use Rattle.std.specs.Prelude.{◌≡◌, ℕ, ◌+◌, ◌-◌, ◌*◌, ◌<◌, ◌≤◌, length, slice_index, take};
ghost use Rattle.cut_model.specs.Flow.{IsFlow};
ghost use Rattle.residual_graph.specs.Arcs.{arc_count};
ghost use Rattle.residual_graph.specs.View.{IsSound};
ghost use Rattle.dinic_flow.specs.Levels.{IsFartherThan, IsLevelled};
ghost use Rattle.dinic_flow.specs.Phases.{AreBegun};
ghost use Rattle.dinic_flow.specs.Searching.{IsApart};

use crate::blocking::send;
use crate::labels::Labels;
use crate::search::{Found, search};
use cut_model::Steps;
use residual_graph::Residual;
use std::sync::ledger::Ledger;

/// Makes a flow of `value` from `s` to `t` grow over the levels, until each walk of open arcs from
/// `s` to `t` is longer than those along the levels. The value of the flow afterwards. Routers without
/// a level are never looked at, so their cursors may stand anywhere.
pub fn phase<L: Ledger>(
    graph: &mut Residual,
    s: u32,
    t: u32,
    threshold: u64,
    value: u64,
    label: &Labels,
    cursor: &mut [u32],
    steps: &mut Steps<L>,
) -> u64
    requires sound { IsSound graph.old }
    requires flow { IsFlow graph.old.net s t graph.old.flow value }
    requires levelled { IsLevelled graph.old threshold t label.now }
    requires start { slice_index label.now s ≡ 1 }
    requires s { s < graph.old.net.routers }
    requires t { t < graph.old.net.routers }
    requires threshold { 0 < threshold }
    requires cursor { length cursor.old ≡ graph.old.net.routers }
    requires begun { AreBegun graph.old.net label.now cursor.old }
    ensures same { graph.new ≡ record graph.old { flow = graph.new.flow } }
    ensures sound { IsSound graph.new }
    ensures flow { IsFlow graph.new.net s t graph.new.flow result }
    ensures farther { IsFartherThan graph.new threshold s t (slice_index label.now t - 1) }
    ensures steps { steps.new
        ≤ steps.old + 2 * ((slice_index label.now t - 1) * (arc_count graph.old.net + 1)) }
{
    value + send(graph, s, t, u64::MAX, threshold, label, cursor, steps)
}

/// A flow: its value, the phases that made it, and how many routers `s` still reaches.
#[derive(Clone, Copy, Debug)]
pub struct Flow {
    pub value: u64,
    pub phases: u32,
    pub reached: usize,
}

/// Makes a flow of `value` from `s` to `t` grow until no walk of open arcs leads from `s` to `t`,
/// by phases over longer and longer walks (Dinic, 1970). The first so many of `ahead` are then all
/// routers to which open arcs lead from `s`. With n routers and m links there are fewer than n
/// phases, and at most 3mn² steps.
pub fn max_flow<L: Ledger>(
    graph: &mut Residual,
    s: u32,
    t: u32,
    threshold: u64,
    value: u64,
    label: &mut Labels,
    marks: &mut Labels,
    cursor: &mut [u32],
    ahead: &mut [u32],
    behind: &mut [u32],
    steps: &mut Steps<L>,
) -> Flow
    requires sound { IsSound graph.old }
    requires flow { IsFlow graph.old.net s t graph.old.flow value }
    requires s { s < graph.old.net.routers }
    requires t { t < graph.old.net.routers }
    requires threshold { 0 < threshold }
    requires label { graph.old.net.routers ≤ length label.old }
    requires marks { graph.old.net.routers ≤ length marks.old }
    requires cursor { length cursor.old ≡ graph.old.net.routers }
    requires ahead { length ahead.old ≡ graph.old.net.routers }
    requires behind { length behind.old ≡ graph.old.net.routers }
    ensures same { graph.new ≡ record graph.old { flow = graph.new.flow } }
    ensures sound { IsSound graph.new }
    ensures flow { IsFlow graph.new.net s t graph.new.flow result.value }
    ensures phases { result.phases < graph.old.net.routers }
    ensures reached { result.reached ≤ graph.old.net.routers }
    ensures apart { IsApart graph.new threshold s t (take result.reached ahead.new) }
    ensures label { length label.new ≡ length label.old }
    ensures marks { length marks.new ≡ length marks.old }
    ensures steps { steps.new ≤ steps.old
        + 3 * length graph.old.net.links * graph.old.net.routers * graph.old.net.routers }
{
    let mut value = value;
    let mut phases = 0u32;
    loop {
        match search(
            graph, s, t, threshold, label, marks, cursor, ahead, behind, steps,
        ) {
            Found::Joined(_) => {
                value = phase(graph, s, t, threshold, value, label, cursor, steps);
                phases += 1;
            }
            Found::Apart(reached) => {
                return Flow {
                    value,
                    phases,
                    reached,
                };
            }
        }
    }
}
