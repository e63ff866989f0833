//! A blocking flow over levels.
ghost use Rattle.std.specs.Prelude.{◌≡◌, ◌≢◌, ℕ, ◌+◌, ◌-◌, ◌<◌, ◌≤◌, ◌≤ℤ◌, pos, slice_index};
ghost use Rattle.residual_graph.specs.Arcs.{arc_count, tail_of};
ghost use Rattle.residual_graph.specs.Places.{place_at};
ghost use Rattle.residual_graph.specs.View.{IsSound, left_on, pushed};
ghost use Rattle.dinic_flow.specs.Phases.{Costs, IsBlocked, IsPhase, IsSpent, Sends};
ghost use Rattle.dinic_flow.specs.Phases.{aim_of, moment_of, tally_of};

use crate::labels::Labels;
use cut_model::Steps;
use residual_graph::Residual;
use std::sync::ledger::Ledger;

/// Sends an amount along an arc, if there is one. At most one step.
#[inline(always)]
fn push_some<L: Ledger>(graph: &mut Residual, arc: u32, amount: u64, steps: &mut Steps<L>)
    requires sound { IsSound graph.old }
    requires arc { arc < arc_count graph.old.net }
    requires amount { pos amount ≤ℤ left_on graph.old arc }
    ensures value { graph.new ≡ record graph.old { flow = pushed graph.old.flow arc amount } }
    ensures sound { IsSound graph.new }
    ensures steps { steps.new ≤ steps.old + 1 }
{
    if amount > 0 {
        graph.push(arc, amount, steps);
    }
}

/// Sends at most so much from a router to `t`, up the levels. What comes to `t` is there.
#[inline(always)]
#[cycle(blocking)]
fn send_on<L: Ledger>(
    graph: &mut Residual,
    router: u32,
    t: u32,
    limit: u64,
    threshold: u64,
    label: &Labels,
    cursor: &mut [u32],
    steps: &mut Steps<L>,
) -> u64
    requires phase { IsPhase (aim_of threshold t label.now) (moment_of graph.old cursor.old) }
    requires router { router < graph.old.net.routers }
    requires labelled { 0 < slice_index label.now router }
    requires t { t < graph.old.net.routers }
    requires threshold { 0 < threshold }
    requires limit { 0 < limit }
    ensures most { result ≤ limit }
    ensures phase { IsPhase (aim_of threshold t label.now) (moment_of graph.new cursor.new) }
    ensures sends { Sends (aim_of threshold t label.now)
        (moment_of graph.old cursor.old) (moment_of graph.new cursor.new) router result }
    ensures spent { result < limit → (router ≢ t) × IsSpent graph.new.net cursor.new router }
    ensures cost { Costs (slice_index label.now t - slice_index label.now router)
        (tally_of cursor.old steps.old) (tally_of cursor.new steps.new) }
{
    if router == t {
        limit
    } else {
        send(graph, router, t, limit, threshold, label, cursor, steps)
    }
}

/// Sends at most so much to `t` over the arc at a place, and nothing where that arc doesn't lead to
/// the level `next`, is closed, or leads to a router whose arcs are all blocked.
#[inline(always)]
#[cycle(blocking)]
fn send_over<L: Ledger>(
    graph: &mut Residual,
    at: u32,
    next: u32,
    t: u32,
    limit: u64,
    threshold: u64,
    label: &Labels,
    cursor: &mut [u32],
    steps: &mut Steps<L>,
) -> u64
    requires phase { IsPhase (aim_of threshold t label.now) (moment_of graph.old cursor.old) }
    requires at { at < arc_count graph.old.net }
    requires next { next
        ≡ slice_index label.now (tail_of graph.old.net (place_at graph.old.net at).arc) + 1 }
    requires labelled { 1 < next }
    requires low { next ≤ slice_index label.now t }
    requires t { t < graph.old.net.routers }
    requires threshold { 0 < threshold }
    requires limit { 0 < limit }
    ensures most { result ≤ limit }
    ensures phase { IsPhase (aim_of threshold t label.now) (moment_of graph.new cursor.new) }
    ensures sends { Sends (aim_of threshold t label.now)
        (moment_of graph.old cursor.old) (moment_of graph.new cursor.new)
        (tail_of graph.old.net (place_at graph.old.net at).arc) result }
    ensures own { let tail = tail_of graph.old.net (place_at graph.old.net at).arc
        in slice_index cursor.new tail ≡ slice_index cursor.old tail }
    ensures blocked { result < limit →
        IsBlocked (aim_of threshold t label.now)
        (moment_of graph.new cursor.new) (place_at graph.old.net at).arc }
    ensures cost { Costs (slice_index label.now t - next)
        (tally_of cursor.old (steps.old + 2)) (tally_of cursor.new steps.new) }
{
    let place = graph.place(at);
    label.keeps_low(t);
    if !label.is(place.head, next) {
        return 0;
    }
    if cursor[place.head as usize] == graph.begin(place.head + 1) {
        return 0;
    }
    let left = graph.left(place.arc, steps);
    if left < threshold {
        return 0;
    }
    let most = left.min(limit);
    let sent = send_on(graph, place.head, t, most, threshold, label, cursor, steps);
    push_some(graph, place.arc, sent, steps);
    sent
}

/// Sends at most so much from a router to `t`, up the levels, over the arcs from its cursor on, and
/// leaves the cursor at the first that may let more through. (Dinic, 1970.)
#[cycle(blocking)]
pub fn send<L: Ledger>(
    graph: &mut Residual,
    router: u32,
    t: u32,
    limit: u64,
    threshold: u64,
    label: &Labels,
    cursor: &mut [u32],
    steps: &mut Steps<L>,
) -> u64
    requires phase { IsPhase (aim_of threshold t label.now) (moment_of graph.old cursor.old) }
    requires router { router < graph.old.net.routers }
    requires labelled { 0 < slice_index label.now router }
    requires apart { router ≢ t }
    requires t { t < graph.old.net.routers }
    requires threshold { 0 < threshold }
    requires limit { 0 < limit }
    ensures most { result ≤ limit }
    ensures phase { IsPhase (aim_of threshold t label.now) (moment_of graph.new cursor.new) }
    ensures sends { Sends (aim_of threshold t label.now)
        (moment_of graph.old cursor.old) (moment_of graph.new cursor.new) router result }
    ensures spent { result < limit → IsSpent graph.new.net cursor.new router }
    ensures cost { Costs (slice_index label.now t - slice_index label.now router)
        (tally_of cursor.old steps.old) (tally_of cursor.new steps.new) }
{
    let next = label.get(router) + 1;
    let end = graph.begin(router + 1);
    let mut sent = 0u64;
    for at in cursor[router as usize]..end {
        sent += send_over(
            graph,
            at,
            next,
            t,
            limit - sent,
            threshold,
            label,
            cursor,
            steps,
        );
        if sent == limit {
            cursor[router as usize] = at;
            return sent;
        }
    }
    cursor[router as usize] = end;
    sent
}
