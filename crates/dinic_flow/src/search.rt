//! A search from both ends.
ghost use Rattle.std.specs.Prelude.{◌≡◌, ◌≢◌, ◌↔◌, ℕ, ◌+◌, ◌<◌, ◌≤◌};
ghost use Rattle.std.specs.Prelude.{All, IsTrue, IsFalse, length, replicate};
ghost use Rattle.std.specs.Prelude.{slice_index, slice_set};
ghost use Rattle.cut_model.specs.declared.network.TheConstants.{MOST_ROUTERS};
ghost use Rattle.residual_graph.specs.Arcs.{arc_count, arcs_from, tail_of, turned};
ghost use Rattle.residual_graph.specs.Places.{IsPlaceOf};
ghost use Rattle.residual_graph.specs.View.{IsSound};
ghost use Rattle.dinic_flow.specs.Levels.{IsOpen};
ghost use Rattle.dinic_flow.specs.Balls.{search_of, reached_of, ball_of, round_of, grown_of};
ghost use Rattle.dinic_flow.specs.Balls.{IsLabelled, Grows, LeadsOn, AreApart, Meets};
ghost use Rattle.dinic_flow.specs.Balls.{IsBall, Crosses, work_of, IsLetOut, IsNumbered};
ghost use Rattle.dinic_flow.specs.Phases.{AreBegunOn, IsBegunOn};
ghost use Rattle.dinic_flow.specs.Searching.{IsFound};
ghost use Rattle.dinic_flow.specs.declared.labels.TheConstants.{MOST_LABEL};

use crate::labels::Labels;
use cut_model::Steps;
use residual_graph::{Place, Residual};
use std::sync::ledger::Ledger;

/// The label of a router without a label.
const NO_LABEL: u32 = 0;

/// How many cursors are copied, about, in the time in which one is set alone.
const COPIED_IN_ONE: usize = 8;

/// What a search found.
#[derive(Clone, Copy, Debug)]
pub enum Found {
    /// So many open arcs lead from s to t, and no fewer.
    Joined(u32),
    /// The first so many of the queue of s are all routers that s reaches.
    Apart(usize),
}

/// How far a ball has come: the first `known` routers of its queue are in it, and those from
/// `front` on are `radius` open arcs away from its centre.
#[derive(Clone, Copy)]
struct Ball {
    front: usize,
    known: usize,
    radius: u32,
}

/// How many routers a queue has, and whether an open arc joins the balls.
#[derive(Clone, Copy)]
struct Round {
    known: usize,
    joined: bool,
}

/// Begins a ball: its centre alone has a label, which is 1.
fn begin(centre: u32, label: &mut Labels, queue: &mut [u32]) -> Ball
    requires label { centre < length label.old }
    requires queue { 0 < length queue.old }
    ensures label { label.new ≡ slice_set (replicate (length label.old) 0) centre 1 }
    ensures queue { queue.new ≡ slice_set queue.old 0 centre }
    ensures ball { result ≡ record { front = 0; known = 1; radius = 0 } }
{
    label.clear();
    label.set(centre, 1);
    queue[0] = centre;
    Ball {
        front: 0,
        known: 1,
        radius: 0,
    }
}

/// Gives the label to the head of an arc, and puts it into the queue, if the arc is open and the
/// head has no label yet. Where the head is in the other ball, it stays so, and the balls are
/// joined. At most one step.
#[inline(always)]
fn reach<L: Ledger>(
    graph: &Residual,
    place: Place,
    back: bool,
    next: u32,
    threshold: u64,
    label: &mut Labels,
    other: &Labels,
    queue: &mut [u32],
    known: usize,
    steps: &mut Steps<L>,
) -> Round
    requires limit { graph.now.net.routers ≤ MOST_ROUTERS }
    requires place { IsPlaceOf graph.now.net (tail_of graph.now.net place.arc) place }
    requires label { graph.now.net.routers ≤ length label.old }
    requires other { graph.now.net.routers ≤ length other.now }
    requires queue { graph.now.net.routers ≤ length queue.old }
    requires labelled { IsLabelled (search_of graph.now threshold) back
        (reached_of label.old queue.old known) }
    requires level { slice_index label.old (tail_of graph.now.net place.arc) + 1 ≡ next }
    requires low { next ≤ MOST_LABEL }
    requires tail { 0 < slice_index label.old (tail_of graph.now.net place.arc) }
    requires apart { AreApart label.old other.now }
    ensures labelled { IsLabelled (search_of graph.now threshold) back
        (reached_of label.new queue.new result.known) }
    ensures grows { Grows (reached_of label.old queue.old known)
        (reached_of label.new queue.new result.known) next }
    ensures apart { AreApart label.new other.now }
    ensures reached { IsFalse result.joined → IsOpen graph.now threshold (turned back place.arc) →
        0 < slice_index label.new place.head }
    ensures crosses { IsTrue result.joined →
        Crosses (search_of graph.now threshold) back other.now (tail_of graph.now.net place.arc) }
    ensures steps { steps.new ≤ steps.old + 1 }
{
    if label.has(place.head) {
        return Round {
            known,
            joined: false,
        };
    }
    if graph.left_along(place.arc, back, steps) < threshold {
        return Round {
            known,
            joined: false,
        };
    }
    if other.has(place.head) {
        return Round {
            known,
            joined: true,
        };
    }
    label.set(place.head, next);
    queue[known] = place.head;
    Round {
        known: known + 1,
        joined: false,
    }
}

/// Reaches on along the arcs of a router, until one joins the balls. At most one step an arc.
#[inline(always)]
fn look_around<L: Ledger>(
    graph: &Residual,
    router: u32,
    back: bool,
    next: u32,
    threshold: u64,
    label: &mut Labels,
    other: &Labels,
    queue: &mut [u32],
    known: usize,
    steps: &mut Steps<L>,
) -> Round
    requires limit { graph.now.net.routers ≤ MOST_ROUTERS }
    requires router { router < graph.now.net.routers }
    requires label { graph.now.net.routers ≤ length label.old }
    requires other { graph.now.net.routers ≤ length other.now }
    requires queue { graph.now.net.routers ≤ length queue.old }
    requires labelled { IsLabelled (search_of graph.now threshold) back
        (reached_of label.old queue.old known) }
    requires level { slice_index label.old router + 1 ≡ next }
    requires low { next ≤ MOST_LABEL }
    requires tail { 0 < slice_index label.old router }
    requires apart { AreApart label.old other.now }
    ensures labelled { IsLabelled (search_of graph.now threshold) back
        (reached_of label.new queue.new result.known) }
    ensures grows { Grows (reached_of label.old queue.old known)
        (reached_of label.new queue.new result.known) next }
    ensures apart { AreApart label.new other.now }
    ensures reached { IsFalse result.joined → (v : ℕ) → LeadsOn (search_of graph.now threshold) back router v →
        0 < slice_index label.new v }
    ensures crosses { IsTrue result.joined → Crosses (search_of graph.now threshold) back other.now router }
    ensures steps { steps.new ≤ steps.old + length (arcs_from graph.now.net router) }
{
    let mut known = known;
    for place in graph.places_of(router) {
        let round = reach(
            graph, *place, back, next, threshold, label, other, queue, known, steps,
        );
        if round.joined {
            return round;
        }
        known = round.known;
    }
    Round {
        known,
        joined: false,
    }
}

/// Spreads a ball by one arc, until an open arc joins it with the other one. At most one step for
/// each arc of the routers at its front.
#[inline(always)]
fn spread<L: Ledger>(
    graph: &Residual,
    back: bool,
    threshold: u64,
    ball: Ball,
    label: &mut Labels,
    other: &Labels,
    queue: &mut [u32],
    steps: &mut Steps<L>,
) -> Round
    requires limit { graph.now.net.routers ≤ MOST_ROUTERS }
    requires label { graph.now.net.routers ≤ length label.old }
    requires other { graph.now.net.routers ≤ length other.now }
    requires queue { graph.now.net.routers ≤ length queue.old }
    requires some { ball.front < ball.known }
    requires ball { IsBall (search_of graph.now threshold) back (ball_of label.old queue.old ball) }
    requires apart { AreApart label.old other.now }
    ensures more { ball.known ≤ result.known }
    ensures few { result.known ≤ graph.now.net.routers }
    ensures label { length label.new ≡ length label.old }
    ensures centre { slice_index queue.new 0 ≡ slice_index queue.old 0 }
    ensures apart { AreApart label.new other.now }
    ensures grown { IsFalse result.joined →
        IsBall (search_of graph.now threshold) back
        (grown_of ball (reached_of label.new queue.new result.known)) }
    ensures stopped { IsTrue result.joined →
        IsBall (search_of graph.now threshold) back
        (round_of ball (reached_of label.new queue.new result.known)) }
    ensures meets { IsTrue result.joined →
        Meets (search_of graph.now threshold) back
        (round_of ball (reached_of label.new queue.new result.known)) other.now }
    ensures steps { steps.new + work_of graph.now.net queue.old ball.front
        ≤ steps.old + work_of graph.now.net queue.new ball.known }
{
    let mut known = ball.known;
    for done in ball.front..ball.known {
        let round = look_around(
            graph,
            queue[done],
            back,
            ball.radius + 2,
            threshold,
            label,
            other,
            queue,
            known,
            steps,
        );
        if round.joined {
            return round;
        }
        known = round.known;
    }
    Round {
        known,
        joined: false,
    }
}

impl Ball {
    /// The ball after a round that left so many routers in its queue.
    fn grown(self, known: usize) -> Ball
        requires { self.radius < MOST_ROUTERS }
        ensures { result ≡ record { front = self.known; known = known; radius = self.radius + 1 } }
    {
        Ball {
            front: self.known,
            known,
            radius: self.radius + 1,
        }
    }
}

/// Whether the ball about s grows next: at first, where that about t can't, and where its front has
/// at most half as many routers as the other's.
fn grows_near(near: Ball, far: Ball) -> bool
    requires near { near.front ≤ near.known }
    requires small { near.known ≤ MOST_ROUTERS }
    requires far { far.front ≤ far.known }
    ensures { IsFalse result → far.front < far.known }
{
    near.radius == 0
        || far.front == far.known
        || 2 * (near.known - near.front) <= far.known - far.front
}

/// Takes the labels of these routers away.
fn unlabel(label: &mut Labels, queue: &[u32])
    requires { All (λ r. r < length label.old) queue.now }
    ensures { IsLetOut label.old label.new queue.now }
{
    for router in queue {
        label.set(*router, NO_LABEL);
    }
}

/// Gives each of these routers the label that its mark leaves of a total.
fn number(label: &mut Labels, marks: &Labels, queue: &[u32], total: u32)
    requires label { All (λ r. r < length label.old) queue.now }
    requires marks { All (λ r. r < length marks.now) queue.now }
    requires small { All (λ r. slice_index marks.now r ≤ total) queue.now }
    requires low { total ≤ MOST_LABEL }
    ensures { IsNumbered label.old label.new marks.now queue.now total }
{
    for router in queue {
        label.set(*router, total - marks.get(*router));
    }
}

/// Puts the cursors of these routers at their first places.
fn begin_cursors(graph: &Residual, cursor: &mut [u32], queue: &[u32])
    requires cursor { graph.now.net.routers ≤ length cursor.old }
    requires routers { All (λ r. r < graph.now.net.routers) queue.now }
    ensures { IsBegunOn graph.now.net cursor.old cursor.new queue.now }
{
    for router in queue {
        cursor[*router as usize] = graph.begin(*router);
    }
}

/// Puts the cursors of the routers of both balls at their first places. Where the balls have many of the
/// routers, all cursors are copied at once, which then takes less time.
fn begin_both(graph: &Residual, cursor: &mut [u32], near: &[u32], far: &[u32])
    requires cursor { length cursor.old ≡ graph.now.net.routers }
    requires near { All (λ r. r < graph.now.net.routers) near.now }
    requires far { All (λ r. r < graph.now.net.routers) far.now }
    ensures near { AreBegunOn graph.now.net cursor.new near.now }
    ensures far { AreBegunOn graph.now.net cursor.new far.now }
{
    if near.len() + far.len() > cursor.len() / COPIED_IN_ONE {
        graph.copy_begins(cursor);
    } else {
        begin_cursors(graph, cursor, near);
        begin_cursors(graph, cursor, far);
    }
}

/// Searches a walk of fewest open arcs from s to t, by balls about both: the routers within so many
/// open arcs of s, and those of which t is within so many. One of the two grows at a time, until an
/// open arc joins the balls, or that of s can't grow (Pohl, 1971). It looks at each arc at most
/// once.
///
/// Where they join, `label` has the levels, and the cursor of each router with a level is at its first
/// place. Where they don't, `ahead` begins with the routers that s reaches. `marks` has the labels of
/// the ball about t, and `behind` its routers: what the two hold afterwards means nothing. For a search
/// among few routers no list is written whole, but for the labels once in a million searches, so it costs
/// little in a large network.
pub fn search<L: Ledger>(
    graph: &Residual,
    s: u32,
    t: u32,
    threshold: u64,
    label: &mut Labels,
    marks: &mut Labels,
    cursor: &mut [u32],
    ahead: &mut [u32],
    behind: &mut [u32],
    steps: &mut Steps<L>,
) -> Found
    requires sound { IsSound graph.now }
    requires differ { s ≢ t }
    requires s { s < graph.now.net.routers }
    requires t { t < graph.now.net.routers }
    requires label { graph.now.net.routers ≤ length label.old }
    requires marks { graph.now.net.routers ≤ length marks.old }
    requires cursor { length cursor.old ≡ graph.now.net.routers }
    requires ahead { length ahead.old ≡ graph.now.net.routers }
    requires behind { length behind.old ≡ graph.now.net.routers }
    ensures found { IsFound graph.now threshold s t label.new cursor.new ahead.new result }
    ensures label { length label.new ≡ length label.old }
    ensures marks { length marks.new ≡ length marks.old }
    ensures steps { steps.new ≤ steps.old + arc_count graph.now.net }
{
    let mut near = begin(s, label, ahead);
    let mut far = begin(t, marks, behind);
    while near.front < near.known {
        let distance = near.radius + far.radius + 1;
        if grows_near(near, far) {
            let round = spread(graph, false, threshold, near, label, marks, ahead, steps);
            if round.joined {
                unlabel(label, &ahead[near.known..round.known]);
                number(label, marks, &behind[..far.known], distance + 2);
                begin_both(graph, cursor, &ahead[..near.known], &behind[..far.known]);
                return Found::Joined(distance);
            }
            near = near.grown(round.known);
        } else {
            let round = spread(graph, true, threshold, far, marks, label, behind, steps);
            if round.joined {
                number(label, marks, &behind[..far.known], distance + 2);
                begin_both(graph, cursor, &ahead[..near.known], &behind[..far.known]);
                return Found::Joined(distance);
            }
            far = far.grown(round.known);
        }
    }
    Found::Apart(near.known)
}
