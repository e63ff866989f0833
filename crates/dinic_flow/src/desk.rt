//! Least cuts, in room that is taken once.
ghost use Rattle.std.specs.Prelude.{◌≡◌, ◌≢◌, ◌↔◌, ℕ, ◌+◌, ◌*◌, ◌<◌, ◌≤◌};
ghost use Rattle.std.specs.Prelude.{[], IfOk, IsTrue, length, pos, replicate, slice_index_or};
ghost use Rattle.cut_model.specs.declared.network.TheConstants.{MOST_ROUTERS, MOST_LINKS};
ghost use Rattle.cut_model.specs.Cuts.{IsLeastSide, set_of};
ghost use Rattle.cut_model.specs.Flow.{IsFlow};
ghost use Rattle.dinic_flow.specs.Room.{Fits};

use crate::cut::least_side;
use crate::labels::Labels;
use cut_model::{Network, NoMemory, Side, Steps};
use residual_graph::Residual;
use std::alloc::Global;
use std::marker::{Brand, Model};
use std::sync::ledger::{Blank, Ledger};

/// A cut of more phases than these is hard.
const HARD_PHASES: u32 = 16;

/// After a hard cut, so many begin with a coarse flow.
const COARSE_CUTS: u32 = 64;

/// Room for least cuts in networks up to a number of routers and of links, with the network that
/// was cut last and the flow that shows its cut to be least. Contracts see a `DeskView`.
///
/// The examples at its calls are of the network `net` of three routers with the links
/// `{ a: 0, b: 1, cap: 2 }` and `{ a: 1, b: 2, cap: 3 }`.
#[derive(Drop)]
pub struct FlowDesk {
    routers: u32,
    links: u32,
    graph: Residual,
    label: Labels,
    marks: Labels,
    cursor: Vec<u32>,
    ahead: Vec<u32>,
    behind: Vec<u32>,
    /// How many cuts from here on begin with a coarse flow. The value and the least side of a cut are
    /// the same with it and without it; the flow that the desk holds afterwards may be another.
    coarse_cuts: u32,
}

impl Model for FlowDesk {
    ghost use Rattle.dinic_flow.specs.Desk.{DeskView};

    ghost Value = { DeskView };

    ghost view = { λ d. record {
      room = record { routers = d.routers; links = d.links };
      net = d.graph.net;
      flow = d.graph.flow;
    } };

    ghost use Rattle.dinic_flow.specs.Desk.{IsEquipped};

    ghost invariant = { λ d. IsEquipped d.routers d.links d.graph
        d.label d.marks d.cursor.items d.ahead.items d.behind.items };
}

impl FlowDesk {
    /// Room for networks of so many routers and links, at most [`MOST_ROUTERS`](cut_model::MOST_ROUTERS)
    /// and [`MOST_LINKS`](cut_model::MOST_LINKS). No later call fails for want of memory. The desk
    /// holds a network of one router and no link. `FlowDesk::with_room(alloc, 3, 2)?` has room for `net`.
    ///
    /// # Errors
    /// [`NoMemory`], where there is too little memory for the room.
    pub fn with_room(alloc: Global, routers: u32, links: u32) -> Result<FlowDesk, NoMemory>
        requires some { 0 < routers }
        requires few_routers { routers ≤ MOST_ROUTERS }
        requires few_links { links ≤ MOST_LINKS }
        ensures room { IfOk result (λ d. d.room ≡ record { routers = routers; links = links }) }
        ensures net { IfOk result (λ d. d.net ≡ record { routers = 1; links = [] }) }
        ensures flow { IfOk result (λ d. d.flow ≡ []) }
    {
        let room = routers as usize;
        Ok(FlowDesk {
            routers,
            links,
            graph: Residual::with_room(alloc, routers, links)?,
            label: Labels::with_room(alloc, room)?,
            marks: Labels::with_room(alloc, room)?,
            cursor: vec![in alloc; 0; room]?,
            ahead: vec![in alloc; 0; room]?,
            behind: vec![in alloc; 0; room]?,
            coarse_cuts: 0,
        })
    }

    /// Whether the desk has room for a network. `net` fits a desk with room for three routers and two
    /// links, and none with room for less.
    pub fn fits(&self, net: &Network) -> bool
        ensures { IsTrue result ↔ Fits self.now.room net.now }
    {
        net.routers() <= self.routers && net.links().len() <= self.links as usize
    }

    /// Holds a network from now on, with no flow on any link, for cuts by `least_cut_of_held`. After
    /// `desk.load(&net)`, `desk.flow_on(0)` is 0.
    pub fn load(&mut self, net: &Network)
        requires fits { Fits self.old.room net.now }
        ensures room { self.new.room ≡ self.old.room }
        ensures net { self.new.net ≡ net.now }
        ensures flow { self.new.flow ≡ replicate (length net.now.links) (pos 0) }
    {
        self.graph.load(net);
    }

    /// Forgets that cuts were hard, so that the next one begins without a coarse flow: which flow the
    /// desk holds after it is then told by the network and the two routers alone, whatever was cut
    /// before. Its value and its least side are so anyway. After `desk.forget_hard_cuts()` the desk
    /// holds what it held.
    pub fn forget_hard_cuts(&mut self)
        ensures { self.new ≡ self.old }
    {
        self.coarse_cuts = 0;
    }

    /// How much is left at least on the arcs of the coarse flow with which a cut begins: about the
    /// share of an arc of `s` in what can leave `s` or reach `t`. 1 where there is to be no coarse flow.
    fn coarse_threshold(&self, s: u32, t: u32) -> u64
        requires s { s < self.now.net.routers }
        requires t { t < self.now.net.routers }
    {
        if self.coarse_cuts == 0 {
            return 1;
        }
        let most = self.graph.around(s).min(self.graph.around(t));
        most / (u64::from(self.graph.arcs_of(s)) + 1)
    }

    /// Notes how many phases a cut took.
    fn note_phases(&mut self, phases: u32)
        ensures { self.new ≡ self.old }
    {
        self.coarse_cuts = if phases > HARD_PHASES {
            COARSE_CUTS
        } else {
            self.coarse_cuts.saturating_sub(1)
        };
    }

    /// The value of a least cut of `s` from `t` in a network that is held without a flow.
    fn cut_still<L: Ledger>(&mut self, s: u32, t: u32, side: &mut Side, steps: &mut Steps<L>) -> u64
        requires still { self.old.flow ≡ replicate (length self.old.net.links) (pos 0) }
        requires differ { s ≢ t }
        requires s { s < self.old.net.routers }
        requires t { t < self.old.net.routers }
        requires size { length side.old ≡ self.old.net.routers }
        ensures least { IsLeastSide self.old.net s t (set_of side.new) result }
        ensures flow { IsFlow self.old.net s t self.new.flow result }
        ensures net { self.new.net ≡ self.old.net }
        ensures room { self.new.room ≡ self.old.room }
        ensures size { length side.new ≡ length side.old }
        ensures steps { steps.new ≤ steps.old
            + 6 * length self.old.net.links * self.old.net.routers * self.old.net.routers }
    {
        let threshold = self.coarse_threshold(s, t);
        let cut = least_side(
            &mut self.graph,
            s,
            t,
            threshold,
            &mut self.label,
            &mut self.marks,
            &mut self.cursor,
            &mut self.ahead,
            &mut self.behind,
            side,
            steps,
        );
        self.note_phases(cut.phases);
        cut.value
    }

    /// The value of a least cut of `s` from `t`. Afterwards `side` holds the least side of `s`,
    /// which is a part of every other side of such a cut, whatever it held before, and the desk
    /// holds a greatest flow from `s` to `t` (Dinic, 1970). It never fails for want of memory.
    ///
    /// `steps` counts each look at what is left on an arc, and each push: at most 6mn² of them with n
    /// routers and m links. What else is done, as to load the network and to set cursors, isn't counted.
    ///
    /// `desk.least_cut(&net, 0, 2, &mut side, &mut steps)` is 2, `side` then holds router 0 alone, and
    /// the flow on each of the two links is 2.
    pub fn least_cut<L: Ledger>(
        &mut self,
        net: &Network,
        s: u32,
        t: u32,
        side: &mut Side,
        steps: &mut Steps<L>,
    ) -> u64
        requires fits { Fits self.old.room net.now }
        requires differ { s ≢ t }
        requires s { s < net.now.routers }
        requires t { t < net.now.routers }
        requires size { length side.old ≡ net.now.routers }
        ensures least { IsLeastSide net.now s t (set_of side.new) result }
        ensures flow { IsFlow net.now s t self.new.flow result }
        ensures net { self.new.net ≡ net.now }
        ensures room { self.new.room ≡ self.old.room }
        ensures size { length side.new ≡ length side.old }
        ensures steps { steps.new
            ≤ steps.old + 6 * length net.now.links * net.now.routers * net.now.routers }
    {
        self.graph.load(net);
        self.cut_still(s, t, side, steps)
    }

    /// As `least_cut`, in the network that the desk holds from `load` or from the cut before. That
    /// network isn't compared with another. After `desk.load(&net)`,
    /// `desk.least_cut_of_held(1, 2, &mut side, &mut steps)` is 3, and `side` then holds routers 0 and 1.
    pub fn least_cut_of_held<L: Ledger>(
        &mut self,
        s: u32,
        t: u32,
        side: &mut Side,
        steps: &mut Steps<L>,
    ) -> u64
        requires differ { s ≢ t }
        requires s { s < self.old.net.routers }
        requires t { t < self.old.net.routers }
        requires size { length side.old ≡ self.old.net.routers }
        ensures least { IsLeastSide self.old.net s t (set_of side.new) result }
        ensures flow { IsFlow self.old.net s t self.new.flow result }
        ensures net { self.new.net ≡ self.old.net }
        ensures room { self.new.room ≡ self.old.room }
        ensures size { length side.new ≡ length side.old }
        ensures steps { steps.new ≤ steps.old
            + 6 * length self.old.net.links * self.old.net.routers * self.old.net.routers }
    {
        self.graph.undo();
        self.cut_still(s, t, side, steps)
    }

    /// As `least_cut`, with a counter of its own from a blank.
    fn least_cut_from<L: Ledger>(
        &mut self,
        net: &Network,
        s: u32,
        t: u32,
        side: &mut Side,
        blank: Blank,
    ) -> u64
        requires name { blank.name ≡ L.name }
        requires parts { blank.parts ≡ L.parts }
        requires some { 0 < L.parts }
        requires fits { Fits self.old.room net.now }
        requires differ { s ≢ t }
        requires s { s < net.now.routers }
        requires t { t < net.now.routers }
        requires size { length side.old ≡ net.now.routers }
        ensures least { IsLeastSide net.now s t (set_of side.new) result }
        ensures flow { IsFlow net.now s t self.new.flow result }
        ensures net { self.new.net ≡ net.now }
        ensures room { self.new.room ≡ self.old.room }
        ensures size { length side.new ≡ length side.old }
    {
        let mut steps = Steps::<L>::zero(blank);
        self.least_cut(net, s, t, side, &mut steps)
    }

    /// As `least_cut`, for a caller that counts no steps.
    pub fn least_cut_uncounted(&mut self, net: &Network, s: u32, t: u32, side: &mut Side) -> u64
        requires fits { Fits self.old.room net.now }
        requires differ { s ≢ t }
        requires s { s < net.now.routers }
        requires t { t < net.now.routers }
        requires size { length side.old ≡ net.now.routers }
        ensures least { IsLeastSide net.now s t (set_of side.new) result }
        ensures flow { IsFlow net.now s t self.new.flow result }
        ensures net { self.new.net ≡ net.now }
        ensures room { self.new.room ≡ self.old.room }
        ensures size { length side.new ≡ length side.old }
    {
        self.least_cut_from::<Brand>(net, s, t, side, Blank::new(1))
    }

    /// As `least_cut_of_held`, with a counter of its own from a blank.
    fn least_cut_of_held_from<L: Ledger>(
        &mut self,
        s: u32,
        t: u32,
        side: &mut Side,
        blank: Blank,
    ) -> u64
        requires name { blank.name ≡ L.name }
        requires parts { blank.parts ≡ L.parts }
        requires some { 0 < L.parts }
        requires differ { s ≢ t }
        requires s { s < self.old.net.routers }
        requires t { t < self.old.net.routers }
        requires size { length side.old ≡ self.old.net.routers }
        ensures least { IsLeastSide self.old.net s t (set_of side.new) result }
        ensures flow { IsFlow self.old.net s t self.new.flow result }
        ensures net { self.new.net ≡ self.old.net }
        ensures room { self.new.room ≡ self.old.room }
        ensures size { length side.new ≡ length side.old }
    {
        let mut steps = Steps::<L>::zero(blank);
        self.least_cut_of_held(s, t, side, &mut steps)
    }

    /// As `least_cut_of_held`, for a caller that counts no steps.
    pub fn least_cut_of_held_uncounted(&mut self, s: u32, t: u32, side: &mut Side) -> u64
        requires differ { s ≢ t }
        requires s { s < self.old.net.routers }
        requires t { t < self.old.net.routers }
        requires size { length side.old ≡ self.old.net.routers }
        ensures least { IsLeastSide self.old.net s t (set_of side.new) result }
        ensures flow { IsFlow self.old.net s t self.new.flow result }
        ensures net { self.new.net ≡ self.old.net }
        ensures room { self.new.room ≡ self.old.room }
        ensures size { length side.new ≡ length side.old }
    {
        self.least_cut_of_held_from::<Brand>(s, t, side, Blank::new(1))
    }

    /// The flow of the last cut on a link, positive from its end a to its end b. Where the network
    /// was loaded and not cut yet, it is 0. After the least cut of router 2 from router 0 in `net`,
    /// `desk.flow_on(0)` is -2.
    pub fn flow_on(&self, link: u32) -> i64
        requires { link < length self.now.net.links }
        ensures { result ≡ slice_index_or self.now.flow link (pos 0) }
    {
        self.graph.flow_on(link)
    }
}
