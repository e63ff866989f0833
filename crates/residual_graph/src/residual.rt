//! Residual graphs.
ghost use Rattle.std.specs.Prelude.{◌≡◌, ℕ, ◌+◌, ◌*◌, ◌<◌, ◌≤◌, ◌≤ℤ◌, ◌↔◌, All, IfOk, IsTrue};
ghost use Rattle.std.specs.Prelude.{[], drop, length, pos, replicate, slice_index_or, slice_index, sum_by, true};
ghost use Rattle.std.specs.List.Sorted.{IsStrictlyIncreasing};
ghost use Rattle.cut_model.specs.declared.network.TheConstants.{MOST_ROUTERS, MOST_LINKS};
ghost use Rattle.residual_graph.specs.Arcs.{arc_count, arcs_from, cap_of, head_of, tail_of, turned};
ghost use Rattle.residual_graph.specs.Places.{IsPlaceOf, begin_of, no_place, place_at, place_of, places_from};
ghost use Rattle.residual_graph.specs.View.{IsSound, left_on, pushed};

use crate::capacities::{flow_of, keep, move_amount, restore, set_left};
use crate::index::{group, index_arcs};
use crate::place::Place;
use crate::same::is_same;
use crate::touched::Touched;
use cut_model::{Link, Network, NoMemory, Steps};
use std::alloc::Global;
use std::marker::Model;
use std::sync::ledger::Ledger;

/// A network and a flow on it, by what is left on each arc, in room for a larger network. The arcs
/// that leave a router stand side by side. Contracts see a `ResidualView`.
///
/// The examples at its calls are of the network `net` of three routers and four links: two from router
/// 0 to router 1, of capacities 2 and 3, one of capacity 9 from router 1 to itself, and one of capacity
/// 4 from router 2 to router 1.
#[derive(Drop)]
pub struct Residual {
    room_routers: u32,
    room_links: u32,
    routers: u32,
    links: u32,
    /// The place of each router's first arc, and behind them the number of arcs.
    first: Vec<u32>,
    /// The arc at each place with its head, router by router, in ascending order at each.
    places: Vec<Place>,
    /// The links as they were loaded.
    kept: Vec<Link>,
    /// What is left on each arc.
    left: Vec<u64>,
    /// The links that carry flow are among these.
    touched: Touched,
}

impl Model for Residual {
    ghost use Rattle.residual_graph.specs.View.{ResidualView};

    ghost Value = { ResidualView };

    ghost use Rattle.residual_graph.specs.Storage.{view_of, IsStored};

    ghost view = { λ r. view_of (record {
      room_routers = r.room_routers;
      room_links = r.room_links;
      routers = r.routers;
      links = r.links;
      first = r.first.items;
      places = r.places.items;
      kept = r.kept.items;
      left = r.left.items;
      touched = r.touched;
    }) };

    ghost invariant = { λ r. IsStored (record {
      room_routers = r.room_routers;
      room_links = r.room_links;
      routers = r.routers;
      links = r.links;
      first = r.first.items;
      places = r.places.items;
      kept = r.kept.items;
      left = r.left.items;
      touched = r.touched;
    }) };
}

impl Residual {
    /// Room for networks of so many routers and links, at most [`MOST_ROUTERS`](cut_model::MOST_ROUTERS)
    /// and [`MOST_LINKS`](cut_model::MOST_LINKS). No later call fails for want of memory. It holds a
    /// network of one router and no link. `Residual::with_room(alloc, 3, 4)?` has room for `net`.
    ///
    /// # Errors
    /// [`NoMemory`], where there is too little memory for the room.
    pub fn with_room(alloc: Global, routers: u32, links: u32) -> Result<Residual, NoMemory>
        requires some { 0 < routers }
        requires routers { routers ≤ MOST_ROUTERS }
        requires links { links ≤ MOST_LINKS }
        ensures room_routers { IfOk result (λ r. r.room_routers ≡ routers) }
        ensures room_links { IfOk result (λ r. r.room_links ≡ links) }
        ensures net { IfOk result (λ r. r.net ≡ record { routers = 1; links = [] }) }
        ensures flow { IfOk result (λ r. r.flow ≡ []) }
        ensures sound { IfOk result IsSound }
    {
        let arcs = 2 * links as usize;
        Ok(Residual {
            room_routers: routers,
            room_links: links,
            routers: 1,
            links: 0,
            first: vec![in alloc; 0; routers as usize + 1]?,
            places: vec![in alloc; Place { head: 0, arc: 0 }; arcs]?,
            kept: vec![in alloc; Link { a: 0, b: 0, cap: 0 }; links as usize]?,
            left: vec![in alloc; 0; arcs]?,
            touched: Touched::with_room(alloc, links)?,
        })
    }

    /// Holds the network from now on, with no flow on any link. Where it is the network that is held
    /// already, each link is compared once, and the flow is undone. Else the arcs are sorted by their
    /// tails anew, in time in proportion to the numbers of routers and links. After
    /// `graph.load(&net)`, `graph.flow_on(1)` is 0.
    pub fn load(&mut self, net: &Network)
        requires routers { net.now.routers ≤ self.old.room_routers }
        requires links { length net.now.links ≤ self.old.room_links }
        ensures room_routers { self.new.room_routers ≡ self.old.room_routers }
        ensures room_links { self.new.room_links ≡ self.old.room_links }
        ensures net { self.new.net ≡ net.now }
        ensures flow { self.new.flow ≡ replicate (length net.now.links) (pos 0) }
        ensures sound { IsSound self.new }
    {
        if self.holds(net) {
            self.undo();
        } else {
            self.take_in(net);
        }
    }

    /// Whether the network is the one that is held.
    fn holds(&self, net: &Network) -> bool
        ensures { IsTrue result ↔ (self.now.net ≡ net.now) }
    {
        self.routers == net.routers() && is_same(&self.kept[..self.links as usize], net.links())
    }

    /// Holds another network, with no flow on any link.
    fn take_in(&mut self, net: &Network)
        requires routers { net.now.routers ≤ self.old.room_routers }
        requires links { length net.now.links ≤ self.old.room_links }
        ensures room_routers { self.new.room_routers ≡ self.old.room_routers }
        ensures room_links { self.new.room_links ≡ self.old.room_links }
        ensures net { self.new.net ≡ net.now }
        ensures flow { self.new.flow ≡ replicate (length net.now.links) (pos 0) }
        ensures sound { IsSound self.new }
    {
        let links = net.links();
        self.routers = net.routers();
        self.links = links.len() as u32;
        keep(links, &mut self.kept);
        index_arcs(self.routers, links, &mut self.first, &mut self.places);
        set_left(links, &mut self.left);
        self.touched.clear();
    }

    /// Takes all flow back: each link has none, as after `load`, and the network is the same. It looks
    /// at the links alone that got flow since the last `load` or `undo`, or at all links where links
    /// without flow got some more often than there is room for links. After a push of 2 along arc 2 and
    /// `graph.undo()`, `graph.flow_on(1)` is 0.
    pub fn undo(&mut self)
        ensures value { self.new
            ≡ record self.old { flow = replicate (length self.old.net.links) (pos 0) } }
        ensures sound { IsSound self.new }
    {
        let links = &self.kept[..self.links as usize];
        restore(&self.touched, links, &mut self.left);
        self.touched.clear();
    }

    /// What is left on an arc. One step. After `graph.load(&net)`, `graph.left(2, &mut steps)` is 3.
    #[inline]
    pub fn left<L: Ledger>(&self, arc: u32, steps: &mut Steps<L>) -> u64
        requires { arc < arc_count self.now.net }
        ensures value { pos result ≡ left_on self.now arc }
        ensures steps { steps.new ≡ steps.old + 1 }
    {
        steps.tick();
        self.left[arc as usize]
    }

    /// What is left on an arc, or on its twin, the arc of the same link the other way. One step. After a
    /// push of 2 along arc 2 of `net`, `graph.left_along(2, true, &mut steps)` is 5.
    #[inline]
    pub fn left_along<L: Ledger>(&self, arc: u32, back: bool, steps: &mut Steps<L>) -> u64
        requires { arc < arc_count self.now.net }
        ensures value { pos result ≡ left_on self.now (turned back arc) }
        ensures steps { steps.new ≡ steps.old + 1 }
    {
        steps.tick();
        self.left[(arc ^ u32::from(back)) as usize]
    }

    /// Sends an amount along an arc, at most what is left on it. One step. After `graph.load(&net)` and
    /// `graph.push(2, 2, &mut steps)`, `graph.left(2, &mut steps)` is 1.
    #[inline]
    pub fn push<L: Ledger>(&mut self, arc: u32, amount: u64, steps: &mut Steps<L>)
        requires arc { arc < arc_count self.old.net }
        requires amount { pos amount ≤ℤ left_on self.old arc }
        ensures value { self.new ≡ record self.old { flow = pushed self.old.flow arc amount } }
        ensures sound { IsSound self.new }
        ensures steps { steps.new ≡ steps.old + 1 }
    {
        steps.tick();
        let twin = arc ^ 1;
        let still = self.left[arc as usize] == self.left[twin as usize];
        self.touched.note_if(still, arc / 2);
        move_amount(&mut self.left, arc, twin, amount);
    }

    /// The number of arcs that leave a router. `arc` gives each of them at just one place below it. In
    /// `net`, `graph.arcs_of(1)` is 5.
    #[inline]
    pub fn arcs_of(&self, router: u32) -> u32
        requires { router < self.now.net.routers }
        ensures value { result ≡ length (arcs_from self.now.net router) }
        ensures ascending { IsStrictlyIncreasing (arcs_from self.now.net router) }
        ensures sound { IsSound self.now }
    {
        self.first[router as usize + 1] - self.first[router as usize]
    }

    /// The arc at a place among those that leave a router, in ascending order. In `net`,
    /// `graph.arc(1, 4)` is 7.
    #[inline]
    pub fn arc(&self, router: u32, place: u32) -> u32
        requires router { router < self.now.net.routers }
        requires place { place < length (arcs_from self.now.net router) }
        ensures { result ≡ slice_index (arcs_from self.now.net router) place }
    {
        self.places_of(router)[place as usize].arc
    }

    /// The router to which an arc goes. In `net`, `graph.head(7)` is 2.
    #[inline]
    pub fn head(&self, arc: u32) -> u32
        requires { arc < arc_count self.now.net }
        ensures value { result ≡ head_of self.now.net arc }
        ensures router { result < self.now.net.routers }
    {
        let link = self.kept[arc as usize / 2];
        if arc % 2 == 0 { link.b } else { link.a }
    }

    /// The flow on a link, positive from its end a to its end b. After a push of 2 along arc 2 of `net`,
    /// `graph.flow_on(1)` is 2; along arc 3 it would be -2.
    #[inline]
    pub fn flow_on(&self, link: u32) -> i64
        requires { link < length self.now.net.links }
        ensures { result ≡ slice_index_or self.now.flow link (pos 0) }
    {
        let link = link as usize;
        flow_of(self.kept[link].cap, self.left[2 * link])
    }

    /// The arcs that leave a router, in ascending order, each with its head. In `net`,
    /// `graph.places_of(1)` has five places, and the second is `Place { head: 0, arc: 3 }`.
    #[inline]
    pub fn places_of(&self, router: u32) -> &[Place]
        requires { router < self.now.net.routers }
        ensures value { result.now ≡ places_from self.now.net router }
        ensures each { All (IsPlaceOf self.now.net router) result.now }
        ensures every { (arc : ℕ) → arc < arc_count self.now.net → tail_of self.now.net arc ≡ router →
            (i : ℕ) × (i < length result.now) × (slice_index_or result.now i no_place ≡ place_of self.now.net arc) }
        ensures sound { IsSound self.now }
    {
        group(&self.first, &self.places, router)
    }

    /// The number of a router's first place among the places of all routers, one router's behind
    /// another's. For the number of routers it is the number of arcs. In `net`, `graph.begin(1)` is 2,
    /// and `graph.begin(3)` is 8.
    #[inline]
    pub fn begin(&self, router: u32) -> u32
        requires { router ≤ self.now.net.routers }
        ensures value { result ≡ begin_of self.now.net router }
        ensures most { result ≤ arc_count self.now.net }
        ensures end { begin_of self.now.net self.now.net.routers ≡ arc_count self.now.net }
    {
        self.first[router as usize]
    }

    /// The place of that number. Those of a router are numbered from its `begin` on, in the order of
    /// `places_of`. In `net`, `graph.place(6)` is `Place { head: 2, arc: 7 }`.
    #[inline]
    pub fn place(&self, at: u32) -> Place
        requires { at < arc_count self.now.net }
        ensures value { result ≡ place_at self.now.net at }
        ensures nth { (router i : ℕ) → router < self.now.net.routers → i < length (arcs_from self.now.net router) →
            at ≡ begin_of self.now.net router + i →
            result ≡ slice_index_or (places_from self.now.net router) i no_place }
        ensures arc { result.arc < arc_count self.now.net }
        ensures head { result.head < self.now.net.routers }
        ensures sound { IsSound self.now }
    {
        self.places[at as usize]
    }

    /// Writes each router's first place to the front of a list, and leaves the rest of it. In `net`, a
    /// list `[9, 9, 9, 9]` becomes `[0, 2, 7, 9]`.
    pub fn copy_begins(&self, cursor: &mut [u32])
        requires { self.now.net.routers ≤ length cursor.old }
        ensures begins { (router : ℕ) → router < self.now.net.routers →
            slice_index cursor.new router ≡ begin_of self.now.net router }
        ensures rest { drop self.now.net.routers cursor.new ≡ drop self.now.net.routers cursor.old }
    {
        let routers = self.routers as usize;
        cursor[..routers].copy_from_slice(&self.first[..routers]);
    }

    /// The capacities of the arcs that leave a router, together: a link from the router to itself
    /// counts twice. In `net`, `graph.around(1)` is 27.
    pub fn around(&self, router: u32) -> u64
        requires { router < self.now.net.routers }
        ensures { result ≡ sum_by (cap_of self.now.net) (arcs_from self.now.net router) }
    {
        let mut sum = 0u64;
        for place in self.places_of(router) {
            sum += self.kept[place.arc as usize / 2].cap;
        }
        sum
    }
}
