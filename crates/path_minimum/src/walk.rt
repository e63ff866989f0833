//! The routers of a tree in the order of a walk: each stands behind the one above it, and what is below a
//! router is a stretch of the walk that begins with it.
ghost use Rattle.std.specs.Prelude.{◌≡◌, ℕ, ◌+◌, ◌<◌, ◌≤◌, true, false, length, slice_index, slice_set, IfOk, OnOk};
ghost use Rattle.cut_model.specs.Cuts.{set_of};
ghost use Rattle.cut_model.specs.declared.network.TheConstants.{MOST_ROUTERS};
ghost use Rattle.tree_state.specs.Views.{up_of, HoldsCutTree};
ghost use Rattle.path_minimum.specs.Depths.{AreDepthsOf};
ghost use Rattle.path_minimum.specs.Stretches.{AreApartIn, AreRunsFrom, AreWithin, HasPlace, IsDraftOf};
ghost use Rattle.path_minimum.specs.Stretches.{IsPreorder, IsRun, IsWalkOf};

use cut_model::{NoMemory, Side};
use std::alloc::Global;
use std::marker::Model;
use tree_state::Finished;

/// Where the routers below one stand in the walk: from one place up to, but without, another.
#[derive(Clone, Copy)]
pub(crate) struct Stretch {
    pub(crate) from: u32,
    pub(crate) end: u32,
}

/// The routers in the order of the walk, and the stretch of each. Contracts see a `WalkView`.
#[derive(Drop)]
pub(crate) struct Walk {
    pub(crate) order: Vec<u32>,
    pub(crate) stretches: Vec<Stretch>,
}

impl Model for Walk {
    ghost use Rattle.path_minimum.specs.Stretches.{WalkView};

    ghost Value = { WalkView };

    ghost view = { λ w. record { order = w.order.items; stretches = w.stretches.items } };
}

/// A walk that isn't whole yet.
#[derive(Drop)]
struct Draft {
    /// The routers so far.
    order: Vec<u32>,
    /// Those that have a place.
    placed: Side,
    /// For each router that has a place one no later than its own: others may have come in before it.
    hints: Vec<usize>,
}

impl Draft {
    /// The root alone.
    ///
    /// # Errors
    /// [`NoMemory`] where the lists can't be had.
    fn begin(alloc: Global, finished: &Finished) -> Result<Draft, NoMemory>
        ensures { IfOk result (λ draft. IsDraftOf finished.now.tree draft) }
    {
        let routers = finished.net().routers();
        let root = finished.root();
        let mut order = Vec::with_capacity(alloc, routers as usize)?;
        let mut placed = Side::empty(routers);
        order.push_reserved(root);
        placed.put(root);
        Ok(Draft {
            order,
            placed,
            hints: vec![in alloc; 0; routers as usize]?,
        })
    }

    /// The highest router without a place on the way up of one without a place.
    fn highest_unplaced(&self, finished: &Finished, router: u32) -> u32
        requires tree { HoldsCutTree finished.now.tree }
        requires draft { IsDraftOf finished.now.tree self.now }
        requires router { router < finished.now.tree.net.routers }
        requires unplaced { set_of self.now.placed router ≡ false }
        ensures within { result < finished.now.tree.net.routers }
        ensures unplaced { set_of self.now.placed result ≡ false }
        ensures above { set_of self.now.placed (up_of finished.now.tree result) ≡ true }
    {
        let mut at = router;
        while !self.placed.has(finished.up(at)) {
            at = finished.up(at);
        }
        at
    }

    /// Where a router stands that has a place.
    fn place_of(&self, router: u32) -> usize
        requires hints { router < length self.now.hints.items }
        requires place { HasPlace self.now.order.items (slice_index self.now.hints.items router) router }
        ensures inside { result < length self.now.order.items }
        ensures router { slice_index self.now.order.items result ≡ router }
    {
        let mut place = self.hints[router as usize];
        while self.order[place] != router {
            place += 1;
        }
        place
    }

    /// Gives a router the place right behind the one above it.
    ///
    /// # Errors
    /// [`NoMemory`] where the place can't be had; the draft is of no use then.
    fn put(&mut self, finished: &Finished, router: u32) -> Result<(), NoMemory>
        requires tree { HoldsCutTree finished.now.tree }
        requires draft { IsDraftOf finished.now.tree self.old }
        requires router { router < finished.now.tree.net.routers }
        requires unplaced { set_of self.old.placed router ≡ false }
        requires above { set_of self.old.placed (up_of finished.now.tree router) ≡ true }
        ensures draft { OnOk result (IsDraftOf finished.now.tree self.new) }
        ensures placed { OnOk result (self.new.placed ≡ slice_set self.old.placed router true) }
        ensures count { OnOk result (length self.new.order.items ≡ length self.old.order.items + 1) }
    {
        let place = self.place_of(finished.up(router)) + 1;
        self.order.insert(place, router)?;
        self.hints[router as usize] = place;
        self.placed.put(router);
        Ok(())
    }

    /// Gives a router a place, after those on its way up that have none.
    ///
    /// # Errors
    /// [`NoMemory`] where one of the places can't be had; the draft is of no use then.
    fn place(&mut self, finished: &Finished, router: u32) -> Result<(), NoMemory>
        requires tree { HoldsCutTree finished.now.tree }
        requires draft { IsDraftOf finished.now.tree self.old }
        requires router { router < finished.now.tree.net.routers }
        ensures draft { OnOk result (IsDraftOf finished.now.tree self.new) }
        ensures placed { OnOk result (set_of self.new.placed router ≡ true) }
        ensures kept { OnOk result ((c : ℕ) → set_of self.old.placed c ≡ true → set_of self.new.placed c ≡ true) }
    {
        while !self.placed.has(router) {
            let next = self.highest_unplaced(finished, router);
            self.put(finished, next)?;
        }
        Ok(())
    }
}

/// The routers in the order of a walk. For a router that comes in, those behind its place move on, and the one
/// above it is looked for from where it stood last. That takes time at most proportional to the square of
/// the number of routers.
///
/// # Errors
/// [`NoMemory`] where the lists can't be had.
fn walk_order(alloc: Global, finished: &Finished) -> Result<Vec<u32>, NoMemory>
    ensures { IfOk result (λ order. IsPreorder finished.now.tree order.items) }
{
    let mut draft = Draft::begin(alloc, finished)?;
    for router in 0..finished.net().routers() {
        draft.place(finished, router)?;
    }
    let Draft { order, .. } = draft;
    Ok(order)
}

/// The stretch of the router at a place, by the stretches of those behind it: it goes on as long as these
/// lie deeper.
fn stretch_from(depths: &[u32], order: &[u32], stretches: &[Stretch], place: u32) -> Stretch
    requires few { length order.now ≤ MOST_ROUTERS }
    requires place { place < length order.now }
    requires depths { AreWithin (length depths.now) order.now }
    requires stretches { AreWithin (length stretches.now) order.now }
    requires runs { AreRunsFrom depths.now order.now stretches.now (place + 1) }
    ensures { IsRun depths.now order.now place result }
{
    let depth = depths[order[place as usize] as usize];
    let mut end = place + 1;
    while (end as usize) < order.len() && depth < depths[order[end as usize] as usize] {
        end = stretches[order[end as usize] as usize].end;
    }
    Stretch { from: place, end }
}

/// Finds the stretches of the routers of a walk, the last one's first.
fn find_stretches(depths: &[u32], order: &[u32], stretches: &mut [Stretch])
    requires few { length order.now ≤ MOST_ROUTERS }
    requires depths { AreWithin (length depths.now) order.now }
    requires stretches { AreWithin (length stretches.old) order.now }
    requires apart { AreApartIn order.now }
    ensures runs { AreRunsFrom depths.now order.now stretches.new 0 }
    ensures size { length stretches.new ≡ length stretches.old }
{
    let mut place = order.len() as u32;
    while place > 0 {
        place -= 1;
        let stretch = stretch_from(depths, order, stretches, place);
        stretches[order[place as usize] as usize] = stretch;
    }
}

/// The stretches of the routers of a walk.
///
/// # Errors
/// [`NoMemory`] where the list can't be had.
fn stretches(alloc: Global, depths: &[u32], order: &[u32]) -> Result<Vec<Stretch>, NoMemory>
    requires few { length order.now ≤ MOST_ROUTERS }
    requires depths { AreWithin (length depths.now) order.now }
    requires within { AreWithin (length order.now) order.now }
    requires apart { AreApartIn order.now }
    ensures runs { IfOk result (λ stretches. AreRunsFrom depths.now order.now stretches.items 0) }
    ensures size { IfOk result (λ stretches. length stretches.items ≡ length order.now) }
{
    let mut stretches = vec![in alloc; Stretch { from: 0, end: 0 }; order.len()]?;
    find_stretches(depths, order, &mut stretches);
    Ok(stretches)
}

/// The walk through a tree, with the stretches of its routers.
///
/// # Errors
/// [`NoMemory`] where its lists can't be had.
pub(crate) fn make_walk(
    alloc: Global,
    finished: &Finished,
    depths: &[u32],
) -> Result<Walk, NoMemory>
    requires depths { AreDepthsOf finished.now.tree depths.now }
    requires few { finished.now.tree.net.routers ≤ MOST_ROUTERS }
    ensures { IfOk result (λ walk. IsWalkOf finished.now.tree walk) }
{
    finished.net();
    let order = walk_order(alloc, finished)?;
    let stretches = stretches(alloc, depths, &order)?;
    Ok(Walk { order, stretches })
}
