//! The rungs of a ladder: jumps of 1, 2, 4 and so on steps up a tree.
ghost use Rattle.std.specs.Prelude.{◌≡◌, ℕ, ◌+◌, ◌^◌, ◌<◌, ◌≤◌, [], length, vec_capacity, IfOk};
ghost use Rattle.cut_model.specs.declared.network.TheConstants.{MOST_ROUTERS};
ghost use Rattle.tree_state.specs.Views.{HoldsCutTree};
ghost use Rattle.path_minimum.specs.Jumps.{jump_at, AreJumps, AreRungs, AreRungsOf};
ghost use Rattle.path_minimum.specs.Jumps.{IsJump, IsRungOf, IsWithin};

use crate::least_edge::{edge_above, lesser};
use cut_model::{NoMemory, Steps};
use std::alloc::Global;
use std::marker::Model;
use std::sync::ledger::Ledger;
use tree_state::Finished;

/// Where a number of steps up from a router lead, or the root where there are fewer, and the least edge
/// among them, by the router at its lower end.
#[derive(Clone, Copy)]
pub(crate) struct Jump {
    pub(crate) router: u32,
    pub(crate) child: u32,
}

/// A jump of one number of steps from each router. Contracts see a `RungView`.
#[derive(Drop)]
pub(crate) struct Rung {
    steps: u32,
    jumps: Vec<Jump>,
}

impl Model for Rung {
    ghost use Rattle.path_minimum.specs.Jumps.{RungView};

    ghost Value = { RungView };

    ghost view = { λ r. record { steps = r.steps; jumps = r.jumps.items } };
}

impl Rung {
    /// The rung of single steps.
    ///
    /// # Errors
    /// [`NoMemory`] where its jumps can't be had.
    fn single(alloc: Global, finished: &Finished) -> Result<Rung, NoMemory>
        ensures rung { IfOk result (λ rung. IsRungOf finished.now.tree rung) }
        ensures steps { IfOk result (λ rung. rung.steps ≡ 1) }
    {
        let routers = finished.net().routers();
        let mut jumps = Vec::with_capacity(alloc, routers as usize)?;
        for child in 0..routers {
            jumps.push_reserved(Jump {
                router: finished.up(child),
                child,
            });
        }
        Ok(Rung { steps: 1, jumps })
    }

    /// The rung of twice as many steps: from each router two jumps, one behind the other.
    ///
    /// # Errors
    /// [`NoMemory`] where its jumps can't be had.
    fn doubled(&self, alloc: Global, finished: &Finished) -> Result<Rung, NoMemory>
        requires tree { HoldsCutTree finished.now.tree }
        requires rung { IsRungOf finished.now.tree self.now }
        requires short { self.now.steps < MOST_ROUTERS }
        ensures rung { IfOk result (λ rung. IsRungOf finished.now.tree rung) }
        ensures steps { IfOk result (λ rung. rung.steps ≡ self.now.steps + self.now.steps) }
    {
        let mut jumps = Vec::with_capacity(alloc, self.jumps.len())?;
        push_doubled(finished, &self.jumps, &mut jumps);
        Ok(Rung {
            steps: self.steps + self.steps,
            jumps,
        })
    }

    /// How many steps its jumps have.
    #[inline]
    pub(crate) fn steps(&self) -> u32
        ensures { result ≡ self.now.steps }
    {
        self.steps
    }

    /// The jump from a router. The counter counts it.
    #[inline]
    pub(crate) fn look<L: Ledger>(&self, router: u32, steps: &mut Steps<L>) -> Jump
        requires { router < length self.now.jumps }
        ensures jump { result ≡ jump_at self.now.jumps router }
        ensures steps { steps.new ≡ steps.old + 1 }
    {
        steps.tick();
        self.jumps[router as usize]
    }
}

/// Two jumps of as many steps, one from where the other ends, as one: of their edges the lesser one. Where
/// the first ends at the root, the second has none.
fn joined(finished: &Finished, first: Jump, rest: Jump) -> Jump
    requires tree { HoldsCutTree finished.now.tree }
    requires first { first.child < finished.now.tree.net.routers }
    requires rest { rest.child < finished.now.tree.net.routers }
    ensures { (steps c : ℕ) → c < finished.now.tree.net.routers
        → IsJump finished.now.tree steps c first → IsJump finished.now.tree steps first.router rest
        → IsJump finished.now.tree (steps + steps) c result }
{
    if first.router == finished.root() {
        return first;
    }
    Jump {
        router: rest.router,
        child: lesser(
            edge_above(finished, first.child),
            edge_above(finished, rest.child),
        )
        .child,
    }
}

/// Adds from each router two of these jumps, one behind the other, as one.
fn push_doubled(finished: &Finished, jumps: &[Jump], doubled: &mut Vec<Jump>)
    requires tree { HoldsCutTree finished.now.tree }
    requires size { length jumps.now ≡ finished.now.tree.net.routers }
    requires within { (c : ℕ) → c < length jumps.now → IsWithin finished.now.tree (jump_at jumps.now c) }
    requires none { doubled.old.items ≡ [] }
    requires room { length jumps.now ≤ vec_capacity doubled.old }
    ensures { (steps : ℕ) → AreJumps finished.now.tree steps jumps.now
        → AreJumps finished.now.tree (steps + steps) doubled.new.items }
{
    for first in jumps {
        let rest = jumps[first.router as usize];
        doubled.push_reserved(joined(finished, *first, rest));
    }
}

/// The rung behind these: that of twice the steps of the last.
///
/// # Errors
/// [`NoMemory`] where its jumps can't be had.
fn next_rung(alloc: Global, finished: &Finished, rungs: &[Rung]) -> Result<Rung, NoMemory>
    requires tree { HoldsCutTree finished.now.tree }
    requires rungs { AreRungs finished.now.tree rungs.now }
    requires short { 2 ^ length rungs.now < finished.now.tree.net.routers }
    requires few { finished.now.tree.net.routers ≤ MOST_ROUTERS }
    ensures rung { IfOk result (λ rung. IsRungOf finished.now.tree rung) }
    ensures steps { IfOk result (λ rung. rung.steps ≡ 2 ^ length rungs.now) }
{
    match rungs.last() {
        None => Rung::single(alloc, finished),
        Some(rung) => rung.doubled(alloc, finished),
    }
}

/// The rungs of 1, 2, 4 and so on steps, so many that twice the steps of the last are as many as the routers.
///
/// # Errors
/// [`NoMemory`] where one of them can't be had.
pub(crate) fn make_rungs(alloc: Global, finished: &Finished) -> Result<Vec<Rung>, NoMemory>
    ensures { IfOk result (λ rungs. AreRungsOf finished.now.tree rungs.items) }
{
    let routers = finished.net().routers();
    let mut rungs = Vec::new(alloc);
    let mut reach = 1;
    while reach < routers {
        rungs.push(next_rung(alloc, finished, &rungs)?)?;
        reach += reach;
    }
    Ok(rungs)
}
