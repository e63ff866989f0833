//! Labels that are all taken away at once.
ghost use Rattle.std.specs.Prelude.{◌≡◌, ◌↔◌, ◌<◌, ◌≤◌, IfOk, IsTrue, length, replicate};
ghost use Rattle.std.specs.Prelude.{slice_index, slice_set};
ghost use Rattle.dinic_flow.specs.declared.labels.TheConstants.{MOST_LABEL};

use cut_model::NoMemory;
use std::alloc::Global;
use std::marker::Model;

/// The greatest label that a router may have: more than a search among
/// [`MOST_ROUTERS`](cut_model::MOST_ROUTERS) routers gives.
pub const MOST_LABEL: u32 = 4_096;

/// The greatest base above which there is room for a label.
const MOST_BASE: u32 = u32::MAX - MOST_LABEL;

/// A label for each of some routers, from 1 to [`MOST_LABEL`], or 0 where a router has none.
///
/// A router's number is its label on top of a base that all share. A clearing raises the base by the
/// greatest label, so that no number is above it any more, and none of the routers has a label. Only
/// once in a million clearings, where the base can't rise, are all numbers written. Contracts see the
/// list of the labels.
#[derive(Drop)]
pub struct Labels {
    numbers: Vec<u32>,
    base: u32,
}

impl Model for Labels {
    ghost use Rattle.std.specs.Prelude.{List, ℕ};

    ghost Value = { List ℕ };

    ghost use Rattle.dinic_flow.specs.Labels.{labels_above, HasRoom};

    ghost view = { λ l. labels_above l.base l.numbers.items };

    ghost invariant = { λ l. HasRoom l.base l.numbers.items };
}

impl Labels {
    /// Room for the labels of so many routers, none of which has one.
    ///
    /// # Errors
    /// [`NoMemory`], where there is too little memory for the room: four bytes a router.
    pub fn with_room(alloc: Global, routers: usize) -> Result<Labels, NoMemory>
        ensures { IfOk result (λ labels. labels ≡ replicate routers 0) }
    {
        Ok(Labels {
            numbers: vec![in alloc; 0; routers]?,
            base: 0,
        })
    }

    /// The label of a router, 0 where it has none.
    #[inline(always)]
    pub fn get(&self, router: u32) -> u32
        requires { router < length self.now }
        ensures { result ≡ slice_index self.now router }
    {
        self.numbers[router as usize].saturating_sub(self.base)
    }

    /// Whether a router has a label.
    #[inline(always)]
    pub fn has(&self, router: u32) -> bool
        requires { router < length self.now }
        ensures { IsTrue result ↔ (0 < slice_index self.now router) }
    {
        self.numbers[router as usize] > self.base
    }

    /// Whether a router has just this label.
    #[inline(always)]
    pub fn is(&self, router: u32, label: u32) -> bool
        requires router { router < length self.now }
        requires some { 0 < label }
        requires low { label ≤ MOST_LABEL }
        ensures { IsTrue result ↔ (slice_index self.now router ≡ label) }
    {
        self.numbers[router as usize] == self.base + label
    }

    /// No label is above [`MOST_LABEL`]. A law: a call does nothing.
    #[inline(always)]
    pub fn keeps_low(&self, router: u32)
        requires { router < length self.now }
        ensures { slice_index self.now router ≤ MOST_LABEL }
    {
        let _ = &self.numbers;
    }

    /// Gives a router a label, or takes its label away where that is 0.
    #[inline(always)]
    pub fn set(&mut self, router: u32, label: u32)
        requires router { router < length self.old }
        requires label { label ≤ MOST_LABEL }
        ensures { self.new ≡ slice_set self.old router label }
    {
        self.numbers[router as usize] = self.base + label;
    }

    /// Takes all labels away, by one sum but for once in a million times.
    pub fn clear(&mut self)
        ensures { self.new ≡ replicate (length self.old) 0 }
    {
        if self.base > MOST_BASE - MOST_LABEL {
            self.numbers.fill(0);
            self.base = 0;
        } else {
            self.base += MOST_LABEL;
        }
    }
}
