//! What is made once for a tree, so that questions about it are answered in a few steps.
ghost use Rattle.std.specs.Prelude.{◌≡◌, ◌↔◌, ◌<◌, true, length, replicate, slice_index, IfOk, IfSome, IsNone};
ghost use Rattle.cut_model.specs.Terminals.{root_of, terminal_count};
ghost use Rattle.tree_state.specs.Views.{up_of, width_of};
ghost use Rattle.tree_state.specs.Paths.{IsWeakest, IsGlobalCut};
ghost use Rattle.tree_state.specs.Tables.{below};
ghost use Rattle.tree_state.specs.Shown.{ShowsSet};
ghost use Rattle.path_minimum.specs.Ladders.{IsLadderOf};
ghost use Rattle.path_minimum.specs.Jumps.{rung_at};
ghost use Rattle.path_minimum.specs.Stretches.{stretch_at};

use crate::depth::depths;
use crate::rungs::{Rung, make_rungs};
use crate::walk::{Stretch, Walk, make_walk};
use crate::weakest_edge::{WeakestCut, weakest_cut};
use cut_model::{MOST_ROUTERS, NoMemory, Side};
use std::alloc::Global;
use std::marker::Model;
use tree_state::Finished;

/// What is asked of a tree again and again, made once: how deep each router lies; for each power of two
/// below the number of routers a rung with the jumps of so many steps up (the jump pointers of Bender and
/// Farach-Colton, 2002, each with a least edge); a walk in which what is below a router is a stretch; and
/// the weakest edge with its side. With n routers and L levels that is about 16n + 8nL
/// bytes, some 100 KB for the largest network. Contracts see a `LadderView`.
#[derive(Drop)]
pub struct Ladder {
    depths: Vec<u32>,
    rungs: Vec<Rung>,
    walk: Walk,
    everyone: Side,
    weakest: Option<WeakestCut>,
}

impl Model for Ladder {
    ghost use Rattle.path_minimum.specs.Ladders.{LadderView};

    ghost Value = { LadderView };

    ghost view = { λ l. record {
      depths = l.depths.items;
      rungs = l.rungs.items;
      walk = l.walk;
      everyone = l.everyone;
      weakest = l.weakest;
    } };
}

impl Ladder {
    /// The ladder of a tree. It takes time at most proportional to the square of the number of routers: most
    /// of it goes into the walk of a tree that is one long way with its numbers running up it. The rest is
    /// proportional to the number of routers times the number of levels, of which ten are enough for the
    /// largest network.
    ///
    /// For the tree in which 1 hangs from 0 and 2 from 1, it notes the depths 0, 1 and 2 and rungs of one
    /// and of two steps.
    ///
    /// # Errors
    /// [`NoMemory`] where its memory can't be had: some 100 KB for the largest network, and 8 KB more while
    /// it is made.
    pub fn make(alloc: Global, finished: &Finished) -> Result<Ladder, NoMemory>
        ensures { IfOk result (λ ladder. IsLadderOf finished.now.tree ladder) }
    {
        prove!(finished.net().routers() <= MOST_ROUTERS);
        let depths = depths(alloc, finished)?;
        let walk = make_walk(alloc, finished, &depths)?;
        Ok(Ladder {
            rungs: make_rungs(alloc, finished)?,
            everyone: everyone(finished),
            weakest: weakest_cut(finished),
            depths,
            walk,
        })
    }

    /// The depth of a router: how many edges lie between it and the root.
    #[inline]
    pub(crate) fn depth(&self, router: u32) -> u32
        requires { router < length self.now.depths }
        ensures { result ≡ slice_index self.now.depths router }
    {
        self.depths[router as usize]
    }

    /// How many rungs there are: 2 to that power is no less than the number of routers.
    #[inline]
    pub(crate) fn levels(&self) -> usize
        ensures { result ≡ length self.now.rungs }
    {
        self.rungs.len()
    }

    /// The rung at a level: that of single steps at 0, and at each other one that of twice as many steps as
    /// the one before.
    #[inline]
    pub(crate) fn rung(&self, level: usize) -> &Rung
        requires { level < length self.now.rungs }
        ensures { result.now ≡ rung_at self.now.rungs level }
    {
        &self.rungs[level]
    }

    /// The routers in the order of the walk.
    #[inline]
    pub(crate) fn order(&self) -> &[u32]
        ensures { result.now ≡ self.now.walk.order }
    {
        &self.walk.order
    }

    /// Where the routers below one stand in the walk.
    #[inline]
    pub(crate) fn stretch(&self, router: u32) -> Stretch
        requires { router < length self.now.walk.stretches }
        ensures { result ≡ stretch_at self.now.walk.stretches router }
    {
        self.walk.stretches[router as usize]
    }

    /// The side of all routers.
    #[inline]
    pub(crate) fn everyone(&self) -> &Side
        ensures { result.now ≡ self.now.everyone }
    {
        &self.everyone
    }

    /// The weakest edge of the tree, with the routers below it, which are a least cut of the whole network
    /// (Gomory and Hu, 1961); none where there is one terminal alone. It was found when the ladder was made.
    ///
    /// Where 1 hangs from 0 by an edge of width 5 and 2 from 1 by one of 7, its edge is
    /// `PathLeast { child: 1, width: 5 }`, and its side has 1 and 2.
    pub fn weakest(&self, finished: &Finished) -> Option<WeakestCut>
        requires { IsLadderOf finished.now.tree self.now }
        ensures none { IsNone result ↔ (terminal_count finished.now.tree.net ≡ 1) }
        ensures edge { IfSome result (λ cut. IsWeakest finished.now.tree.net (root_of finished.now.tree.net)
            (width_of finished.now.tree) cut.edge.child) }
        ensures width { IfSome result (λ cut. cut.edge.width ≡ width_of finished.now.tree cut.edge.child) }
        ensures least { IfSome result (λ cut. IsGlobalCut finished.now.tree.net
            (below finished.now.tree.net.routers (up_of finished.now.tree) cut.edge.child) cut.edge.width) }
        ensures within { IfSome result (λ cut. cut.edge.child < finished.now.tree.net.routers) }
        ensures side { IfSome result (λ cut. ShowsSet finished.now.tree.net.routers
            (below finished.now.tree.net.routers (up_of finished.now.tree) cut.edge.child) cut.side) }
    {
        // (called for what it ensures: the tree is a cut tree)
        finished.net();
        self.weakest
    }
}

/// The side of all routers.
fn everyone(finished: &Finished) -> Side
    ensures { result ≡ replicate finished.now.tree.net.routers true }
{
    let mut side = Side::empty(finished.net().routers());
    for router in 0..side.size() {
        side.put(router);
    }
    side
}
