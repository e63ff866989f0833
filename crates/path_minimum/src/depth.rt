//! How deep each router lies.
ghost use Rattle.std.specs.Prelude.{◌≡◌, ℕ, ◌<◌, ◌≤◌, true, length, IfOk};
ghost use Rattle.cut_model.specs.Cuts.{set_of};
ghost use Rattle.cut_model.specs.declared.network.TheConstants.{MOST_ROUTERS};
ghost use Rattle.tree_state.specs.Views.{HoldsCutTree};
ghost use Rattle.path_minimum.specs.Depths.{depth_of, AreDepthsOf};
ghost use Rattle.path_minimum.specs.Walks.{AreKnown};

use cut_model::{NoMemory, Side};
use std::alloc::Global;
use tree_state::Finished;

/// The depth of each router. It takes time proportional to the number of routers: each way up is walked
/// as far as the first router whose depth is known.
///
/// # Errors
/// [`NoMemory`] where the list can't be had.
pub(crate) fn depths(alloc: Global, finished: &Finished) -> Result<Vec<u32>, NoMemory>
    ensures { IfOk result (λ depths. AreDepthsOf finished.now.tree depths.items) }
{
    let mut depths = vec![in alloc; 0; finished.net().routers() as usize]?;
    note_depths(finished, &mut depths);
    Ok(depths)
}

/// Notes the depth of each router.
fn note_depths(finished: &Finished, depths: &mut [u32])
    requires { length depths.old ≡ finished.now.tree.net.routers }
    ensures { AreDepthsOf finished.now.tree depths.new }
{
    let root = finished.root();
    let routers = finished.net().routers();
    let mut known = Side::empty(routers);
    known.put(root);
    depths[root as usize] = 0;
    for router in 0..routers {
        let depth = depth_by_known(finished, router, &known, depths);
        note_way(finished, router, depth, &mut known, depths);
    }
}

/// The depth of a router, by that of the first known router of its way up.
fn depth_by_known(finished: &Finished, router: u32, known: &Side, depths: &[u32]) -> u32
    requires tree { HoldsCutTree finished.now.tree }
    requires few { finished.now.tree.net.routers ≤ MOST_ROUTERS }
    requires router { router < finished.now.tree.net.routers }
    requires known { AreKnown finished.now.tree known.now depths.now }
    ensures { result ≡ depth_of finished.now.tree router }
{
    let mut at = router;
    let mut steps = 0;
    while !known.has(at) {
        at = finished.up(at);
        steps += 1;
    }
    steps + depths[at as usize]
}

/// Notes the depths of the routers of a way up as far as they weren't known.
fn note_way(finished: &Finished, router: u32, depth: u32, known: &mut Side, depths: &mut [u32])
    requires tree { HoldsCutTree finished.now.tree }
    requires router { router < finished.now.tree.net.routers }
    requires depth { depth ≡ depth_of finished.now.tree router }
    requires known { AreKnown finished.now.tree known.old depths.old }
    ensures known { AreKnown finished.now.tree known.new depths.new }
    ensures noted { set_of known.new router ≡ true }
    ensures kept { (c : ℕ) → set_of known.old c ≡ true → set_of known.new c ≡ true }
{
    let mut at = router;
    let mut left = depth;
    while !known.has(at) {
        known.put(at);
        depths[at as usize] = left;
        at = finished.up(at);
        left -= 1;
    }
}
