//! The side below a router of a finished tree, its child. A router is decided once it is known whether
//! it is below the child; inside are those of the decided routers that are.
ghost use Rattle.std.specs.Prelude.{◌≡◌, ◌<◌, ℕ, true, slice_set, length, if◌then◌else◌};
ghost use Rattle.cut_model.specs.Cuts.{set_of};
ghost use Rattle.tree_state.specs.Tables.{below};
ghost use Rattle.tree_state.specs.Shown.{ShowsSet};
ghost use Rattle.tree_state.specs.Views.{up_of, HoldsCutTree};
ghost use Rattle.tree_state.specs.Below.{IsMarked, IsDecidedFor};

use crate::finished::Finished;
use cut_model::Side;

/// Decides a router: it is inside from then on where it is below the child.
fn decide(decided: &mut Side, inside: &mut Side, router: u32, is_below: bool)
    requires decided { router < length decided.old }
    requires inside { router < length inside.old }
    ensures decided { decided.new ≡ slice_set decided.old router true }
    ensures inside { inside.new ≡ (if is_below then slice_set inside.old router true else inside.old) }
{
    decided.put(router);
    if is_below {
        inside.put(router);
    }
}

/// Whether a router is below the child: the first decided router on its way up tells.
fn is_below(finished: &Finished, decided: &Side, inside: &Side, router: u32) -> bool
    requires tree { HoldsCutTree finished.now.tree }
    requires marked { IsMarked finished.now.tree decided.now inside.now }
    requires router { router < finished.now.tree.net.routers }
    ensures { (c : ℕ) → IsDecidedFor finished.now.tree c decided.now inside.now
        → result ≡ below finished.now.tree.net.routers (up_of finished.now.tree) c router }
{
    let mut above = router;
    while !decided.has(above) {
        above = finished.up(above);
    }
    inside.has(above)
}

/// Decides all routers alike from one up to the first that is decided.
fn decide_way(
    finished: &Finished,
    decided: &mut Side,
    inside: &mut Side,
    router: u32,
    is_below: bool,
)
    requires tree { HoldsCutTree finished.now.tree }
    requires marked { IsMarked finished.now.tree decided.old inside.old }
    requires router { router < finished.now.tree.net.routers }
    ensures marked { IsMarked finished.now.tree decided.new inside.new }
    ensures router { set_of decided.new router ≡ true }
    ensures kept { (r : ℕ) → set_of decided.old r ≡ true → set_of decided.new r ≡ true }
    ensures decided { (c : ℕ) → IsDecidedFor finished.now.tree c decided.old inside.old
        → is_below ≡ below finished.now.tree.net.routers (up_of finished.now.tree) c router
        → IsDecidedFor finished.now.tree c decided.new inside.new }
{
    let mut above = router;
    while !decided.has(above) {
        decide(decided, inside, above, is_below);
        above = finished.up(above);
    }
}

/// Decides all routers. It walks twice up from each router to the first one that is decided, and then
/// all of that way is; so the time is proportional to the number of routers.
fn decide_all(finished: &Finished, decided: &mut Side, inside: &mut Side)
    requires tree { HoldsCutTree finished.now.tree }
    requires marked { IsMarked finished.now.tree decided.old inside.old }
    ensures marked { IsMarked finished.now.tree decided.new inside.new }
    ensures all { (r : ℕ) → r < finished.now.tree.net.routers → set_of decided.new r ≡ true }
    ensures decided { (c : ℕ) → IsDecidedFor finished.now.tree c decided.old inside.old
        → IsDecidedFor finished.now.tree c decided.new inside.new }
{
    for router in 0..decided.size() {
        let is_below = is_below(finished, decided, inside, router);
        decide_way(finished, decided, inside, router, is_below);
    }
}

/// The routers below one: those on whose way up it is, itself among them. Below the root are all. The
/// time is proportional to the number of routers, however deep the tree is. It takes no memory.
pub fn side_below(finished: &Finished, child: u32) -> Side
    requires { child < finished.now.tree.net.routers }
    ensures { ShowsSet finished.now.tree.net.routers
        (below finished.now.tree.net.routers (up_of finished.now.tree) child) result }
{
    let routers = finished.net().routers();
    let mut decided = Side::empty(routers);
    let mut inside = Side::empty(routers);
    decide(&mut decided, &mut inside, child, true);
    decided.put(finished.root());
    decide_all(finished, &mut decided, &mut inside);
    inside
}
