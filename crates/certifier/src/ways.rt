//! Ways up in a list that tells the router above each. A router is decided once it is known whether it is
//! below a child; inside are those of the decided routers that are.
ghost use Rattle.std.specs.Prelude.{◌≡◌, ◌<◌, ℕ, true, length, slice_index, slice_set, if◌then◌else◌};
ghost use Rattle.cut_model.specs.Cuts.{cut_value, set_of};
ghost use Rattle.cut_model.specs.Net.{IsInLimits};
ghost use Rattle.tree_state.specs.Shown.{ShowsSet};
ghost use Rattle.tree_state.specs.Tables.{below};
ghost use Rattle.certifier.specs.Ways.{AreMarks, AreRouters, AreDecidedFor, HangFrom, all_come_to as all_ways_come_to};

use cut_model::{Network, Side};
use cut_sides::value_of;

/// Whether the way up of a router comes to the root. It takes at most as many steps as there are routers.
fn comes_to(up: &[u32], root: u32, router: u32) -> bool
    requires routers { AreRouters up.now }
    requires router { router < length up.now }
    ensures { result ≡ below (length up.now) (slice_index up.now) root router }
{
    let mut above = router;
    for _ in 0..up.len() {
        if above == root {
            return true;
        }
        above = up[above as usize];
    }
    false
}

/// Whether the way up of each router comes to the root. The time is at most proportional to the square of
/// the number of routers.
pub(crate) fn all_come_to(up: &[u32], root: u32) -> bool
    requires { AreRouters up.now }
    ensures { result ≡ all_ways_come_to root up.now }
{
    for router in 0..up.len() as u32 {
        if !comes_to(up, root, router) {
            return false;
        }
    }
    true
}

/// Decides a router: it is inside from then on where it is below the child.
fn decide(decided: &mut Side, inside: &mut Side, router: u32, is_below: bool)
    requires decided { router < length decided.old }
    requires inside { router < length inside.old }
    ensures decided { decided.new ≡ slice_set decided.old router true }
    ensures inside { inside.new ≡ (if is_below then slice_set inside.old router true else inside.old) }
{
    decided.put(router);
    if is_below {
        inside.put(router);
    }
}

/// Whether a router is below the child: the first decided router on its way up tells.
fn is_below(up: &[u32], decided: &Side, inside: &Side, router: u32) -> bool
    requires marked { AreMarks up.now decided.now inside.now }
    requires router { router < length up.now }
    ensures { (c : ℕ) → AreDecidedFor up.now c decided.now inside.now
        → result ≡ below (length up.now) (slice_index up.now) c router }
{
    let mut above = router;
    while !decided.has(above) {
        above = up[above as usize];
    }
    inside.has(above)
}

/// Decides all routers alike from one up to the first that is decided.
fn decide_way(up: &[u32], decided: &mut Side, inside: &mut Side, router: u32, is_below: bool)
    requires marked { AreMarks up.now decided.old inside.old }
    requires router { router < length up.now }
    ensures marked { AreMarks up.now decided.new inside.new }
    ensures router { set_of decided.new router ≡ true }
    ensures kept { (r : ℕ) → set_of decided.old r ≡ true → set_of decided.new r ≡ true }
    ensures decided { (c : ℕ) → AreDecidedFor up.now c decided.old inside.old
        → is_below ≡ below (length up.now) (slice_index up.now) c router
        → AreDecidedFor up.now c decided.new inside.new }
{
    let mut above = router;
    while !decided.has(above) {
        decide(decided, inside, above, is_below);
        above = up[above as usize];
    }
}

/// Decides all routers. It walks twice up from each router to the first one that is decided, and then
/// all of that way is; so the time is proportional to the number of routers.
fn decide_all(up: &[u32], decided: &mut Side, inside: &mut Side)
    requires { AreMarks up.now decided.old inside.old }
    ensures marked { AreMarks up.now decided.new inside.new }
    ensures all { (r : ℕ) → r < length up.now → set_of decided.new r ≡ true }
    ensures decided { (c : ℕ) → AreDecidedFor up.now c decided.old inside.old
        → AreDecidedFor up.now c decided.new inside.new }
{
    for router in 0..decided.size() {
        let is_below = is_below(up, decided, inside, router);
        decide_way(up, decided, inside, router, is_below);
    }
}

/// The routers below one: those on whose way up it is, itself among them. Below the root are all. The
/// time is proportional to the number of routers, however deep the tree is. It takes no memory.
fn side_below(up: &[u32], root: u32, child: u32) -> Side
    requires hang { HangFrom root up.now }
    requires child { child < length up.now }
    ensures { ShowsSet (length up.now) (below (length up.now) (slice_index up.now) child) result }
{
    let routers = up.len() as u32;
    let mut decided = Side::empty(routers);
    let mut inside = Side::empty(routers);
    decide(&mut decided, &mut inside, child, true);
    decided.put(root);
    decide_all(up, &mut decided, &mut inside);
    inside
}

/// What the set of the routers below one costs. The time is proportional to the number of routers and links.
/// It takes no memory.
pub(crate) fn cost_below(net: &Network, up: &[u32], root: u32, child: u32) -> u64
    requires limits { IsInLimits net.now }
    requires size { length up.now ≡ net.now.routers }
    requires hang { HangFrom root up.now }
    requires child { child < length up.now }
    ensures { result ≡ cut_value net.now (below (length up.now) (slice_index up.now) child) }
{
    value_of(net, &side_below(up, root, child))
}
