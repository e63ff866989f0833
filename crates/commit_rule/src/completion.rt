//! When a tree is complete.
ghost use Rattle.std.specs.Prelude.{◌≡◌, ◌<◌, ◌&&◌, ◌==◌, not, IfErr, IfOk, IsFalse, IsTrue, OnErr, OnOk};
ghost use Rattle.cut_model.specs.Terminals.{is_terminal, root_of};
ghost use Rattle.tree_state.specs.Views.{tree_in, HoldsCutTree};
ghost use Rattle.tree_state.specs.History.{entered, IsComplete, SomeOpen};

use tree_state::{Finished, Growing};

/// Whether a router is a terminal but the root, and wasn't committed.
fn is_open(grow: &Growing, router: u32) -> bool
    requires { router < grow.now.net.routers }
    ensures { result ≡ (is_terminal grow.now.net router
        && (not (router == root_of grow.now.net) && not (entered grow.now.history router))) }
{
    let net = grow.net();
    net.is_terminal(router) && router != net.root() && !grow.is_done(router)
}

/// Whether each terminal but the root was committed.
fn all_done(grow: &Growing) -> bool
    ensures done { IsTrue result → IsComplete grow.now.net grow.now.history }
    ensures tree { IsTrue result → HoldsCutTree (tree_in grow.now) }
    ensures open { IsFalse result → SomeOpen grow.now.net grow.now.history }
{
    for router in 0..grow.net().routers() {
        if is_open(grow, router) {
            return false;
        }
    }
    true
}

/// The finished tree of a growing one whose history is complete: a cut tree, in whatever order the
/// routers were committed (Gusfield, 1990), with the same retakes. Where some terminal but the root
/// wasn't committed, the growing tree is handed back. It looks at each router once, and takes no memory.
pub fn complete(grow: Growing) -> Result<Finished, Growing>
    ensures complete { OnOk result (IsComplete grow.net grow.history) }
    ensures tree { OnOk result (HoldsCutTree (tree_in grow)) }
    ensures finished { IfOk result (λ f. f.tree ≡ tree_in grow) }
    ensures retakes { IfOk result (λ f. f.retakes ≡ grow.retakes) }
    ensures open { OnErr result (SomeOpen grow.net grow.history) }
    ensures back { IfErr result (λ g. g ≡ grow) }
{
    if all_done(&grow) {
        Ok(Finished::hold(grow))
    } else {
        Err(grow)
    }
}
