//! The weakest edge of a tree.
ghost use Rattle.std.specs.Prelude.{◌≡◌, ◌↔◌, ◌+◌, ◌<◌, IsNone, IfSome};
ghost use Rattle.path_minimum.specs.Ladders.{IsWeakestCutOf};
ghost use Rattle.cut_model.specs.Terminals.{terminal_count, root_of};
ghost use Rattle.tree_state.specs.Views.{up_of, width_of};
ghost use Rattle.tree_state.specs.Paths.{IsWeakest, IsGlobalCut};
ghost use Rattle.tree_state.specs.Tables.{below};
ghost use Rattle.path_minimum.specs.Walks.{IsWeakestBelow};

use crate::least_edge::{PathLeast, edge_above, lesser};
use cut_model::Side;
use tree_state::{Finished, side_below};

/// The weakest edge of a tree, and the routers below it: a least cut of the whole network (Gomory and Hu,
/// 1961).
#[derive(Clone, Copy)]
pub struct WeakestCut {
    /// The edge of the smallest width, and of these that whose lower end has the smallest number.
    pub edge: PathLeast,
    /// The routers below the edge.
    pub side: Side,
}

/// The weakest of the edges above the routers up to this one, by the weakest of those before it.
fn weaker(finished: &Finished, child: u32, before: Option<PathLeast>) -> Option<PathLeast>
    requires child { child < finished.now.tree.net.routers }
    requires before { IsWeakestBelow finished.now.tree child before }
    ensures { IsWeakestBelow finished.now.tree (child + 1) result }
{
    if !finished.net().is_terminal(child) {
        return before;
    }
    if child == finished.root() {
        return before;
    }
    let edge = edge_above(finished, child);
    match before {
        None => Some(edge),
        Some(least) => Some(lesser(least, edge)),
    }
}

/// The weakest edge of the tree; none where there is one terminal alone. It looks at each router once.
fn weakest(finished: &Finished) -> Option<PathLeast>
    ensures none { IsNone result ↔ (terminal_count finished.now.tree.net ≡ 1) }
    ensures edge { IfSome result (λ edge.
        IsWeakest finished.now.tree.net (root_of finished.now.tree.net) (width_of finished.now.tree) edge.child) }
    ensures width { IfSome result (λ edge. edge.width ≡ width_of finished.now.tree edge.child) }
    ensures least { IfSome result (λ edge. IsGlobalCut finished.now.tree.net
        (below finished.now.tree.net.routers (up_of finished.now.tree) edge.child) edge.width) }
    ensures within { IfSome result (λ edge. edge.child < finished.now.tree.net.routers) }
{
    let mut least = None;
    for child in 0..finished.net().routers() {
        least = weaker(finished, child, least);
    }
    least
}

/// The weakest edge of the tree with its side; none where there is one terminal alone.
pub(crate) fn weakest_cut(finished: &Finished) -> Option<WeakestCut>
    ensures { IsWeakestCutOf finished.now.tree result }
{
    let edge = weakest(finished)?;
    let side = side_below(finished, edge.child);
    Some(WeakestCut { edge, side })
}
