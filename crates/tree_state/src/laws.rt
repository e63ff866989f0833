//! Laws of histories and of cut trees: each function's contract is one, and its body is empty.
ghost use Rattle.tree_state.specs.Laws.{LegalHistoryBuildsHalf, CompleteHistoryIsCutTree};
ghost use Rattle.tree_state.specs.Laws.{LegalHistoryMakesFewMoves};
ghost use Rattle.tree_state.specs.Laws.{PathHasLeastEdge, LeastEdgeIsLeastCut};
ghost use Rattle.tree_state.specs.Laws.{TreeHasWeakestEdge, WeakestEdgeIsGlobalCut};

/// The tables of a legal history are a half-built tree: what is below each entered router is a least
/// cut of it from the router above it and costs its width, every way up ends at the root, and every
/// router hangs from the root or from an entered router. The sides may be any least cuts, and may
/// cross. (Gomory and Hu, 1961; Gusfield, 1990.)
pub fn legal_history_builds_half_a_tree()
    ensures { LegalHistoryBuildsHalf }
{}

/// The tables of a complete history are a cut tree, in whatever order the routers were entered.
/// (Gusfield, 1990.)
pub fn complete_history_is_a_cut_tree()
    ensures { CompleteHistoryIsCutTree }
{}

/// In a legal history of T terminals, T at least 2, what is above a terminal changes at most
/// (T - 1)(T - 2) / 2 times in all before the terminal is entered: each entry moves at most those that
/// aren't entered by then.
pub fn legal_history_makes_few_moves()
    ensures { LegalHistoryMakesFewMoves }
{}

/// In a cut tree, two terminals that differ have a least edge on their path, and its side that holds
/// the first of them is a least cut of the first from the second. (Gomory and Hu, 1961.)
pub fn least_edge_of_a_path_is_a_least_cut()
    ensures some { PathHasLeastEdge }
    ensures least { LeastEdgeIsLeastCut }
{}

/// A cut tree with at least two terminals has a weakest edge, and what is below it is a cut that no
/// set undercuts which holds one terminal and lacks another. (Gomory and Hu, 1961.)
pub fn weakest_edge_is_a_global_cut()
    ensures some { TreeHasWeakestEdge }
    ensures least { WeakestEdgeIsGlobalCut }
{}
