//! The tree when it is complete.
ghost use Rattle.std.specs.Prelude.{◌≡◌, ◌+◌, ◌<◌, ◌≤◌, Some, length, slice_get, slice_index};
ghost use Rattle.std.specs.Arc.{arc_value};
ghost use Rattle.cut_model.specs.declared.network.TheConstants.{MOST_VALUE};
ghost use Rattle.cut_model.specs.Terminals.{is_terminal, IsTerminal, terminal_count, root_of};
ghost use Rattle.tree_state.specs.Views.{tree_in, up_of, width_of, HoldsCutTree};
ghost use Rattle.tree_state.specs.History.{IsComplete};
ghost use Rattle.tree_state.specs.Moves.{moves, sum_over, most_moves};

use crate::entry::Entry;
use crate::growing::Growing;
use cut_model::Network;
use std::marker::Model;
use std::sync::Arc;

/// A cut tree, that of a complete history: every terminal but the root was committed. An edge leads
/// from each other router up to the one above it. What is below its lower end is a least cut of its
/// two ends, and costs its width. That a router hangs from another says no more than that, and not
/// that a link joins the two. Contracts see a `FinishedView`.
#[derive(Drop)]
pub struct Finished {
    grown: Growing,
}

impl Model for Finished {
    ghost use Rattle.tree_state.specs.Views.{FinishedView, tree_in, HoldsCutTree};
    ghost use Rattle.tree_state.specs.History.{IsComplete};

    ghost Value = { FinishedView };

    ghost view = { λ f. record { tree = tree_in f.grown; retakes = f.grown.retakes } };

    ghost invariant = { λ f. IsComplete f.grown.net f.grown.history × HoldsCutTree (tree_in f.grown) };
}

impl Finished {
    /// Holds a cut tree whose history is complete. It takes no memory.
    pub fn hold(grown: Growing) -> Finished
        requires complete { IsComplete grown.net grown.history }
        requires tree { HoldsCutTree (tree_in grown) }
        ensures tree { result.tree ≡ tree_in grown }
        ensures retakes { result.retakes ≡ grown.retakes }
    {
        Finished { grown }
    }

    /// The network.
    pub fn net(&self) -> &Arc<Network>
        ensures value { arc_value result.now ≡ self.now.tree.net }
        ensures complete { IsComplete self.now.tree.net self.now.tree.history }
        ensures tree { HoldsCutTree self.now.tree }
    {
        self.grown.net()
    }

    /// The root: the terminal of smallest number.
    pub fn root(&self) -> u32
        ensures value { result ≡ root_of self.now.tree.net }
        ensures terminal { IsTerminal self.now.tree.net result }
        ensures within { result < self.now.tree.net.routers }
    {
        self.grown.net().root()
    }

    /// The router above `c`.
    #[inline]
    pub fn up(&self, c: u32) -> u32
        requires { c < self.now.tree.net.routers }
        ensures value { result ≡ up_of self.now.tree c }
        ensures within { result < self.now.tree.net.routers }
    {
        self.grown.neighbour(c)
    }

    /// The width of the edge from `c` to the router above it: what the cut between them costs.
    #[inline]
    pub fn width(&self, c: u32) -> u64
        requires { c < self.now.tree.net.routers }
        ensures value { result ≡ width_of self.now.tree c }
        ensures most { result ≤ MOST_VALUE }
    {
        self.grown.width(c)
    }

    /// How many commits made the tree, one for each terminal but the root.
    pub fn commits(&self) -> u32
        ensures value { result ≡ length self.now.tree.history }
        ensures all { result + 1 ≡ terminal_count self.now.tree.net }
    {
        self.grown.commits()
    }

    /// The entry of the commit at a place, counted from 0.
    pub fn entry(&self, i: u32) -> &Entry
        requires { i < length self.now.tree.history }
        ensures { slice_get self.now.tree.history i ≡ Some result.now }
    {
        self.grown.entry(i)
    }

    /// How many cuts of `s` weren't taken while the tree grew, since the router above it had moved. It
    /// moved at least as often; so the retakes of all T terminals sum to at most (T - 1)(T - 2) / 2.
    pub fn retakes(&self, s: u32) -> u32
        requires { s < self.now.tree.net.routers }
        ensures value { result ≡ slice_index self.now.retakes s }
        ensures few { result ≤ moves (root_of self.now.tree.net) self.now.tree.history s }
        ensures sum { sum_over (is_terminal self.now.tree.net) (slice_index self.now.retakes)
            self.now.tree.net.routers ≤ most_moves (terminal_count self.now.tree.net) }
    {
        self.grown.retakes(s)
    }
}
