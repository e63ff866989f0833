//! What becomes of a cut that was computed for a growing tree.
ghost use Rattle.std.specs.Prelude.{◌≡◌, ◌≢◌, ◌==◌, false, slice_index, if◌then◌else◌};
ghost use Rattle.cut_model.specs.Terminals.{IsTerminal, root_of};
ghost use Rattle.tree_state.specs.History.{entered};
ghost use Rattle.tree_state.specs.Views.{tree_in, up_of};
ghost use Rattle.commit_rule.specs.Settling.{Settles, with_retake};

use cut_model::LeastCut;
use tree_state::Growing;

/// What [`settle`] answers.
#[derive(Clone, Copy, PartialEq, Eq, Debug)]
pub enum Settled {
    /// The cut was committed.
    Committed,
    /// The cut's router was committed before.
    Already,
    /// The cut is one of another network.
    Stranger,
    /// The router above the cut's router isn't the one that it is cut from any more.
    Moved {
        /// The router that it is cut from.
        from: u32,
        /// The router above it.
        to: u32,
    },
}

/// Notes that a cut of `s` came too late: a retake, where the router above it moved since it was read.
fn note_moved(grow: &mut Growing, s: u32)
    requires terminal { IsTerminal grow.old.net s }
    requires fresh { entered grow.old.history s ≡ false }
    ensures { grow.new
        ≡ (if up_of (tree_in grow.old) s == slice_index grow.old.last_read s then grow.old
        else with_retake grow.old s) }
{
    if grow.neighbour(s) != grow.last_read(s) {
        grow.note_retake(s);
    }
}

/// Commits a cut of the tree's own network, of a terminal but the root, where the terminal still hangs
/// from the router that it is cut from (Gusfield, 1990). Where it was committed before, nothing
/// changes; where another router is above it by then, a retake is noted if that one wasn't read yet.
/// It takes no memory, and is done in the time of [`Growing::apply`].
pub fn settle_known(grow: &mut Growing, cut: &LeastCut) -> Settled
    requires same { cut.now.net ≡ grow.old.net }
    requires terminal { IsTerminal grow.old.net cut.now.router }
    requires not_root { cut.now.router ≢ root_of grow.old.net }
    ensures net { grow.new.net ≡ grow.old.net }
    ensures answer { Settles grow.old cut.now grow.new result }
{
    let s = cut.router();
    if grow.is_done(s) {
        return Settled::Already;
    }
    let from = cut.neighbour();
    let to = grow.neighbour(s);
    if from == to {
        grow.apply(cut);
        Settled::Committed
    } else {
        note_moved(grow, s);
        Settled::Moved { from, to }
    }
}

/// Commits a cut as [`settle_known`] does, where it is one of the tree's own network; one of another
/// network changes nothing. The networks are compared link by link.
pub fn settle(grow: &mut Growing, cut: &LeastCut) -> Settled
    requires terminal { cut.now.net ≡ grow.old.net → IsTerminal grow.old.net cut.now.router }
    requires not_root { cut.now.net ≡ grow.old.net → cut.now.router ≢ root_of grow.old.net }
    ensures net { grow.new.net ≡ grow.old.net }
    ensures answer { Settles grow.old cut.now grow.new result }
{
    if cut.net().same_as(grow.net()) {
        settle_known(grow, cut)
    } else {
        Settled::Stranger
    }
}
