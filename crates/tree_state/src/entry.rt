//! Entries of a history.
ghost use Rattle.std.specs.Prelude.{◌≡◌};
ghost use Rattle.cut_model.specs.Held.{IsHeldCut};
ghost use Rattle.tree_state.specs.History.{entry_of};

use cut_model::{LeastCut, Side};

/// One commit: a least cut of `router` from `neighbour`, which stood above it then.
#[derive(Clone, Copy, Debug)]
pub struct Entry {
    /// The router that was committed.
    pub router: u32,
    /// The router above it when it was committed.
    pub neighbour: u32,
    /// What the cut costs.
    pub value: u64,
    /// A side of the cut: it holds `router` and lacks `neighbour`.
    pub side: Side,
}

impl Entry {
    /// The entry of a least cut.
    pub fn of(cut: &LeastCut) -> Entry
        ensures value { result ≡ entry_of cut.now }
        ensures held { IsHeldCut cut.now }
    {
        Entry {
            router: cut.router(),
            neighbour: cut.neighbour(),
            value: cut.value(),
            side: *cut.side(),
        }
    }
}
