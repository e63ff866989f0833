//! Trees of least cuts, commit by commit.
//!
//! A `Growing` is Gusfield's tree of a network while it grows: its tables are exactly what the rule
//! makes of the history of commits, and the history is legal. A `Finished` is one whose history is
//! complete and whose tables are a cut tree; `side_below` gives the routers below one of its routers.
//! The laws in `laws` say how these hang together: a legal history builds half a tree of least cuts,
//! a complete one a cut tree, and the edges of a cut tree answer for all pairs of terminals.
#![tactic(auto)]

mod below;
mod entry;
mod finished;
mod growing;
pub mod laws;
mod tables;

pub use below::side_below;
pub use entry::Entry;
pub use finished::Finished;
pub use growing::Growing;
