//! The rule by which commits make a tree.
//!
//! `begin` gives a ticket for a router: it and the router above it. `settle` commits a least cut of the
//! two exactly where the one still hangs from the other by then. `complete` hands the tree on as a
//! finished one, which is a cut tree, exactly where every terminal but the root was committed.
#![tactic(auto)]

mod completion;
mod settling;
#[cfg(test)]
mod tests;
mod tickets;

pub use completion::complete;
pub use settling::{Settled, settle, settle_known};
pub use tickets::{Begun, Ticket, begin};
