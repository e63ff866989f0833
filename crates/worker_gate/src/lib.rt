//! Workers that build one tree at the same time.
//!
//! Each worker takes a router from a queue, begins it under a lock, has its least cut computed by a gate with no lock
//! held, and settles the cut under the lock. What comes out is a finished tree of the given network, whatever the
//! workers did at the same time.
#![tactic(auto)]

mod build;
mod crew;
mod finish;
mod gate;
mod locked;
mod prepared;
#[cfg(test)]
mod tests;
mod worker;

pub use build::build_tree;
pub use crew::Crew;
pub use gate::{Gate, OpenGate, compute};
pub use prepared::{Prepared, prepare};
