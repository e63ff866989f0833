//! Networks that three numbers make, and what a network is summed up by.
//!
//! `make_network` gives the one network that a seed and two sizes make, draw by draw: the same on every
//! machine. `sum_up` tells of a finished tree two numbers that its network alone decides, whatever the order
//! of the commits was, and `write_summary` writes them as three lines.
#![tactic(auto)]

mod draws;
pub mod laws;
mod network;
mod summary;
#[cfg(test)]
mod tests;
mod write;

pub use draws::MOST_SEED;
pub use network::make_network;
pub use summary::{Summary, sum_up};
pub use write::write_summary;
