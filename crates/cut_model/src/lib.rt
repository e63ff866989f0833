//! Networks within their limits, sets of routers, and what cuts and flows are.
//!
//! The definitions in `specs/` are those that all crates above cite. A `Network` in hand is within
//! its limits, a `Side` is exactly the set that its calls make, a `LeastCut` is a least cut of its
//! network, and the laws in `laws` let a layer above show a least cut by a flow that fills its side.
#![tactic(auto)]

pub mod laws;
mod least_cut;
mod network;
mod no_memory;
mod side;
mod steps;
#[cfg(test)]
mod tests;

pub use least_cut::LeastCut;
pub use network::{Link, MOST_CAPACITY, MOST_LINKS, MOST_ROUTERS, MOST_VALUE, NetFault, Network};
pub use no_memory::NoMemory;
pub use side::Side;
pub use steps::Steps;
