//! What is left on the arcs of a network under a flow.
//!
//! Link i gives arc 2i from its end a to its end b, and arc 2i + 1 from b to a. A `Residual` holds
//! exactly one network and one flow within its capacities. It is loaded, pushed and undone in place,
//! and each look at what is left, and each push, is one step of a counter.
#![tactic(auto)]

mod capacities;
mod index;
mod place;
mod residual;
mod same;
#[cfg(test)]
mod tests;
mod touched;

pub use place::Place;
pub use residual::Residual;
