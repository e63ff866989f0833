//! What a set of routers costs and parts, and how two sets lie to each other.
//!
//! Each call is exact over the definitions of `cut_model`, and never fails for want of memory.
#![tactic(auto)]

mod sides;
#[cfg(test)]
mod tests;

pub use sides::{is_part_of, separates, turn_over, value_of};
