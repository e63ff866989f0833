//! Jobs that several workers take from one queue.
//!
//! Each worker has a pass of its own, which knows the jobs, what it took of them, and whether it found the queue
//! empty. Whatever the workers do at the same time, each job is taken by one pass or left, and where a pass found the
//! queue empty nothing is left.
#![tactic(auto)]

mod item;
mod jobs;
mod known;
mod pass;
mod rule;
#[cfg(test)]
mod tests;

pub use jobs::{Closed, Jobs, MOST_WORKERS};
pub use pass::Pass;
