//! What a pass knows.
use std::collections::LinkedList;

/// What a pass knows of its queue. No value of it is made: it is there for the rule alone.
pub struct Known {
    /// How many of the parts it has, into which the right to know the whole is cut. One that has every part knows all.
    pub parts: u64,
    /// How many parts there are, and passes.
    pub passes: u64,
    /// How many end marks it is still to take.
    pub due: u64,
    /// Whether it took an end mark.
    pub ended: bool,
    /// The jobs that were pushed.
    pub jobs: LinkedList<u32>,
    /// The jobs that it took.
    pub taken: LinkedList<u32>,
}
