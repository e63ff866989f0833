//! What the queue holds.

/// A job, or a mark behind the last job. There is one mark for each pass, so a pass that takes a mark knows that no
/// job is left.
#[derive(Clone, Copy)]
pub enum Item {
    Job(u32),
    End,
}
