//! The planner: the command that a command line names, run over a source and a sink.
//!
//! `run` reads the words once, and runs the command that they name. Its contract says by the command and the
//! status what was written: of `plan`, the replies to the items that were read, over the records that it hands back
//! and no others; of `check`, the line of the verdict on the certificate that was read; of `make`, the summary of the
//! network that was asked for; of `serve`, what the clients of each door were answered, and the last line.
#![tactic(auto)]

mod command;
mod options;
mod outcome;
mod planner;
#[cfg(test)]
mod tests;

pub use command::{Command, Making, Serving, door_place};
pub use outcome::{Outcome, Status};
pub use planner::run;
