//! Replies that are told line by line, and runs of their lines.
//!
//! A reply that may be long is a [`ReplyLines`]: it knows how many lines it has, and puts any one of them.
//! [`fill_run`] writes as many as one run holds, so a layer above writes a reply of any length in the room
//! of one [`LineRun`], and may stop behind each run. It is promised that the texts of the runs, one behind
//! the other, are a text that the reply's lines allow. Only the making of a run takes memory.
#![tactic(auto)]

mod fill;
mod lines;
mod run;
#[cfg(test)]
mod tests;

pub use fill::{fill_run, write_lines};
pub use lines::ReplyLines;
pub use run::{LineRun, MOST_REPLY_LINE_BYTES, RUN_BYTES};
