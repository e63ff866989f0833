//! The lines of a peer that may be not ready.
//!
//! A layer above takes one line after another out of what was read, of a long one its front alone, and reads on
//! where no whole line is left. It is promised that no byte is lost, whatever pieces the bytes come in and
//! wherever a read is late or fails: each byte that was read belongs to a line that was taken, or is held for
//! the next one. No more than [`MOST_BYTES`] are ever read of a peer.
#![tactic(auto)]

mod front;
mod reader;
mod search;
#[cfg(test)]
mod tests;

pub use reader::{LineReader, MOST_BYTES};
