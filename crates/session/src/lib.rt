//! One session of request lines, over a shelf of records and a peer.
//!
//! A session answers each item of what its peer sends from the records that its shelf has seen, and publishes the
//! networks that it loads, with the trees that its workers build. `serve_session` serves a peer that waits, in one go;
//! a `SessionTask` one that may be not ready, turn by turn, and a `TaskFuture` polls such turns. The contracts say of
//! every end what was written: the replies to the items that were read, over the records that the shelf has seen then.
#![tactic(auto)]

mod desk;
mod future;
mod intake;
pub mod laws;
mod machine;
mod means;
mod put_out;
mod runs;
mod session;
mod state;
mod task;
#[cfg(test)]
mod tests;

pub use desk::Asked;
pub use future::{Belled, TaskFuture};
pub use session::{Session, SessionEnd, Turn, serve_session};
pub use task::SessionTask;
