//! Where bytes come from and where they go, and how that can fail.
//!
//! A layer above reads from a [`Source`] and writes to a [`Sink`]. It is promised that every failure it
//! is told of has a cause: the count of faults of that very object rose by one in that very call, and
//! it rises in no call that succeeds.
//! A [`Peer`] is both, and its reads and puts leave each other alone. A [`LazyPeer`] may be not ready: it
//! answers so rather than wait, and counts it. Peers come through a [`Door`], one after another, and go back
//! to it.
#![tactic(auto)]

mod counting;
#[cfg(test)]
mod door_tests;
mod doors;
mod faults;
mod lazy;
mod memory;
mod memory_door;
mod memory_lazy_peer;
mod memory_peer;
mod peers;
mod pieces;
mod ready;
mod retries;
mod sinks;
mod sources;
mod standard;
mod sure;
mod tcp_door;
mod tcp_peer;
#[cfg(test)]
mod tcp_tests;
#[cfg(test)]
mod tests;

pub use counting::CountingSink;
pub use doors::Door;
pub use faults::Failed;
pub use lazy::{Got, LazyPeer, Taken};
pub use memory::{MemorySink, MemorySource};
pub use memory_door::MemoryDoor;
pub use memory_lazy_peer::MemoryLazyPeer;
pub use memory_peer::MemoryPeer;
pub use peers::{Pair, Peer};
pub use pieces::put_pieces;
pub use ready::ReadyPeer;
pub use sinks::Sink;
pub use sources::Source;
pub use standard::{StdSink, StdSource};
pub use sure::SureSource;
pub use tcp_door::TcpDoor;
pub use tcp_peer::TcpPeer;
