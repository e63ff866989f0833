//! A peer that waits, as one that is always ready.
ghost use Rattle.wires.specs.Beside.{One};

use crate::{Got, LazyPeer, Peer, Taken};

/// Any peer as one that is always ready: each call waits as that peer's does. What it shows is what the
/// peer behind its reference shows, and both counts of calls that weren't ready are 0, so no call answers
/// that it isn't.
#[derive(Drop)]
pub struct ReadyPeer<'a, P> {
    /// What it reads from and writes to.
    pub peer: &'a mut P,
}

impl<'a, P: Peer> LazyPeer for ReadyPeer<'a, P> {
    ghost wire = { λ r. record {
      left = P.left r.peer.now;
      ended = P.ended r.peer.now;
      written = P.written r.peer.now;
    } };

    ghost counts = { λ r. record {
      read_faults = P.read_faults r.peer.now;
      write_faults = P.write_faults r.peer.now;
      reads_not_yet = 0;
      puts_not_yet = 0;
    } };

    ghost beside_lazy = { λ r. One r.peer.ghost_name (P.beside_peer r.peer.now) };

    fn read_now(&mut self, into: &mut [u8]) -> Got {
        match self.peer.read(into) {
            Ok(count) if count == 0 && !into.is_empty() => Got::End,
            Ok(count) => Got::Bytes(count),
            Err(_) => Got::Failed,
        }
    }

    fn put_now(&mut self, bytes: &[u8]) -> Taken {
        match self.peer.put(bytes) {
            Ok(()) => Taken::Bytes(bytes.len()),
            Err(_) => Taken::Failed,
        }
    }
}
