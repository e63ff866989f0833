//! A client at the other end of a TCP connection.
ghost use Rattle.std.specs.Prelude.{◌≡◌, ◌<◌, ◌||◌, length, false, refl, None, IsTrue};
ghost use Rattle.std.specs.Result.{IsErr, is_err};
ghost use Rattle.std.specs.Io.{ReadsAtMost};
ghost use Rattle.wires.specs.Asides.{faults_of, met_of};
ghost use Rattle.wires.specs.Beside.{Other, nothing_beside, sink_half, source_half};
ghost use Rattle.wires.specs.Bytes.{answers_end};
ghost use Rattle.wires.specs.Causes.{HasCause};
ghost use Rattle.wires.specs.Tcp.{fresh};

use crate::retries::{read_once, write_whole};
use crate::{Failed, Peer, Sink, Source};
use std::marker::Model;
use std::net::{Shutdown, TcpStream};
use std::time::Duration;

/// How many milliseconds a connection that is closed waits for the client to send something, or to end.
const PATIENCE: u64 = 125;

/// How often a connection that is closed reads what the client still sends, so that it waits two seconds at most.
const LAST_READS: u32 = 16;

/// Reads what a client sends, and writes to it at once. It tells nothing of the bytes. A read waits as long as
/// the client sends nothing, and a put as long as the client takes nothing: neither gives up.
///
/// A client that has sent all and still reads is at its end as a source, and can be written to. One that is
/// gone without an end, as by a reset, is a failure of the call that meets it; the reads behind it fail too,
/// since such a loss is no end of the input.
#[derive(Drop)]
pub struct TcpPeer {
    stream: TcpStream,
    ended: bool,
    is_lost: bool,
    read_faults: u64,
    write_faults: u64,
}

impl Model for TcpPeer {
    ghost use Rattle.wires.specs.Tcp.{Connection};

    ghost Value = { Connection };

    ghost view = { λ p. record {
      ended = p.ended;
      is_lost = p.is_lost;
      read_faults = p.read_faults;
      write_faults = p.write_faults;
    } };
}

impl TcpPeer {
    /// A peer over this connection, on which small pieces aren't held back to be sent together. Where the
    /// system doesn't allow that, they may come later.
    pub fn make(stream: TcpStream) -> TcpPeer
        ensures { result ≡ fresh }
    {
        let _ = stream.set_nodelay(true);
        TcpPeer {
            stream,
            ended: false,
            is_lost: false,
            read_faults: 0,
            write_faults: 0,
        }
    }

    /// Ends the connection behind what was written. A client that still sends is read out for a while before the
    /// connection is let go, since the system would answer what nobody reads with a reset, and that may take
    /// from the client what was written to it last.
    pub(crate) fn close(mut self) {
        let is_told = self.stream.shutdown(Shutdown::Write).is_ok();
        if is_told && !self.ended && !self.is_lost {
            read_out(&mut self.stream);
        }
    }
}

/// Reads on, until the client ends or sends nothing for a while, at most so many times.
fn read_out(stream: &mut TcpStream) {
    let patience = Duration::from_millis(PATIENCE);
    if stream.set_read_timeout(Some(patience)).is_err() {
        return;
    }
    let mut buffer = [0u8; 16384];
    for _ in 0..LAST_READS {
        match read_once(stream, &mut buffer) {
            Ok(count) if count > 0 => {}
            _ => return,
        }
    }
}

impl Source for TcpPeer {
    ghost left = { λ _. None };

    ghost ended = { λ p. p.ended };

    ghost read_faults = { λ p. p.read_faults };

    ghost beside_source = { λ p. Other (sink_half None p.write_faults (λ _. false)) nothing_beside };

    fn read(&mut self, into: &mut [u8]) -> Result<usize, Failed>
        ensures bound { ReadsAtMost result into.new }
        ensures met { self.new.ended ≡ (self.old.ended || answers_end result into.new) }
        ensures stays { IsTrue self.old.ended → result ≡ Ok 0 }
        ensures cause { HasCause self.old.read_faults self.new.read_faults result }
        ensures lost { self.new.is_lost ≡ (self.old.is_lost || is_err result) }
        ensures stays_lost { IsTrue self.old.is_lost → self.old.ended ≡ false → 0 < length into.new → IsErr result }
        ensures write_faults { self.new.write_faults ≡ self.old.write_faults }
    {
        if self.ended || into.is_empty() {
            return Ok(0);
        }
        if !self.is_lost {
            if let Ok(count) = read_once(&mut self.stream, into) {
                self.ended = count == 0;
                return Ok(count);
            }
        }
        self.is_lost = true;
        self.read_faults = self.read_faults.saturating_add(1);
        Err(Failed)
    }
}

impl Sink for TcpPeer {
    ghost written = { λ _. None };

    ghost write_faults = { λ p. p.write_faults };

    ghost beside_sink = { λ p. Other (source_half None p.ended p.read_faults) nothing_beside };

    fn put(&mut self, bytes: &[u8]) -> Result<(), Failed>
        ensures cause { HasCause self.old.write_faults self.new.write_faults result }
        ensures ended { self.new.ended ≡ self.old.ended }
        ensures lost { self.new.is_lost ≡ self.old.is_lost }
        ensures read_faults { self.new.read_faults ≡ self.old.read_faults }
    {
        if write_whole(&mut self.stream, bytes).is_err() {
            self.write_faults = self.write_faults.saturating_add(1);
            return Err(Failed);
        }
        Ok(())
    }
}

impl Peer for TcpPeer {
    ghost beside_peer = { λ _. nothing_beside };

    ghost read_leaves_written = { λ x y e. refl };

    ghost read_leaves_write_faults = { λ x y e. faults_of _ _ e };

    ghost read_leaves_takes = { λ x y e. refl };

    ghost read_leaves_beside = { λ x y e. refl };

    ghost put_leaves_left = { λ x y e. refl };

    ghost put_leaves_ended = { λ x y e. met_of _ _ e };

    ghost put_leaves_read_faults = { λ x y e. faults_of _ _ e };

    ghost put_leaves_beside = { λ x y e. refl };
}
