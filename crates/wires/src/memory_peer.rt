//! A peer in memory.
ghost use Rattle.std.specs.Prelude.{◌≡◌, ◌+◌, ◌<◌, ◌≤◌, ◌↔◌, ◌++◌, ◌||◌, length, false, refl};
ghost use Rattle.std.specs.Prelude.{IsTrue, IfOk, Some};
ghost use Rattle.std.specs.Result.{IsOk, IsErr};
ghost use Rattle.std.specs.Io.{ReadsAtMost};
ghost use Rattle.std.specs.Io.KnownBytes.{ReadConsumes};
ghost use Rattle.wires.specs.Asides.{bytes_of, faults_of, met_of};
ghost use Rattle.wires.specs.Beside.{Other, nothing_beside, sink_half, source_half};
ghost use Rattle.wires.specs.Bytes.{answers_end, PutAppends};
ghost use Rattle.wires.specs.Causes.{HasCause, one_more};
ghost use Rattle.wires.specs.Memory.{is_refused, put_writes, read_count, read_fails};

use crate::{Failed, MemorySink, MemorySource, Peer, Sink, Source};

/// A peer in memory. It reads as its source does, and puts as its sink does: with a source of `ab` a
/// read gives `ab`, and a put of `x` is kept by the sink.
#[derive(Drop)]
pub struct MemoryPeer {
    /// What it gives.
    pub source: MemorySource,
    /// What it keeps.
    pub sink: MemorySink,
}

impl Source for MemoryPeer {
    ghost left = { λ p. Some p.source.left };

    ghost ended = { λ p. p.source.ended };

    ghost read_faults = { λ p. p.source.faults };

    ghost beside_source = { λ p. Other (sink_half (Some p.sink.bytes) p.sink.faults (λ _. false)) nothing_beside };

    fn read(&mut self, into: &mut [u8]) -> Result<usize, Failed>
        ensures bound { ReadsAtMost result into.new }
        ensures bytes { ReadConsumes (Some self.old.source.left) (Some self.new.source.left) result into.new }
        ensures met { self.new.source.ended ≡ (self.old.source.ended || answers_end result into.new) }
        ensures stays { IsTrue self.old.source.ended → result ≡ Ok 0 }
        ensures cause { HasCause self.old.source.faults self.new.source.faults result }
        ensures fails { IsErr result ↔ IsTrue (read_fails self.old.source) }
        ensures count { IfOk result (λ n. n ≡ read_count self.old.source (length into.new)) }
        ensures calls { self.new.source.calls ≡ one_more self.old.source.calls }
        ensures piece { self.new.source.piece ≡ self.old.source.piece }
        ensures failing { self.new.source.failing ≡ self.old.source.failing }
        ensures sink { self.new.sink ≡ self.old.sink }
    {
        self.source.read(into)
    }
}

impl Sink for MemoryPeer {
    ghost written = { λ p. Some p.sink.bytes };

    ghost write_faults = { λ p. p.sink.faults };

    ghost beside_sink = { λ p. Other (source_half (Some p.source.left) p.source.ended p.source.faults) nothing_beside };

    fn put(&mut self, bytes: &[u8]) -> Result<(), Failed>
        ensures bytes { PutAppends (Some self.old.sink.bytes) (Some self.new.sink.bytes) result bytes.now }
        ensures cause { HasCause self.old.sink.faults self.new.sink.faults result }
        ensures succeeds { IsOk result ↔ ((is_refused self.old.sink ≡ false)
            × (length self.old.sink.bytes + length bytes.now ≤ self.old.sink.room)) }
        ensures writes { self.new.sink.bytes ≡ self.old.sink.bytes ++ put_writes self.old.sink bytes.now }
        ensures calls { self.new.sink.calls ≡ one_more self.old.sink.calls }
        ensures room { self.new.sink.room ≡ self.old.sink.room }
        ensures failing { self.new.sink.failing ≡ self.old.sink.failing }
        ensures source { self.new.source ≡ self.old.source }
    {
        self.sink.put(bytes)
    }
}

impl Peer for MemoryPeer {
    ghost beside_peer = { λ _. nothing_beside };

    ghost read_leaves_written = { λ x y e. bytes_of _ _ e };

    ghost read_leaves_write_faults = { λ x y e. faults_of _ _ e };

    ghost read_leaves_takes = { λ x y e. refl };

    ghost read_leaves_beside = { λ x y e. refl };

    ghost put_leaves_left = { λ x y e. bytes_of _ _ e };

    ghost put_leaves_ended = { λ x y e. met_of _ _ e };

    ghost put_leaves_read_faults = { λ x y e. faults_of _ _ e };

    ghost put_leaves_beside = { λ x y e. refl };
}
