//! A source and a sink in one.
ghost use Rattle.std.specs.Prelude.{◌≡◌};
ghost use Rattle.wires.specs.Asides.{bytes_of, faults_of, met_of, peer_of, takes_of};
ghost use Rattle.wires.specs.Beside.{Beside, Other, Two, sink_half, source_half};

use crate::{Failed, Sink, Source};

/// A source and a sink that leave each other alone. A read leaves what the object shows as a sink, and
/// a put what it shows as a source, since each depends alone on what the other call leaves.
pub trait Peer: Source + Sink {
    /// What the object is beside a source and a sink.
    ghost beside_peer: { Self → Beside };

    /// The bytes that were written depend on what is beside the source alone.
    ghost read_leaves_written: { (x y : Self) → Self.beside_source x ≡ Self.beside_source y
        → Self.written x ≡ Self.written y };

    /// So does the count of write faults.
    ghost read_leaves_write_faults: { (x y : Self) → Self.beside_source x ≡ Self.beside_source y
        → Self.write_faults x ≡ Self.write_faults y };

    /// So does what puts surely take.
    ghost read_leaves_takes: { (x y : Self) → Self.beside_source x ≡ Self.beside_source y
        → Self.takes x ≡ Self.takes y };

    /// So does what the object is beside both.
    ghost read_leaves_beside: { (x y : Self) → Self.beside_source x ≡ Self.beside_source y
        → beside_peer x ≡ beside_peer y };

    /// The bytes that are left depend on what is beside the sink alone.
    ghost put_leaves_left: { (x y : Self) → Self.beside_sink x ≡ Self.beside_sink y
        → Self.left x ≡ Self.left y };

    /// So does whether the end was met.
    ghost put_leaves_ended: { (x y : Self) → Self.beside_sink x ≡ Self.beside_sink y
        → Self.ended x ≡ Self.ended y };

    /// So does the count of read faults.
    ghost put_leaves_read_faults: { (x y : Self) → Self.beside_sink x ≡ Self.beside_sink y
        → Self.read_faults x ≡ Self.read_faults y };

    /// So does what the object is beside both.
    ghost put_leaves_beside: { (x y : Self) → Self.beside_sink x ≡ Self.beside_sink y
        → beside_peer x ≡ beside_peer y };
}

/// A peer over two objects. What it shows is what the two show: `Pair { source, sink }` reads from the one
/// and puts to the other.
#[derive(Drop)]
pub struct Pair<'a, S: Source, K: Sink> {
    /// What it reads from.
    pub source: &'a mut S,
    /// What it writes to.
    pub sink: &'a mut K,
}

impl<'a, S: Source, K: Sink> Source for Pair<'a, S, K> {
    ghost left = { λ p. S.left p.source.now };

    ghost ended = { λ p. S.ended p.source.now };

    ghost read_faults = { λ p. S.read_faults p.source.now };

    ghost beside_source = { λ p.
        Other (sink_half (K.written p.sink.now) (K.write_faults p.sink.now) (K.takes p.sink.now))
        (Two p.source.ghost_name (S.beside_source p.source.now) p.sink.ghost_name (K.beside_sink p.sink.now)) };

    fn read(&mut self, into: &mut [u8]) -> Result<usize, Failed> {
        self.source.read(into)
    }
}

impl<'a, S: Source, K: Sink> Sink for Pair<'a, S, K> {
    ghost written = { λ p. K.written p.sink.now };

    ghost write_faults = { λ p. K.write_faults p.sink.now };

    ghost beside_sink = { λ p.
        Other (source_half (S.left p.source.now) (S.ended p.source.now) (S.read_faults p.source.now))
        (Two p.source.ghost_name (S.beside_source p.source.now) p.sink.ghost_name (K.beside_sink p.sink.now)) };

    ghost takes = { λ p. K.takes p.sink.now };

    fn put(&mut self, bytes: &[u8]) -> Result<(), Failed> {
        self.sink.put(bytes)
    }
}

impl<'a, S: Source, K: Sink> Peer for Pair<'a, S, K> {
    ghost beside_peer = { λ p.
        Two p.source.ghost_name (S.beside_source p.source.now) p.sink.ghost_name (K.beside_sink p.sink.now) };

    ghost read_leaves_written = { λ x y e. bytes_of _ _ e };

    ghost read_leaves_write_faults = { λ x y e. faults_of _ _ e };

    ghost read_leaves_takes = { λ x y e. takes_of _ _ e };

    ghost read_leaves_beside = { λ x y e. peer_of _ _ e };

    ghost put_leaves_left = { λ x y e. bytes_of _ _ e };

    ghost put_leaves_ended = { λ x y e. met_of _ _ e };

    ghost put_leaves_read_faults = { λ x y e. faults_of _ _ e };

    ghost put_leaves_beside = { λ x y e. peer_of _ _ e };
}
