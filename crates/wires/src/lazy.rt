//! A peer that may be not ready.

/// What a read of a peer that may be not ready answers.
#[derive(Clone, Copy, PartialEq, Eq, Debug)]
pub enum Got {
    /// So many bytes were read, which stand at the front of the buffer.
    Bytes(usize),
    /// The end of the input.
    End,
    /// No byte is there yet, and none was read.
    NotYet,
    /// The read failed, and no byte was taken.
    Failed,
}

/// What a put to a peer that may be not ready answers.
#[derive(Clone, Copy, PartialEq, Eq, Debug)]
pub enum Taken {
    /// So many bytes were written, the first ones of the piece.
    Bytes(usize),
    /// No byte can be written yet, and none was.
    NotYet,
    /// The put failed. A front of the piece was written, maybe none of it.
    Failed,
}

/// Gives bytes in order, once, and takes bytes in order. Its calls may answer that they aren't ready,
/// where those of a [`Peer`](crate::Peer) wait. A read leaves what was written, and a put what is left.
pub trait LazyPeer {
    ghost use Rattle.std.specs.Prelude.{◌≡◌};
    ghost use Rattle.wires.specs.Beside.{Beside};
    ghost use Rattle.wires.specs.Lazy.{Counts, PutCounts, PutTells, ReadCounts, ReadTells, Wire};

    /// The bytes that are left, whether a read has met the end, and the bytes that were written.
    ghost wire: { Self → Wire };

    /// How often a read and a put have failed, and how often they weren't ready. Each count stands still
    /// at 2^64 - 1.
    ghost counts: { Self → Counts };

    /// What the object is beside that, as which peer stands behind a reference.
    ghost beside_lazy: { Self → Beside };

    /// Puts the next bytes at the front of the buffer. A peer that has `abc` left may answer `Bytes(2)`
    /// for a buffer of two bytes, which are `ab` then, or `Bytes(1)`. For a buffer that isn't empty
    /// `Bytes` tells one byte at least. `End` comes only where no byte is left, as far as the peer tells
    /// its bytes, and from then on each read into a buffer that isn't empty answers it.
    ///
    /// # Errors
    /// `NotYet` where no byte is there yet: one read more wasn't ready. `Failed` where the read failed:
    /// one read fault more is counted, and a later read may succeed. Neither takes a byte.
    fn read_now(&mut self, into: &mut [u8]) -> Got
        ensures tells { ReadTells result into.new (wire self.old) (wire self.new) }
        ensures counts { ReadCounts result (counts self.old) (counts self.new) }
        ensures beside { beside_lazy self.new ≡ beside_lazy self.old };

    /// Writes a front of the piece: of `abc` behind `xy` maybe `ab`, which makes `xyab` and answers
    /// `Bytes(2)`. For a piece that isn't empty `Bytes` tells one byte at least.
    ///
    /// # Errors
    /// `NotYet` where no byte can be written yet: one put more wasn't ready, and none was written.
    /// `Failed` where the put failed: one write fault more is counted. A front of the piece was written
    /// then, maybe none of it.
    fn put_now(&mut self, bytes: &[u8]) -> Taken
        ensures tells { PutTells result bytes.now (wire self.old) (wire self.new) }
        ensures counts { PutCounts result (counts self.old) (counts self.new) }
        ensures beside { beside_lazy self.new ≡ beside_lazy self.old };
}
