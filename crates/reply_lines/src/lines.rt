//! What a reply is that is told line by line.
ghost use Rattle.std.specs.Prelude.{◌≡◌, ℕ, ◌+◌, ◌<◌, List};
ghost use Rattle.reply_lines.specs.Puts.{PutsLine};

use wires::{Failed, Sink};

/// A reply that is told line by line.
pub trait ReplyLines {
    /// What the reply tells, as contracts see it.
    ghost Told: { Type 0 };

    /// What is carried from one line to the next.
    ghost Carry: { Type 0 };

    /// What this reply tells.
    ghost told: { Self → Self.Told };

    /// What is carried to the line that is written next.
    ghost carry: { Self → Self.Carry };

    /// This may be the line of a place, with what is carried to it and from it.
    ghost line: { Self.Told → ℕ → Self.Carry → List ℕ → Self.Carry → Type 0 };

    /// How many lines there are.
    ghost places: { Self.Told → ℕ };

    /// What has to be carried to a place.
    ghost fits: { Self.Told → ℕ → Self.Carry → Type 0 };

    /// How many lines the reply has.
    fn count(&self) -> u64
        ensures { result ≡ Self.places (Self.told self.now) };

    /// Writes the line of a place, counted from 0: exactly one, of at most
    /// [`MOST_REPLY_LINE_BYTES`](crate::MOST_REPLY_LINE_BYTES) bytes. What has to be carried to the next place is
    /// carried then.
    ///
    /// # Errors
    /// [`Failed`] where a put failed. A front of the line was written then.
    fn write_line<K: Sink>(&mut self, place: u64, sink: &mut K) -> Result<(), Failed>
        requires within { place < Self.places (Self.told self.old) }
        requires fits { Self.fits (Self.told self.old) place (Self.carry self.old) }
        ensures fits { Self.fits (Self.told self.old) (place + 1) (Self.carry self.new) }
        ensures told { Self.told self.new ≡ Self.told self.old }
        ensures puts { PutsLine K.Sink sink.old sink.new result (Self.line (Self.told self.old)) place
            (Self.carry self.old) (Self.carry self.new) };
}
