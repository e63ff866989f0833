//! What a source of bytes is.
ghost use Rattle.std.specs.Prelude.{◌≡◌, ℕ, ◌<◌, List, length, Bool, ◌||◌, IsTrue};
ghost use Rattle.std.specs.Io.{ReadsAtMost};
ghost use Rattle.std.specs.Io.KnownBytes.{ReadConsumes};
ghost use Rattle.std.specs.declared.option.Option.{Option};
ghost use Rattle.wires.specs.Beside.{Beside};
ghost use Rattle.wires.specs.Bytes.{answers_end};
ghost use Rattle.wires.specs.Causes.{HasCause};

use crate::Failed;

/// Gives bytes in order, once.
pub trait Source {
    /// The bytes that are left, where the source tells them.
    ghost left: { Self → Option (List ℕ) };

    /// Whether a read has met the end of the input.
    ghost ended: { Self → Bool };

    /// How often a read has failed.
    ghost read_faults: { Self → ℕ };

    /// What the object is beside a source, as a connection that also takes bytes.
    ghost beside_source: { Self → Beside };

    /// Puts the next bytes at the front of the buffer, and says how many. It waits until there is one
    /// at least. For a buffer that isn't empty 0 means the end of the input, and from then on each read
    /// answers 0. A source that has `abc` left answers `Ok(2)` for a buffer of two bytes, which are `ab`
    /// then.
    ///
    /// # Errors
    /// [`Failed`] where the read failed: one fault more is counted. What is left stays, where the source
    /// tells it, and a later read may succeed.
    fn read(&mut self, into: &mut [u8]) -> Result<usize, Failed>
        ensures bound { ReadsAtMost result into.new }
        ensures bytes { ReadConsumes (left self.old) (left self.new) result into.new }
        ensures met { ended self.new ≡ (ended self.old || answers_end result into.new) }
        ensures stays { IsTrue (ended self.old) → result ≡ Ok 0 }
        ensures cause { HasCause (read_faults self.old) (read_faults self.new) result }
        ensures beside { beside_source self.new ≡ beside_source self.old };
}
