//! What a sink of bytes is.
ghost use Rattle.std.specs.Prelude.{◌≡◌, ℕ, ◌+◌, List, length, Bool, false, IsTrue};
ghost use Rattle.std.specs.Result.{IsOk};
ghost use Rattle.std.specs.declared.option.Option.{Option};
ghost use Rattle.wires.specs.Beside.{Beside};
ghost use Rattle.wires.specs.Bytes.{PutAppends};
ghost use Rattle.wires.specs.Causes.{HasCause};

use crate::Failed;

/// Takes bytes in order.
pub trait Sink {
    /// The bytes that were written, where the sink tells them.
    ghost written: { Self → Option (List ℕ) };

    /// How often a put has failed.
    ghost write_faults: { Self → ℕ };

    /// What the object is beside a sink, as a connection that also gives bytes.
    ghost beside_sink: { Self → Beside };

    /// Whether puts of so many bytes together surely succeed.
    ghost takes: { Self → ℕ → Bool } = { λ _ _. false };

    /// Writes the whole piece: behind what was written, as `abc` behind `xy` makes `xyabc`.
    ///
    /// # Errors
    /// [`Failed`] where the put failed: one fault more is counted. A front of the piece was written then,
    /// maybe none of it.
    fn put(&mut self, bytes: &[u8]) -> Result<(), Failed>
        ensures bytes { PutAppends (written self.old) (written self.new) result bytes.now }
        ensures cause { HasCause (write_faults self.old) (write_faults self.new) result }
        ensures beside { beside_sink self.new ≡ beside_sink self.old }
        ensures sure { (n : ℕ) → IsTrue (takes self.old (length bytes.now + n)) → IsOk result }
        ensures room { (n : ℕ) → IsTrue (takes self.old (length bytes.now + n)) → IsTrue (takes self.new n) };
}
