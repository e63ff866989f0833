//! Texts that are put in pieces.
ghost use Rattle.std.specs.Prelude.{map};
ghost use Rattle.std.specs.List.{concat};
ghost use Rattle.wires.specs.Puts.{Puts};

use crate::{Failed, Sink};

/// Puts the pieces one after another: of `ab` and `c` the text `abc`. It takes no memory.
///
/// # Errors
/// [`Failed`] where a put failed. The pieces before that one were written, and a front of it.
pub fn put_pieces<K: Sink>(pieces: &[&[u8]], sink: &mut K) -> Result<(), Failed>
    ensures puts { Puts K.Sink sink.old sink.new result (concat (map (λ p. p.now) pieces.now)) }
{
    for piece in pieces {
        sink.put(piece)?;
    }
    Ok(())
}
