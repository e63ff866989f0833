//! Calls of a reader and a writer that are made again where a signal interrupts them.
ghost use Rattle.std.specs.Prelude.{◌<◌, IfOk};
ghost use Rattle.std.specs.Io.{ReadsAtMost, WritesAtMost};
ghost use Rattle.std.specs.Io.KnownBytes.{ReadConsumes, WriteAppends};
ghost use Rattle.wires.specs.Bytes.{PutAppends};

use crate::Failed;
use std::io::{Error, ErrorKind, Read, Write};

/// How often a call is made at most. No program lives to see so many, and a loop of them ends by proof.
pub(crate) const TRIES: u64 = u64::MAX;

/// One read, made again where a signal interrupts it.
pub(crate) fn read_once<R: Read>(reader: &mut R, into: &mut [u8]) -> Result<usize, Failed>
    ensures bound { ReadsAtMost result into.new }
    ensures bytes { ReadConsumes (R.remaining reader.old) (R.remaining reader.new) result into.new }
{
    for _ in 0..TRIES {
        match reader.read(into) {
            Ok(count) => return Ok(count),
            Err(error) if is_interrupted(&error) => {}
            Err(_) => return Err(Failed),
        }
    }
    Err(Failed)
}

/// Writes the whole piece. A write of no byte is a failure, since it would be followed by others.
///
/// # Errors
/// [`Failed`] where a write failed. A front of the piece was written then, maybe none of it.
pub(crate) fn write_whole<W: Write>(writer: &mut W, bytes: &[u8]) -> Result<(), Failed>
    ensures bytes { PutAppends (W.contents writer.old) (W.contents writer.new) result bytes.now }
{
    let mut done = 0usize;
    while done < bytes.len() {
        done += write_once(writer, &bytes[done..])?;
    }
    Ok(())
}

/// One write of a front of the piece, made again where a signal interrupts it.
fn write_once<W: Write>(writer: &mut W, bytes: &[u8]) -> Result<usize, Failed>
    ensures bound { WritesAtMost result bytes.now }
    ensures bytes { WriteAppends (W.contents writer.old) (W.contents writer.new) result bytes.now }
    ensures some { IfOk result (λ count. 0 < count) }
{
    for _ in 0..TRIES {
        match writer.write(bytes) {
            Ok(count) if count > 0 => return Ok(count),
            Err(error) if is_interrupted(&error) => {}
            _ => return Err(Failed),
        }
    }
    Err(Failed)
}

/// Whether a signal interrupted the call, which did nothing then.
fn is_interrupted(error: &Error) -> bool {
    error.kind() == ErrorKind::Interrupted
}
