//! The outside itself: a few lines over std's reader and writer.
ghost use Rattle.std.specs.Prelude.{◌≡◌, [], true, false};
ghost use Rattle.std.specs.Option.{ForSome};
ghost use Rattle.wires.specs.Beside.{nothing_beside};

use crate::retries::{read_once, write_whole};
use crate::{Failed, Sink, Source};
use std::io::{Read, Write};

/// Passes on what a reader gives, and nothing more once it gave its end.
#[derive(Drop)]
pub struct StdSource<R: Read> {
    reader: R,
    faults: u64,
    ended: bool,
    ghost all: { ended ≡ true → ForSome (R.remaining reader) (λ bytes. bytes ≡ []) },
}

impl<R: Read> StdSource<R> {
    /// A source over this reader. Over the slice `b"abc"` it gives `abc` and then the end.
    pub fn make(reader: R) -> StdSource<R>
        ensures reader { result.reader ≡ reader }
        ensures faults { result.faults ≡ 0 }
        ensures ended { result.ended ≡ false }
    {
        StdSource {
            reader,
            faults: 0,
            ended: false,
        }
    }
}

impl<R: Read> Source for StdSource<R> {
    ghost left = { λ s. R.remaining s.reader };

    ghost ended = { λ s. s.ended };

    ghost read_faults = { λ s. s.faults };

    ghost beside_source = { λ _. nothing_beside };

    fn read(&mut self, into: &mut [u8]) -> Result<usize, Failed> {
        if self.ended {
            return Ok(0);
        }
        match read_once(&mut self.reader, into) {
            Ok(count) => {
                self.ended = count == 0 && !into.is_empty();
                Ok(count)
            }
            Err(_) => {
                self.faults = self.faults.saturating_add(1);
                Err(Failed)
            }
        }
    }
}

/// Passes on to a writer what is put.
#[derive(Drop)]
pub struct StdSink<W: Write> {
    writer: W,
    faults: u64,
}

impl<W: Write> StdSink<W> {
    /// A sink over this writer. What the writer itself holds back isn't flushed. Over a `Vec` a put of
    /// `abc` pushes these three bytes.
    pub fn make(writer: W) -> StdSink<W>
        ensures writer { result.writer ≡ writer }
        ensures faults { result.faults ≡ 0 }
    {
        StdSink { writer, faults: 0 }
    }
}

impl<W: Write> Sink for StdSink<W> {
    ghost written = { λ s. W.contents s.writer };

    ghost write_faults = { λ s. s.faults };

    ghost beside_sink = { λ _. nothing_beside };

    fn put(&mut self, bytes: &[u8]) -> Result<(), Failed> {
        if write_whole(&mut self.writer, bytes).is_err() {
            self.faults = self.faults.saturating_add(1);
            return Err(Failed);
        }
        Ok(())
    }
}
