//! The reader of lines.
ghost use Rattle.std.specs.Prelude.{◌≡◌, ℕ, ◌+◌, ◌<◌, ◌≤◌, List, [], length, take, false};
ghost use Rattle.std.specs.Prelude.{IsTrue, IfOk};
ghost use Rattle.wires.specs.Lazy.{ReadCounts, ReadTells};
ghost use Rattle.text_forms.specs.declared.lines.TheConstants.{MOST_LINE_BYTES};
ghost use Rattle.line_reader.specs.declared.reader.TheConstants.{MOST_BYTES};

use crate::front::{FRONT, add_to_front};
use crate::search::first_feed;
use cut_model::NoMemory;
use std::alloc::Global;
use std::marker::Model;
use wires::{Got, LazyPeer};

/// The most bytes that a reader ever takes of a peer.
pub const MOST_BYTES: u64 = 1 << 30;

// The most bytes that are buffered.
const BUFFER: usize = 65_536;

/// Reads bytes of a peer, at most [`MOST_BYTES`], and parts them into lines.
///
/// It holds the bytes that were read and belong to no line that was taken: the line that isn't ended, of which
/// it keeps the front alone, and up to 65,536 bytes that are buffered behind it. So one reader belongs to one
/// peer. No call but `make` takes memory.
#[derive(Drop)]
pub struct LineReader {
    buffer: Vec<u8>,
    from: usize,
    to: usize,
    taken: u64,
    line: Vec<u8>,
    whole: bool,
}

impl Model for LineReader {
    ghost use Rattle.std.specs.Prelude.{◌-◌, ◌<◌, ◌≤◌, take, drop, vec_capacity, vec_len};
    ghost use Rattle.line_reader.specs.Buffered.{Buffered};
    ghost use Rattle.line_reader.specs.declared.front.TheConstants.{FRONT};
    ghost use Rattle.line_reader.specs.declared.reader.TheConstants.{MOST_BYTES};

    ghost Value = { Buffered };

    ghost view = { λ r. record {
      line = r.line.items;
      whole = r.whole;
      bytes = take (r.to - r.from) (drop r.from r.buffer.items);
      taken = r.taken;
    } };

    ghost invariant = { λ r. (r.from ≤ r.to) × (r.to ≤ vec_len r.buffer) × (r.taken ≤ MOST_BYTES)
        × (0 < vec_len r.buffer) × (vec_len r.line ≤ FRONT) × (FRONT ≤ vec_capacity r.line) };
}

impl LineReader {
    ghost use Rattle.line_reader.specs.Buffered.{Holds, fresh};
    ghost use Rattle.line_reader.specs.Taking.{EndsLine, ExtendsLine, LastTells, NextTells};
    ghost use Rattle.line_reader.specs.Reading.{Reads};

    /// A reader that has read nothing yet.
    ///
    /// # Errors
    /// [`NoMemory`] where there is none for the buffer or for the front of a line.
    pub fn make(alloc: Global) -> Result<LineReader, NoMemory>
        ensures anew { IfOk result (λ r. r ≡ fresh) }
        ensures holds { IfOk result (λ r. Holds r []) }
    {
        Ok(LineReader {
            buffer: vec![in alloc; 0u8; BUFFER]?,
            from: 0,
            to: 0,
            taken: 0,
            line: Vec::with_capacity(alloc, FRONT)?,
            whole: false,
        })
    }

    /// Begins anew: the bytes that it holds are dropped, and the count of bytes begins at 0. So a reader that
    /// holds `cd` of one peer gives the first line of another one.
    pub fn restart(&mut self)
        ensures anew { self.new ≡ fresh }
        ensures holds { Holds self.new [] }
    {
        self.from = 0;
        self.to = 0;
        self.taken = 0;
        self.line.clear();
        self.whole = false;
    }

    // Begins a line where the one before was taken, and else goes on with the one that isn't ended.
    fn go_on(&mut self)
        ensures holds { (bytes : List ℕ) → Holds self.old bytes → Holds self.new bytes }
        ensures unended { self.new.whole ≡ false }
        ensures bytes { self.new.bytes ≡ self.old.bytes }
        ensures taken { self.new.taken ≡ self.old.taken }
    {
        if self.whole {
            self.line.clear();
            self.whole = false;
        }
    }

    // Adds to the line what is buffered up to a line feed, or all of it, and says whether the feed was there.
    fn add_part(&mut self) -> bool
        requires unended { self.old.whole ≡ false }
        ensures found { IsTrue result → EndsLine self.old self.new }
        ensures all { result ≡ false → ExtendsLine self.old self.new }
        ensures taken { self.new.taken ≡ self.old.taken }
    {
        let part = &self.buffer[self.from..self.to];
        match first_feed(part) {
            Some(at) => {
                add_to_front(&mut self.line, &part[..at]);
                self.from += at + 1;
                self.whole = true;
                true
            }
            None => {
                add_to_front(&mut self.line, part);
                self.from = self.to;
                false
            }
        }
    }

    /// Takes the next whole line out of what was read, and says whether there is one, whose front `line` gives
    /// then. Of `ab\nc` it takes `ab` and answers `true`, and then `false`, as `c` isn't ended. Each byte that
    /// was read is looked at once, also where a long line comes in small pieces.
    pub fn next_line(&mut self) -> bool
        ensures tells { (bytes : List ℕ) → Holds self.old bytes → NextTells result bytes self.new }
        ensures fewer { IsTrue result → length self.new.bytes < length self.old.bytes }
        ensures empty { result ≡ false → self.new.bytes ≡ [] }
        ensures taken { self.new.taken ≡ self.old.taken }
    {
        self.go_on();
        self.add_part()
    }

    /// The front of the line that the call before took: all of the line, or one byte more than a line may
    /// have. Behind a call that took none it is no line.
    pub fn line(&self) -> &[u8]
        ensures bytes { result.now ≡ self.now.line }
        ensures most { length result.now ≤ MOST_LINE_BYTES + 1 }
    {
        self.line.as_slice()
    }

    /// Where the input has ended and nothing is buffered: takes what stands behind the last line feed as a
    /// line, and says whether there is any. Of `ab\nc` it takes `c` behind `ab` and answers `true`, and then
    /// `false`.
    pub fn last_line(&mut self) -> bool
        requires empty { self.old.bytes ≡ [] }
        ensures tells { (bytes : List ℕ) → Holds self.old bytes → LastTells result bytes self.new }
        ensures bytes { self.new.bytes ≡ [] }
        ensures taken { self.new.taken ≡ self.old.taken }
    {
        let some = !self.whole && !self.line.is_empty();
        if some {
            self.whole = true;
        }
        some
    }

    /// Whether [`MOST_BYTES`] were read.
    pub fn is_spent(&self) -> bool
        ensures spent { IsTrue result → self.now.taken ≡ MOST_BYTES }
        ensures not_spent { result ≡ false → self.now.taken < MOST_BYTES }
    {
        self.taken == MOST_BYTES
    }

    /// Reads once, where nothing is buffered and fewer than [`MOST_BYTES`] were read. The bytes that come are
    /// held behind those that are held already. Of a peer that has `ab\nc` left it may answer `Bytes(4)`, or
    /// `Bytes(1)` and have `b\nc` left for later calls.
    ///
    /// # Errors
    /// `End`, `NotYet` and `Failed` as the peer answers them: the reader holds what it held before.
    pub fn read_now<P: LazyPeer>(&mut self, peer: &mut P) -> Got
        requires budget { self.old.taken < MOST_BYTES }
        requires empty { self.old.bytes ≡ [] }
        ensures reads { Reads result self.old self.new (P.wire peer.old) (P.wire peer.new) }
        ensures most { self.new.taken ≤ MOST_BYTES }
        ensures counts { ReadCounts result (P.counts peer.old) (P.counts peer.new) }
        ensures beside { P.beside_lazy peer.new ≡ P.beside_lazy peer.old }
    {
        let room = self.buffer.len().min((MOST_BYTES - self.taken) as usize);
        self.from = 0;
        self.to = 0;
        match read_front(peer, &mut self.buffer, room) {
            Got::Bytes(count) => {
                self.to = count;
                self.taken += count as u64;
                Got::Bytes(count)
            }
            other => other,
        }
    }
}

// Reads at most so many bytes into the front of a buffer.
fn read_front<P: LazyPeer>(peer: &mut P, buffer: &mut [u8], most: usize) -> Got
    requires room { most ≤ length buffer.old }
    ensures tells { ReadTells result (take most buffer.new) (P.wire peer.old) (P.wire peer.new) }
    ensures counts { ReadCounts result (P.counts peer.old) (P.counts peer.new) }
    ensures beside { P.beside_lazy peer.new ≡ P.beside_lazy peer.old }
{
    peer.read_now(&mut buffer[..most])
}
