//! A source and a sink in memory, which fail at chosen calls.
ghost use Rattle.std.specs.Prelude.{◌≡◌, ℕ, ◌+◌, ◌-◌, ◌<◌, ◌≤◌, ◌↔◌, ◌++◌, ◌==◌, ◌||◌, List, [], length};
ghost use Rattle.std.specs.Prelude.{take, drop, min, true, false, IsTrue, IfOk, Some};
ghost use Rattle.std.specs.Result.{IsOk, IsErr};
ghost use Rattle.std.specs.Io.{ReadsAtMost};
ghost use Rattle.std.specs.Io.KnownBytes.{ReadConsumes};
ghost use Rattle.wires.specs.Beside.{nothing_beside};
ghost use Rattle.wires.specs.Bytes.{answers_end, PutAppends};
ghost use Rattle.wires.specs.Causes.{HasCause, one_more};
ghost use Rattle.wires.specs.Memory.{is_named, is_refused, put_writes, read_count};
ghost use Rattle.wires.specs.Memory.{read_fails};

use crate::{Failed, Sink, Source};
use cut_model::NoMemory;
use std::alloc::Global;
use std::marker::Model;

/// Gives its bytes in pieces, and fails at some reads.
#[derive(Drop)]
pub struct MemorySource {
    bytes: Vec<u8>,
    at: usize,
    piece: usize,
    failing: Vec<u32>,
    calls: u64,
    faults: u64,
    ended: bool,
}

impl Model for MemorySource {
    ghost use Rattle.std.specs.Prelude.{◌≡◌, ◌<◌, ◌≤◌, drop, true, vec_len};
    ghost use Rattle.wires.specs.Memory.{Supply};

    ghost Value = { Supply };

    ghost view = { λ s. record {
      left = drop s.at s.bytes.items;
      piece = s.piece;
      failing = s.failing.items;
      calls = s.calls;
      faults = s.faults;
      ended = s.ended;
    } };

    ghost invariant = { λ s. (s.at ≤ vec_len s.bytes) × (0 < s.piece) × (s.ended ≡ true → s.at ≡ vec_len s.bytes) };
}

impl MemorySource {
    /// Gives these bytes, at most `piece` of them a read. The reads, counted from 1, whose numbers are
    /// in `failing` fail; a read after the end was met answers 0 all the same. Of `abcde` in pieces of 3
    /// with `failing` 2 the reads into 8 bytes answer `Ok(3)`, `Err(Failed)`, `Ok(2)` and `Ok(0)`.
    pub fn make(bytes: Vec<u8>, piece: usize, failing: Vec<u32>) -> MemorySource
        requires { 0 < piece }
        ensures { result ≡ record {
          left = bytes.items;
          piece = piece;
          failing = failing.items;
          calls = 0;
          faults = 0;
          ended = false;
        } }
    {
        MemorySource {
            bytes,
            at: 0,
            piece,
            failing,
            calls: 0,
            faults: 0,
            ended: false,
        }
    }

    /// The bytes that are left, as `c` of `abc` behind a read of 2 bytes.
    pub(crate) fn left(&self) -> &[u8]
        ensures { result.now ≡ self.now.left }
    {
        &self.bytes[self.at..]
    }

    /// How many reads have failed.
    pub(crate) fn faults(&self) -> u64
        ensures { result ≡ self.now.faults }
    {
        self.faults
    }
}

impl Source for MemorySource {
    ghost left = { λ s. Some s.left };

    ghost ended = { λ s. s.ended };

    ghost read_faults = { λ s. s.faults };

    ghost beside_source = { λ _. nothing_beside };

    fn read(&mut self, into: &mut [u8]) -> Result<usize, Failed>
        ensures bound { ReadsAtMost result into.new }
        ensures bytes { ReadConsumes (Some self.old.left) (Some self.new.left) result into.new }
        ensures met { self.new.ended ≡ (self.old.ended || answers_end result into.new) }
        ensures stays { IsTrue self.old.ended → result ≡ Ok 0 }
        ensures cause { HasCause self.old.faults self.new.faults result }
        ensures fails { IsErr result ↔ IsTrue (read_fails self.old) }
        ensures count { IfOk result (λ n. n ≡ read_count self.old (length into.new)) }
        ensures calls { self.new.calls ≡ one_more self.old.calls }
        ensures piece { self.new.piece ≡ self.old.piece }
        ensures failing { self.new.failing ≡ self.old.failing }
    {
        self.calls = self.calls.saturating_add(1);
        if self.ended {
            return Ok(0);
        }
        if is_among(&self.failing, self.calls) {
            self.faults = self.faults.saturating_add(1);
            return Err(Failed);
        }
        let count = copy_front(&self.bytes[self.at..], self.piece, into);
        self.at += count;
        self.ended = count == 0 && !into.is_empty();
        Ok(count)
    }
}

/// Whether a call has one of these numbers.
pub(crate) fn is_among(numbers: &[u32], call: u64) -> bool
    ensures { result ≡ is_named numbers.now call }
{
    numbers.iter().any(|number| u64::from(*number) == call)
}

/// Copies bytes to the front of a buffer, at most so many, and says how many.
pub(crate) fn copy_front(bytes: &[u8], most: usize, into: &mut [u8]) -> usize
    ensures count { result ≡ min (min (length bytes.now) most) (length into.new) }
    ensures front { take result into.new ≡ take result bytes.now }
{
    let count = bytes.len().min(most).min(into.len());
    into[..count].copy_from_slice(&bytes[..count]);
    count
}

/// Keeps what is written, up to its room, and fails at some puts.
#[derive(Drop)]
pub struct MemorySink {
    bytes: Vec<u8>,
    room: usize,
    failing: Vec<u32>,
    calls: u64,
    faults: u64,
}

impl Model for MemorySink {
    ghost use Rattle.std.specs.Prelude.{◌≤◌, vec_capacity, vec_len};
    ghost use Rattle.wires.specs.Memory.{Store};

    ghost Value = { Store };

    ghost view = { λ s. record {
      bytes = s.bytes.items;
      room = s.room;
      failing = s.failing.items;
      calls = s.calls;
      faults = s.faults;
    } };

    ghost invariant = { λ s. (vec_len s.bytes ≤ s.room) × (s.room ≤ vec_capacity s.bytes) };
}

impl MemorySink {
    /// Keeps at most `room` bytes, whose memory it takes at once, so that no put takes any. The puts,
    /// counted from 1, whose numbers are in `failing` fail and write nothing. One that doesn't fit
    /// writes what fits and fails. With room for 3 bytes `ab` is kept, and of `cd` behind it `c`.
    pub fn make(alloc: Global, room: usize, failing: Vec<u32>) -> Result<MemorySink, NoMemory>
        ensures { IfOk result (λ s. s ≡ record {
          bytes = [];
          room = room;
          failing = failing.items;
          calls = 0;
          faults = 0;
        }) }
    {
        Ok(MemorySink {
            bytes: Vec::with_capacity(alloc, room)?,
            room,
            failing,
            calls: 0,
            faults: 0,
        })
    }

    /// The bytes that were written, as `abc` after puts of `ab` and `c`.
    pub fn written(&self) -> &[u8]
        ensures { result.now ≡ self.now.bytes }
    {
        self.bytes.as_slice()
    }

    /// How many puts have failed.
    pub(crate) fn faults(&self) -> u64
        ensures { result ≡ self.now.faults }
    {
        self.faults
    }
}

impl Sink for MemorySink {
    ghost written = { λ s. Some s.bytes };

    ghost write_faults = { λ s. s.faults };

    ghost beside_sink = { λ _. nothing_beside };

    fn put(&mut self, bytes: &[u8]) -> Result<(), Failed>
        ensures bytes { PutAppends (Some self.old.bytes) (Some self.new.bytes) result bytes.now }
        ensures cause { HasCause self.old.faults self.new.faults result }
        ensures succeeds { IsOk result
            ↔ ((is_refused self.old ≡ false) × (length self.old.bytes + length bytes.now ≤ self.old.room)) }
        ensures writes { self.new.bytes ≡ self.old.bytes ++ put_writes self.old bytes.now }
        ensures calls { self.new.calls ≡ one_more self.old.calls }
        ensures room { self.new.room ≡ self.old.room }
        ensures failing { self.new.failing ≡ self.old.failing }
    {
        self.calls = self.calls.saturating_add(1);
        if is_among(&self.failing, self.calls) {
            self.faults = self.faults.saturating_add(1);
            return Err(Failed);
        }
        let count = bytes.len().min(self.room - self.bytes.len());
        self.bytes.extend_from_slice(&bytes[..count]).unwrap();
        if count < bytes.len() {
            self.faults = self.faults.saturating_add(1);
            return Err(Failed);
        }
        Ok(())
    }
}
