//! A peer in memory that fails and isn't ready at chosen calls.
ghost use Rattle.std.specs.Prelude.{◌≡◌, ◌<◌, ◌++◌, [], length, false, IfOk};
ghost use Rattle.wires.specs.Beside.{nothing_beside};
ghost use Rattle.wires.specs.Causes.{one_more};
ghost use Rattle.wires.specs.Lazy.{PutCounts, PutTells, ReadCounts, ReadTells};
ghost use Rattle.wires.specs.LazyMemory.{put_answer, read_answer, wire_of, written_by};

use crate::memory::{copy_front, is_among};
use crate::{Got, LazyPeer, Taken};
use cut_model::NoMemory;
use std::alloc::Global;
use std::marker::Model;

/// Gives its bytes and keeps what is written, in pieces, and fails or isn't ready at some calls.
#[derive(Drop)]
pub struct MemoryLazyPeer {
    bytes: Vec<u8>,
    at: usize,
    ended: bool,
    written: Vec<u8>,
    piece: usize,
    room: usize,
    late: Vec<u32>,
    failing: Vec<u32>,
    calls: u64,
    read_faults: u64,
    write_faults: u64,
    reads_not_yet: u64,
    puts_not_yet: u64,
}

impl Model for MemoryLazyPeer {
    ghost use Rattle.std.specs.Prelude.{◌≡◌, ◌<◌, ◌≤◌, drop, true, vec_capacity, vec_len};
    ghost use Rattle.wires.specs.LazyMemory.{LazyState};

    ghost Value = { LazyState };

    ghost view = { λ p. record {
      left = drop p.at p.bytes.items;
      ended = p.ended;
      written = p.written.items;
      calls = p.calls;
      counts = record {
        read_faults = p.read_faults;
        write_faults = p.write_faults;
        reads_not_yet = p.reads_not_yet;
        puts_not_yet = p.puts_not_yet;
      };
      rules = record { piece = p.piece; room = p.room; late = p.late.items; failing = p.failing.items };
    } };

    ghost invariant = { λ p. (p.at ≤ vec_len p.bytes) × (p.ended ≡ true → p.at ≡ vec_len p.bytes) × (0 < p.piece)
        × (vec_len p.written ≤ p.room) × (p.room ≤ vec_capacity p.written) };
}

impl MemoryLazyPeer {
    /// Gives these bytes and keeps what is written, at most `room` bytes, and moves at most `piece` bytes a
    /// call. It takes the memory of its room at once, so that no call takes any. Reads and puts are counted
    /// together, from 1. A read after an `End` answers `End` again. Else a call whose number is in `failing`
    /// fails, and else one whose number is in `late` isn't ready; neither moves a byte. A put takes what
    /// fits, and fails where there is no room for any of its piece. Of `abcde` in pieces of 3 with `late` 2
    /// the reads into 8 bytes answer `Bytes(3)`, `NotYet`, `Bytes(2)` and `End`. A call looks through both
    /// lists.
    ///
    /// # Errors
    /// [`NoMemory`] where there is none for the room.
    pub fn make(
        alloc: Global,
        bytes: Vec<u8>,
        piece: usize,
        room: usize,
        late: Vec<u32>,
        failing: Vec<u32>,
    ) -> Result<MemoryLazyPeer, NoMemory>
        requires { 0 < piece }
        ensures { IfOk result (λ p. p ≡ record {
          left = bytes.items;
          ended = false;
          written = [];
          calls = 0;
          counts = record { read_faults = 0; write_faults = 0; reads_not_yet = 0; puts_not_yet = 0 };
          rules = record { piece = piece; room = room; late = late.items; failing = failing.items };
        }) }
    {
        Ok(MemoryLazyPeer {
            bytes,
            at: 0,
            ended: false,
            written: Vec::with_capacity(alloc, room)?,
            piece,
            room,
            late,
            failing,
            calls: 0,
            read_faults: 0,
            write_faults: 0,
            reads_not_yet: 0,
            puts_not_yet: 0,
        })
    }

    /// The bytes that were written, as `abc` after puts of `ab` and `c`.
    pub fn written(&self) -> &[u8]
        ensures { result.now ≡ self.now.written }
    {
        self.written.as_slice()
    }
}

impl LazyPeer for MemoryLazyPeer {
    ghost wire = { wire_of };

    ghost counts = { λ p. p.counts };

    ghost beside_lazy = { λ _. nothing_beside };

    fn read_now(&mut self, into: &mut [u8]) -> Got
        ensures tells { ReadTells result into.new (wire_of self.old) (wire_of self.new) }
        ensures counts { ReadCounts result self.old.counts self.new.counts }
        ensures answer { result ≡ read_answer self.old (length into.new) }
        ensures calls { self.new.calls ≡ one_more self.old.calls }
        ensures rules { self.new.rules ≡ self.old.rules }
    {
        self.calls = self.calls.saturating_add(1);
        if self.ended {
            return Got::End;
        }
        if is_among(&self.failing, self.calls) {
            self.read_faults = self.read_faults.saturating_add(1);
            return Got::Failed;
        }
        if is_among(&self.late, self.calls) {
            self.reads_not_yet = self.reads_not_yet.saturating_add(1);
            return Got::NotYet;
        }
        let count = copy_front(&self.bytes[self.at..], self.piece, into);
        if count == 0 && !into.is_empty() {
            self.ended = true;
            return Got::End;
        }
        self.at += count;
        Got::Bytes(count)
    }

    fn put_now(&mut self, bytes: &[u8]) -> Taken
        ensures tells { PutTells result bytes.now (wire_of self.old) (wire_of self.new) }
        ensures counts { PutCounts result self.old.counts self.new.counts }
        ensures answer { result ≡ put_answer self.old (length bytes.now) }
        ensures writes { self.new.written ≡ self.old.written ++ written_by result bytes.now }
        ensures calls { self.new.calls ≡ one_more self.old.calls }
        ensures rules { self.new.rules ≡ self.old.rules }
    {
        self.calls = self.calls.saturating_add(1);
        if is_among(&self.failing, self.calls) {
            self.write_faults = self.write_faults.saturating_add(1);
            return Taken::Failed;
        }
        if is_among(&self.late, self.calls) {
            self.puts_not_yet = self.puts_not_yet.saturating_add(1);
            return Taken::NotYet;
        }
        let room = self.room - self.written.len();
        let count = bytes.len().min(self.piece).min(room);
        if count == 0 && !bytes.is_empty() {
            self.write_faults = self.write_faults.saturating_add(1);
            return Taken::Failed;
        }
        self.written.extend_from_slice(&bytes[..count]).unwrap();
        Taken::Bytes(count)
    }
}
