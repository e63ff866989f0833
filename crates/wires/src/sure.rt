//! A source in memory that never fails.
ghost use Rattle.std.specs.Prelude.{◌≡◌, ℕ, ◌<◌, ◌||◌, List, length, drop, min, true, false, IsTrue, Some};
ghost use Rattle.std.specs.Result.{IsOk};
ghost use Rattle.std.specs.Io.{ReadsAtMost};
ghost use Rattle.std.specs.Io.KnownBytes.{ReadConsumes};
ghost use Rattle.wires.specs.Beside.{nothing_beside};
ghost use Rattle.wires.specs.Bytes.{answers_end};

use crate::memory::copy_front;
use crate::{Failed, Source};
use std::marker::Model;

/// Gives its bytes, as many as there is room for, and never fails.
#[derive(Drop)]
pub struct SureSource {
    bytes: Vec<u8>,
    at: usize,
    ended: bool,
}

impl Model for SureSource {
    ghost use Rattle.std.specs.Prelude.{◌≡◌, ◌≤◌, drop, true, vec_len};
    ghost use Rattle.wires.specs.Memory.{Sure};

    ghost Value = { Sure };

    ghost view = { λ s. record { left = drop s.at s.bytes.items; ended = s.ended } };

    ghost invariant = { λ s. (s.at ≤ vec_len s.bytes) × (s.ended ≡ true → s.at ≡ vec_len s.bytes) };
}

impl SureSource {
    /// A source of these bytes. Of `abc` the reads into 2 bytes answer `Ok(2)`, `Ok(1)` and `Ok(0)`.
    pub fn make(bytes: Vec<u8>) -> SureSource
        ensures { result ≡ record { left = bytes.items; ended = false } }
    {
        SureSource {
            bytes,
            at: 0,
            ended: false,
        }
    }
}

impl Source for SureSource {
    ghost left = { λ s. Some s.left };

    ghost ended = { λ s. s.ended };

    ghost read_faults = { λ _. 0 };

    ghost beside_source = { λ _. nothing_beside };

    fn read(&mut self, into: &mut [u8]) -> Result<usize, Failed>
        ensures bound { ReadsAtMost result into.new }
        ensures bytes { ReadConsumes (Some self.old.left) (Some self.new.left) result into.new }
        ensures met { self.new.ended ≡ (self.old.ended || answers_end result into.new) }
        ensures stays { IsTrue self.old.ended → result ≡ Ok 0 }
        ensures gives { result ≡ Ok (min (length self.old.left) (length into.new)) }
    {
        if self.ended {
            return Ok(0);
        }
        let rest = &self.bytes[self.at..];
        let count = copy_front(rest, rest.len(), into);
        self.at += count;
        self.ended = count == 0 && !into.is_empty();
        Ok(count)
    }
}
