//! A sink that keeps no byte and never fails.
ghost use Rattle.std.specs.Prelude.{◌≡◌, ◌+◌, ◌-◌, ◌^◌, length, min, true, None};
ghost use Rattle.wires.specs.Beside.{nothing_beside};

use crate::{Failed, Sink};
use std::marker::Model;

/// Counts the bytes that are put, and tells and keeps none of them: 5 behind puts of `ab` and `cde`.
#[derive(Drop)]
pub struct CountingSink {
    count: u64,
}

impl Model for CountingSink {
    ghost use Rattle.std.specs.Prelude.{ℕ};

    ghost Value = { ℕ };

    ghost view = { λ s. s.count };
}

impl CountingSink {
    /// A sink to which nothing was put.
    pub fn make() -> CountingSink
        ensures { result ≡ 0 }
    {
        CountingSink { count: 0 }
    }

    /// How many bytes were put. The count stays at 2^64 - 1.
    pub fn count(&self) -> u64
        ensures { result ≡ self.now }
    {
        self.count
    }
}

impl Sink for CountingSink {
    ghost written = { λ _. None };

    ghost write_faults = { λ _. 0 };

    ghost beside_sink = { λ _. nothing_beside };

    ghost takes = { λ _ _. true };

    fn put(&mut self, bytes: &[u8]) -> Result<(), Failed>
        ensures never_fails { result ≡ Ok tt }
        ensures count { self.new ≡ min (self.old + length bytes.now) (2 ^ 64 - 1) }
    {
        self.count = self.count.saturating_add(bytes.len() as u64);
        Ok(())
    }
}
