//! A run of lines that is written and not yet taken.
ghost use Rattle.std.specs.Prelude.{◌≡◌, ◌≤◌, drop, length, nat_le, IfOk, Some};
ghost use Rattle.reply_lines.specs.Runs.{empty_run};
ghost use Rattle.wires.specs.Beside.{nothing_beside};

use cut_model::NoMemory;
use std::alloc::Global;
use std::marker::Model;
use wires::{Failed, Sink};

/// The most bytes that a line of a reply has, its line feed among them. The longest one is that to CUT or
/// WEAKEST, with the longest names of the most routers on one side: some 33,940.
pub const MOST_REPLY_LINE_BYTES: usize = 34_000;

/// From so many bytes on a run takes no further line.
pub const RUN_BYTES: usize = 65_536;

/// How many bytes a run has room for: one more line stands behind fewer than [`RUN_BYTES`].
const ROOM_BYTES: usize = RUN_BYTES + MOST_REPLY_LINE_BYTES;

/// A run of lines, of which a front was taken. Contracts see a `RunView`: the bytes that weren't taken yet,
/// and how many more there is room for. As a sink it surely takes what fits.
///
/// After a put of `ab` and `pass(1)`, `rest()` gives `b`.
#[derive(Drop)]
pub struct LineRun {
    bytes: Vec<u8>,
    passed: usize,
    faults: u64,
}

impl Model for LineRun {
    ghost use Rattle.std.specs.Prelude.{◌≤◌, ◌-◌, drop, vec_capacity, vec_len};
    ghost use Rattle.reply_lines.specs.Runs.{RunView};
    ghost use Rattle.reply_lines.specs.declared.run.TheConstants.{ROOM_BYTES};

    ghost Value = { RunView };

    ghost view = { λ r. record {
      rest = drop r.passed r.bytes.items;
      room = ROOM_BYTES - vec_len r.bytes;
      faults = r.faults;
    } };

    ghost invariant = { λ r.
        (r.passed ≤ vec_len r.bytes) × (vec_len r.bytes ≤ ROOM_BYTES) × (ROOM_BYTES ≤ vec_capacity r.bytes) };
}

impl LineRun {
    /// An empty run.
    ///
    /// # Errors
    /// [`NoMemory`] where its memory can't be had: [`RUN_BYTES`], and [`MOST_REPLY_LINE_BYTES`] beside.
    pub fn make(alloc: Global) -> Result<LineRun, NoMemory>
        ensures { IfOk result (λ run. run ≡ empty_run 0) }
    {
        Ok(LineRun {
            bytes: Vec::with_capacity(alloc, ROOM_BYTES)?,
            passed: 0,
            faults: 0,
        })
    }

    /// The bytes that weren't taken yet.
    #[inline]
    pub fn rest(&self) -> &[u8]
        ensures { result.now ≡ self.now.rest }
    {
        &self.bytes[self.passed..]
    }

    /// So many bytes more were taken.
    #[inline]
    pub fn pass(&mut self, count: usize)
        requires { count ≤ length self.old.rest }
        ensures rest { self.new.rest ≡ drop count self.old.rest }
        ensures room { self.new.room ≡ self.old.room }
        ensures faults { self.new.faults ≡ self.old.faults }
    {
        self.passed += count;
    }

    /// Drops what there is, and has all its room again.
    #[inline]
    pub fn clear(&mut self)
        ensures { self.new ≡ empty_run self.old.faults }
    {
        self.bytes.clear();
        self.passed = 0;
    }
}

impl Sink for LineRun {
    ghost written = { λ run. Some run.rest };

    ghost write_faults = { λ run. run.faults };

    ghost beside_sink = { λ _. nothing_beside };

    ghost takes = { λ run n. nat_le n run.room };

    fn put(&mut self, bytes: &[u8]) -> Result<(), Failed> {
        if bytes.len() > ROOM_BYTES - self.bytes.len() {
            self.faults = self.faults.saturating_add(1);
            return Err(Failed);
        }
        self.bytes.extend_from_slice(bytes).unwrap();
        Ok(())
    }
}
