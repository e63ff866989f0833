//! Runs of a small reply, in ample memory.
ghost use Rattle.std.specs.Prelude.{◌≡◌, ℕ, codes};

use crate::{LineRun, ReplyLines, fill_run, write_lines};
use std::test::Fail;
use wires::{Failed, Sink};

/// A reply of so many lines, each of them an `x`.
#[derive(Drop)]
struct Marks {
    lines: u64,
}

impl ReplyLines for Marks {
    ghost Told = { ℕ };

    ghost Carry = { Unit {0} };

    ghost told = { λ marks. marks.lines };

    ghost carry = { λ _. tt };

    ghost line = { λ _ _ _ line _. line ≡ codes "x\n" };

    ghost places = { λ n. n };

    ghost fits = { λ _ _ _. Unit {0} };

    fn count(&self) -> u64 {
        self.lines
    }

    fn write_line<K: Sink>(&mut self, _place: u64, sink: &mut K) -> Result<(), Failed> {
        sink.put(b"x\n")
    }
}

#[test]
fn a_run_holds_the_lines_from_a_place_on(rt: HostRuntime) -> Result<(), Fail> {
    let mut run = LineRun::make(rt.alloc())?;
    let mut marks = Marks { lines: 3 };
    assert_eq!(rt; fill_run(&mut marks, 1, &mut run), 3);
    assert_eq!(rt; run.rest(), b"x\nx\n".as_slice());
    run.pass(3);
    assert_eq!(rt; run.rest(), b"\n".as_slice());
    write_lines(&mut marks, &mut run)?;
    assert_eq!(rt; run.rest(), b"\nx\nx\nx\n".as_slice());
    assert_eq!(rt; fill_run(&mut marks, 3, &mut run), 3);
    assert_eq!(rt; run.rest(), b"".as_slice());
    Ok(())
}
