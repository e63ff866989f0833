//! Runs of lines, and all lines.
ghost use Rattle.std.specs.Prelude.{◌≡◌, ◌+◌, ◌<◌, ◌≤◌, length};
ghost use Rattle.reply_lines.specs.Puts.{PutsLines};
ghost use Rattle.reply_lines.specs.Tails.{Leads, spot};
ghost use Rattle.reply_lines.specs.declared.run.TheConstants.{MOST_REPLY_LINE_BYTES, RUN_BYTES};

use crate::lines::ReplyLines;
use crate::run::{LineRun, RUN_BYTES};
use wires::{Failed, Sink};

/// Fills a run, in place of what it held, with the lines of a reply from a place on, as long as fewer than
/// [`RUN_BYTES`] bytes are in it and a line is left. Answers the place behind the last one. It takes no
/// memory.
///
/// Of a reply of three short lines, `fill_run(&mut lines, 1, &mut run)` gives 3, and the run holds the last two.
pub fn fill_run<L: ReplyLines>(lines: &mut L, from: u64, run: &mut LineRun) -> u64
    requires within { from ≤ L.places (L.told lines.old) }
    requires fits { L.fits (L.told lines.old) from (L.carry lines.old) }
    ensures fits { L.fits (L.told lines.old) result (L.carry lines.new) }
    ensures told { L.told lines.new ≡ L.told lines.old }
    ensures leads { Leads L.Carry (L.line (L.told lines.old))
        (spot (L.places (L.told lines.old)) from (L.carry lines.old)) run.new.rest
        (spot (L.places (L.told lines.old)) result (L.carry lines.new)) }
    ensures within { result ≤ L.places (L.told lines.old) }
    ensures some { from < L.places (L.told lines.old) → from < result }
    ensures whole { result < L.places (L.told lines.old) → RUN_BYTES ≤ length run.new.rest }
    ensures few { length run.new.rest ≤ RUN_BYTES + MOST_REPLY_LINE_BYTES }
{
    run.clear();
    let count = lines.count();
    let mut place = from;
    while place < count && run.rest().len() < RUN_BYTES {
        lines.write_line(place, run).unwrap();
        place += 1;
    }
    place
}

/// Writes all lines of a reply, in their order. It takes no memory.
///
/// # Errors
/// [`Failed`] where a put failed. The lines before that one were written, and a front of it.
pub fn write_lines<L: ReplyLines, K: Sink>(lines: &mut L, sink: &mut K) -> Result<(), Failed>
    requires fits { L.fits (L.told lines.old) 0 (L.carry lines.old) }
    ensures told { L.told lines.new ≡ L.told lines.old }
    ensures puts { PutsLines K.Sink sink.old sink.new result (L.line (L.told lines.old))
        (L.places (L.told lines.old)) (L.carry lines.old) }
{
    for place in 0..lines.count() {
        lines.write_line(place, sink)?;
    }
    Ok(())
}
