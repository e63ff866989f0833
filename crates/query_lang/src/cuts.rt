//! Replies that tell a cut: its value, and the names of the routers on its side.
ghost use Rattle.std.specs.Prelude.{◌≡◌, ◌≤◌, length};
ghost use Rattle.network_text.specs.NameTexts.{blank_names_between};
ghost use Rattle.query_lang.specs.Replies.{cut_head, cut_text, side_names};
ghost use Rattle.wires.specs.Puts.{Puts};

use crate::runs::{Run, next_run};
use cut_model::Side;
use itoa::Buffer;
use network_text::Sheet;
use wires::{Failed, Sink, put_pieces};

/// Writes a space and the name of each router of a run.
fn write_run<K: Sink>(sheet: &Sheet, run: Run, sink: &mut K) -> Result<(), Failed>
    requires order { run.begin ≤ run.end }
    requires within { run.end ≤ length sheet.now.names }
    ensures puts { Puts K.Sink sink.old sink.new result (blank_names_between sheet.now.names run.begin run.end) }
{
    put_pieces(&[sheet.names_between(run.begin, run.end)], sink)
}

/// Writes a space and the name of each router of the side, in number order, run by run.
fn write_names<K: Sink>(sheet: &Sheet, side: &Side, sink: &mut K) -> Result<(), Failed>
    requires { length side.now ≡ length sheet.now.names }
    ensures puts { Puts K.Sink sink.old sink.new result (side_names sheet.now.names side.now) }
{
    let mut from = 0;
    while from < side.size() {
        let run = next_run(side, from);
        write_run(sheet, run, sink)?;
        from = run.end;
    }
    Ok(())
}

/// Writes the first words of a reply that tells a cut, up to the names.
fn write_cut_head<K: Sink>(version: u32, word: &str, value: u64, sink: &mut K) -> Result<(), Failed>
    ensures puts { Puts K.Sink sink.old sink.new result (cut_head version word.now value) }
{
    let mut version_digits = Buffer::new();
    let mut value_digits = Buffer::new();
    put_pieces(
        &[
            b"@",
            version_digits.format(version).as_bytes(),
            b" ",
            word.as_bytes(),
            b" ",
            value_digits.format(value).as_bytes(),
            b" side",
        ],
        sink,
    )
}

/// Writes a reply that tells a cut: its word, the cut's value, and the names of the routers of the
/// side, in number order. It looks at 64 routers at once, and puts the names of a run of routers at once.
#[tactic(auto, unfolding(crate::specs::Replies::cut_text))]
pub(crate) fn write_cut<K: Sink>(
    version: u32,
    word: &str,
    value: u64,
    sheet: &Sheet,
    side: &Side,
    sink: &mut K,
) -> Result<(), Failed>
    requires { length side.now ≡ length sheet.now.names }
    ensures puts { Puts K.Sink sink.old sink.new result
        (cut_text version word.now value sheet.now.names side.now) }
{
    write_cut_head(version, word, value, sink)?;
    write_names(sheet, side, sink)?;
    put_pieces(&[b"\n"], sink)
}
