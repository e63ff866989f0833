//! The lines of the reply that tells a network.
ghost use Rattle.std.specs.Prelude.{◌≤◌, [], slice_index_or};
ghost use Rattle.network_text.specs.Writing.{sheet_lines};
ghost use Rattle.query_lang.specs.Replies.{net_lines};
ghost use Rattle.wires.specs.Puts.{Puts};

use crate::replies::write_head;
use network_text::{Sheet, sheet_line_count, write_sheet_line};
use wires::{Failed, Sink};

/// Writes a line of the reply to NET: the first tells how many lines follow, and the others are those of a
/// network text that loads the network again.
#[tactic(auto, unfolding(crate::specs::Replies::net_lines))]
pub(crate) fn write_net_line<K: Sink>(
    version: u32,
    sheet: &Sheet,
    place: u64,
    sink: &mut K,
) -> Result<(), Failed>
    requires place { place ≤ sheet_lines sheet.now }
    ensures puts { Puts K.Sink sink.old sink.new result (slice_index_or (net_lines version sheet.now) place []) }
{
    if place == 0 {
        return write_head(version, "NET", sheet_line_count(sheet), sink);
    }
    write_sheet_line(sheet, place - 1, sink)
}
