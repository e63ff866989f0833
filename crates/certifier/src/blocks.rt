//! The lines of a block, which tells an edge of a tree and a flow from its lower end.
ghost use Rattle.std.specs.Prelude.{◌≡◌, ℕ, suc, ◌+◌, ◌*◌, ◌<◌, ◌≤◌, length, pos, slice_index_or};
ghost use Rattle.certifier.specs.Blocks.{BlockLine, CarriesFlow, block_size, edge_text, on_text};
ghost use Rattle.certifier.specs.Lines.{IsLowerEnd, words_text};
ghost use Rattle.reply_lines.specs.Puts.{PutsLine};
ghost use Rattle.reply_lines.specs.declared.run.TheConstants.{MOST_REPLY_LINE_BYTES};
ghost use Rattle.wires.specs.Puts.{Puts};

use crate::room::FlowRoom;
use cut_model::Network;
use itoa::Buffer;
use network_text::Sheet;
use tree_state::Finished;
use wires::{Failed, Sink, put_pieces};

/// Where a line of a block stands: the number of the block, and the place of the line in it, both counted from 0.
#[derive(Clone, Copy)]
pub(crate) struct BlockPlace {
    pub(crate) block: u64,
    pub(crate) line: u32,
}

/// Where the line of a place among blocks stands, each of which has one line more than the network has links.
pub(crate) fn find_block(place: u64, net: &Network) -> BlockPlace
    ensures place { place ≡ result.block * block_size net.now + result.line }
    ensures within { result.line < block_size net.now }
{
    let size = net.links().len() as u64 + 1;
    BlockPlace {
        block: place / size,
        line: (place % size) as u32,
    }
}

/// Writes the line of a place of the block of a router, counted from 0: the first one puts a flow of its edge into
/// the room, and the others tell the flow that the room holds, link by link.
pub(crate) fn write_block_line<K: Sink>(
    word: &str,
    sheet: &Sheet,
    finished: &Finished,
    child: u32,
    line: u32,
    room: &mut FlowRoom,
    sink: &mut K,
) -> Result<(), Failed>
    requires word { length word.now ≤ 4 }
    requires same { finished.now.tree.net ≡ sheet.now.net }
    requires child { IsLowerEnd sheet.now.net child }
    requires within { line < block_size sheet.now.net }
    requires carried { (link : ℕ) → line ≡ suc link → CarriesFlow finished.now.tree child room.old }
    ensures carried { CarriesFlow finished.now.tree child room.new }
    ensures puts { PutsLine K.Sink sink.old sink.new result
        (BlockLine word.now sheet.now.names finished.now.tree child) line room.old room.new }
{
    if line == 0 {
        return write_edge(word, sheet, finished, child, room, sink);
    }
    write_value(room, line - 1, sink)
}

/// Writes the first line of the block of a router, and puts a flow of its edge into the room.
fn write_edge<K: Sink>(
    word: &str,
    sheet: &Sheet,
    finished: &Finished,
    child: u32,
    room: &mut FlowRoom,
    sink: &mut K,
) -> Result<(), Failed>
    requires word { length word.now ≤ 4 }
    requires same { finished.now.tree.net ≡ sheet.now.net }
    requires child { IsLowerEnd sheet.now.net child }
    ensures carried { CarriesFlow finished.now.tree child room.new }
    ensures short { length (edge_text word.now sheet.now.names finished.now.tree child) ≤ MOST_REPLY_LINE_BYTES }
    ensures puts { Puts K.Sink sink.old sink.new result
        (edge_text word.now sheet.now.names finished.now.tree child) }
{
    prove!(child < sheet.net().routers());
    let up = finished.up(child);
    room.put_flow(finished.net(), child, up);
    write_words(word, sheet, child, up, finished.width(child), sink)
}

/// Writes the words of an edge.
fn write_words<K: Sink>(
    word: &str,
    sheet: &Sheet,
    child: u32,
    up: u32,
    width: u64,
    sink: &mut K,
) -> Result<(), Failed>
    requires child { child < length sheet.now.names }
    requires up { up < length sheet.now.names }
    ensures puts { Puts K.Sink sink.old sink.new result (words_text word.now sheet.now.names child up width) }
{
    let mut digits = Buffer::new();
    put_pieces(
        &[
            word.as_bytes(),
            b" ",
            sheet.name_of(child),
            b" ",
            sheet.name_of(up),
            b" ",
            digits.format(width).as_bytes(),
            b"\n",
        ],
        sink,
    )
}

/// Writes the line of the flow on a link.
fn write_value<K: Sink>(room: &FlowRoom, link: u32, sink: &mut K) -> Result<(), Failed>
    requires { link < length room.now.net.links }
    ensures short { length (on_text (slice_index_or room.now.flow link (pos 0))) ≤ MOST_REPLY_LINE_BYTES }
    ensures puts { Puts K.Sink sink.old sink.new result (on_text (slice_index_or room.now.flow link (pos 0))) }
{
    let mut digits = Buffer::new();
    put_pieces(
        &[b"on ", digits.format(room.flow_on(link)).as_bytes(), b"\n"],
        sink,
    )
}
