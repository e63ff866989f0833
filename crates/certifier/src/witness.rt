//! The lines that show for each edge of a path that its width can flow.
ghost use Rattle.std.specs.Prelude.{◌≡◌, ◌+◌, ◌<◌, ◌≤◌, All, length};
ghost use Rattle.certifier.specs.Blocks.{Carried, Fits, LayoutLine, layout_size, witness_layout};
ghost use Rattle.certifier.specs.Lines.{IsLowerEnd, LinesTold, PutsBlock, PutsLaidAt, PutsLaidOut, lines_told};
ghost use Rattle.cut_model.specs.declared.network.TheConstants.{MOST_ROUTERS};
ghost use Rattle.reply_lines.specs.Puts.{PutsLine};

use crate::blocks::{find_block, write_block_line};
use crate::room::FlowRoom;
use network_text::Sheet;
use reply_lines::ReplyLines;
use tree_state::Finished;
use wires::{Failed, Sink};

/// The lines that [`write_witness`] writes, told one by one. Contracts see what they are laid out of
/// (`LinesTold`), and what the room carries.
#[derive(Drop)]
pub struct WitnessLines<'a> {
    /// The network with its names.
    pub sheet: &'a Sheet,
    /// Its tree.
    pub finished: &'a Finished,
    /// The lower ends of the edges that are told, in the order in which they are told.
    pub children: &'a [u32],
    /// Holds the flow of the edge that is being told.
    pub room: &'a mut FlowRoom,
    /// The tree is that of the network.
    pub ghost same: { finished.now.tree.net ≡ sheet.now.net },
    /// Edges lead up from these routers.
    pub ghost lower: { All (IsLowerEnd sheet.now.net) children.now },
    /// There are no more of them than routers.
    pub ghost few: { length children.now ≤ MOST_ROUTERS },
}

impl<'a> ReplyLines for WitnessLines<'a> {
    ghost Told = { LinesTold };

    ghost Carry = { Carried };

    ghost told = { λ lines. lines_told lines.sheet.now lines.finished.now.tree (witness_layout lines.children.now)
        lines.room.ghost_name };

    ghost carry = { λ lines. lines.room.now };

    ghost line = { λ told. LayoutLine told.sheet.names told.tree told.layout };

    ghost places = { λ told. layout_size told.tree.net told.layout };

    ghost fits = { λ told. Fits told.tree told.layout };

    fn count(&self) -> u64 {
        witness_line_count(self.sheet, self.children)
    }

    fn write_line<K: Sink>(&mut self, place: u64, sink: &mut K) -> Result<(), Failed> {
        write_place(
            self.sheet,
            self.finished,
            self.children,
            place,
            self.room,
            sink,
        )
    }
}

/// How many lines [`write_witness`] writes: for each of these routers one, and one for each link. For two edges of a
/// network of three links they are 8.
pub fn witness_line_count(sheet: &Sheet, children: &[u32]) -> u64
    requires few { length children.now ≤ MOST_ROUTERS }
    ensures { result ≡ layout_size sheet.now.net (witness_layout children.now) }
{
    children.len() as u64 * (sheet.net().links().len() as u64 + 1)
}

/// Writes the line of a place.
fn write_place<K: Sink>(
    sheet: &Sheet,
    finished: &Finished,
    children: &[u32],
    place: u64,
    room: &mut FlowRoom,
    sink: &mut K,
) -> Result<(), Failed>
    requires same { finished.now.tree.net ≡ sheet.now.net }
    requires lower { All (IsLowerEnd sheet.now.net) children.now }
    requires within { place < layout_size finished.now.tree.net (witness_layout children.now) }
    requires fits { Fits finished.now.tree (witness_layout children.now) place room.old }
    ensures fits { Fits finished.now.tree (witness_layout children.now) (place + 1) room.new }
    ensures puts { PutsLine K.Sink sink.old sink.new result
        (LayoutLine sheet.now.names finished.now.tree (witness_layout children.now)) place room.old room.new }
{
    let at = find_block(place, sheet.net());
    let child = children[at.block as usize];
    write_block_line("flow", sheet, finished, child, at.line, room, sink)
}

/// Writes for each of these routers a line that tells the edge above it, and behind it for each link a line with
/// what a flow of the edge's width, from the router to the one above it, carries on the link. It takes no memory,
/// and computes a flow for each edge.
///
/// For routers a, b and c in a row, with links of 5 and 4, it writes for the path from c to b the lines `flow c b 4`,
/// `on 0` and `on -4`.
///
/// # Errors
/// [`Failed`] where a put failed. A front of the lines was written then.
pub fn write_witness<K: Sink>(
    sheet: &Sheet,
    finished: &Finished,
    children: &[u32],
    room: &mut FlowRoom,
    sink: &mut K,
) -> Result<(), Failed>
    requires same { finished.now.tree.net ≡ sheet.now.net }
    requires lower { All (IsLowerEnd sheet.now.net) children.now }
    ensures puts { PutsLaidOut K.Sink sink.old sink.new result sheet.now.names finished.now.tree
        (witness_layout children.now) }
{
    for block in 0..children.len() {
        write_block(sheet, finished, children, block, room, sink)?;
    }
    Ok(())
}

/// Writes all lines of a block.
fn write_block<K: Sink>(
    sheet: &Sheet,
    finished: &Finished,
    children: &[u32],
    block: usize,
    room: &mut FlowRoom,
    sink: &mut K,
) -> Result<(), Failed>
    requires same { finished.now.tree.net ≡ sheet.now.net }
    requires lower { All (IsLowerEnd sheet.now.net) children.now }
    requires within { block < length children.now }
    ensures puts { PutsBlock K.Sink sink.old sink.new result
        (lines_told sheet.now finished.now.tree (witness_layout children.now) room.entry.ghost_name) block
        room.old room.new }
{
    for k in 0..sheet.net().links().len() as u32 + 1 {
        write_block_line("flow", sheet, finished, children[block], k, room, sink)?;
    }
    Ok(())
}

/// Writes one of the lines that [`write_witness`] writes, and answers whether it has it: the line of a place,
/// counted from 0. The first line of an edge puts a flow of it into the room, and the others tell that flow and
/// leave it there, so the room must hold it then.
///
/// # Errors
/// [`Failed`] where a put failed. A front of the line was written then.
pub fn write_witness_line<K: Sink>(
    sheet: &Sheet,
    finished: &Finished,
    children: &[u32],
    place: u64,
    room: &mut FlowRoom,
    sink: &mut K,
) -> Result<bool, Failed>
    requires same { finished.now.tree.net ≡ sheet.now.net }
    requires lower { All (IsLowerEnd sheet.now.net) children.now }
    requires fits { Fits finished.now.tree (witness_layout children.now) place room.old }
    ensures fits { Fits finished.now.tree (witness_layout children.now) (place + 1) room.new }
    ensures puts { PutsLaidAt K.Sink sink.old sink.new result
        (lines_told sheet.now finished.now.tree (witness_layout children.now) room.entry.ghost_name) place
        room.old room.new }
{
    let at = find_block(place, sheet.net());
    if at.block >= children.len() as u64 {
        return Ok(false);
    }
    write_place(sheet, finished, children, place, room, sink)?;
    Ok(true)
}
