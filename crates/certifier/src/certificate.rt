//! The certificate of a tree.
ghost use Rattle.std.specs.Prelude.{◌≡◌, ◌+◌, ◌<◌, ◌≤◌, [], length, slice_index, slice_index_or};
ghost use Rattle.certifier.specs.Blocks.{Carried, Fits, LayoutLine, block_place, block_size, certificate_layout};
ghost use Rattle.certifier.specs.Blocks.{layout_size, root_text};
ghost use Rattle.certifier.specs.Lines.{IsLowerEnd, LinesTold, PutsLaidAt, PutsLaidOut, lines_told};
ghost use Rattle.cut_model.specs.declared.network.TheConstants.{MOST_LINKS, MOST_ROUTERS};
ghost use Rattle.reply_lines.specs.Puts.{PutsLine};
ghost use Rattle.reply_lines.specs.declared.run.TheConstants.{MOST_REPLY_LINE_BYTES};
ghost use Rattle.wires.specs.Puts.{Puts};

use crate::blocks::{BlockPlace, find_block, write_block_line};
use crate::room::FlowRoom;
use crate::tree::number_but;
use cut_model::MOST_ROUTERS;
use network_text::{Sheet, sheet_line_count, write_sheet_line};
use reply_lines::{ReplyLines, write_lines};
use tree_state::Finished;
use wires::{Failed, Sink, put_pieces};

/// The lines that [`write_certificate`] writes, told one by one. Contracts see what they are laid out of
/// (`LinesTold`), and what the room carries.
#[derive(Drop)]
pub struct CertificateLines<'a> {
    /// The network with its names.
    pub sheet: &'a Sheet,
    /// Its tree.
    pub finished: &'a Finished,
    /// Holds the flow of the edge that is being told.
    pub room: &'a mut FlowRoom,
    /// The tree is that of the network.
    pub ghost same: { finished.now.tree.net ≡ sheet.now.net },
}

impl<'a> ReplyLines for CertificateLines<'a> {
    ghost Told = { LinesTold };

    ghost Carry = { Carried };

    ghost told = { λ lines. lines_told lines.sheet.now lines.finished.now.tree (certificate_layout lines.sheet.now)
        lines.room.ghost_name };

    ghost carry = { λ lines. lines.room.now };

    ghost line = { λ told. LayoutLine told.sheet.names told.tree told.layout };

    ghost places = { λ told. layout_size told.tree.net told.layout };

    ghost fits = { λ told. Fits told.tree told.layout };

    fn count(&self) -> u64 {
        certificate_line_count(self.sheet)
    }

    fn write_line<K: Sink>(&mut self, place: u64, sink: &mut K) -> Result<(), Failed> {
        write_place(self.sheet, self.finished, place, self.room, sink)
    }
}

/// How many lines [`write_certificate`] writes. For three routers and two links they are 15.
pub fn certificate_line_count(sheet: &Sheet) -> u64
    ensures { result ≡ layout_size sheet.now.net (certificate_layout sheet.now) }
{
    let edge_lines = sheet.net().links().len() as u64 + 1;
    front_line_count(sheet) + u64::from(edge_count(sheet)) * edge_lines + 1
}

/// How many lines are in front of all edges: the title, the lines of the network, and the root.
fn front_line_count(sheet: &Sheet) -> u64
    ensures value { result ≡ length (certificate_layout sheet.now).front }
    ensures few { result ≤ MOST_ROUTERS + MOST_LINKS + 3 }
{
    prove!(sheet.net().routers() <= MOST_ROUTERS);
    sheet_line_count(sheet) + 2
}

/// How many edges there are: one above each router but the root.
fn edge_count(sheet: &Sheet) -> u32
    ensures value { result ≡ length (certificate_layout sheet.now).children }
    ensures few { result < MOST_ROUTERS }
{
    sheet.net().routers() - 1
}

/// The lower end of the edge of this place: the router of that place among all but the root.
fn child_at(sheet: &Sheet, place: u32) -> u32
    requires { place < length (certificate_layout sheet.now).children }
    ensures value { result ≡ slice_index (certificate_layout sheet.now).children place }
    ensures lower { IsLowerEnd sheet.now.net result }
{
    let net = sheet.net();
    prove!(net.routers() <= MOST_ROUTERS);
    number_but(net.root(), place)
}

/// Where a line behind those in front stands among the edges, or behind them.
fn find_edge_line(sheet: &Sheet, place: u64) -> BlockPlace
    requires { length (certificate_layout sheet.now).front ≤ place }
    ensures place { place ≡ block_place sheet.now.net (certificate_layout sheet.now) result.block result.line }
    ensures within { result.line < block_size sheet.now.net }
{
    find_block(place - front_line_count(sheet), sheet.net())
}

/// Writes the line of a place in front of all edges: the title, a line of the network, or the root.
fn write_front_line<K: Sink>(sheet: &Sheet, place: u64, sink: &mut K) -> Result<(), Failed>
    requires { place < length (certificate_layout sheet.now).front }
    ensures short { length (slice_index_or (certificate_layout sheet.now).front place []) ≤ MOST_REPLY_LINE_BYTES }
    ensures puts { Puts K.Sink sink.old sink.new result
        (slice_index_or (certificate_layout sheet.now).front place []) }
{
    let net = sheet.net();
    if place == 0 {
        return put_pieces(&[b"cut tree 1\n"], sink);
    }
    if place <= sheet_line_count(sheet) {
        return write_sheet_line(sheet, place - 1, sink);
    }
    write_root(sheet, net.root(), sink)
}

/// Writes the line that names the root.
fn write_root<K: Sink>(sheet: &Sheet, root: u32, sink: &mut K) -> Result<(), Failed>
    requires { root < length sheet.now.names }
    ensures puts { Puts K.Sink sink.old sink.new result (root_text sheet.now.names root) }
{
    put_pieces(&[b"root ", sheet.name_of(root), b"\n"], sink)
}

/// Writes the line of a place.
fn write_place<K: Sink>(
    sheet: &Sheet,
    finished: &Finished,
    place: u64,
    room: &mut FlowRoom,
    sink: &mut K,
) -> Result<(), Failed>
    requires same { finished.now.tree.net ≡ sheet.now.net }
    requires within { place < layout_size finished.now.tree.net (certificate_layout sheet.now) }
    requires fits { Fits finished.now.tree (certificate_layout sheet.now) place room.old }
    ensures fits { Fits finished.now.tree (certificate_layout sheet.now) (place + 1) room.new }
    ensures puts { PutsLine K.Sink sink.old sink.new result
        (LayoutLine sheet.now.names finished.now.tree (certificate_layout sheet.now)) place room.old room.new }
{
    if place < front_line_count(sheet) {
        return write_front_line(sheet, place, sink);
    }
    let at = find_edge_line(sheet, place);
    if at.block >= u64::from(edge_count(sheet)) {
        return put_pieces(&[b"DONE\n"], sink);
    }
    let child = child_at(sheet, at.block as u32);
    write_block_line("edge", sheet, finished, child, at.line, room, sink)
}

/// Writes the certificate of a tree: a title, the lines of the network, the root, for each other router in number
/// order a line that tells the edge above it, and behind it for each link a line with what a flow of the edge's
/// width, from the router to the one above it, carries on the link; and `DONE`. It takes no memory, and computes a
/// flow for each edge.
///
/// # Errors
/// [`Failed`] where a put failed. A front of the lines was written then.
pub fn write_certificate<K: Sink>(
    sheet: &Sheet,
    finished: &Finished,
    room: &mut FlowRoom,
    sink: &mut K,
) -> Result<(), Failed>
    requires same { finished.now.tree.net ≡ sheet.now.net }
    ensures puts { PutsLaidOut K.Sink sink.old sink.new result sheet.now.names finished.now.tree
        (certificate_layout sheet.now) }
{
    let mut lines = CertificateLines {
        sheet,
        finished,
        room,
    };
    write_lines(&mut lines, sink)
}

/// Writes one of the lines that [`write_certificate`] writes, and answers whether it has it: the line of a place,
/// counted from 0. The first line of an edge puts a flow of it into the room, and the others tell that flow and
/// leave it there, so the room must hold it then.
///
/// # Errors
/// [`Failed`] where a put failed. A front of the line was written then.
pub fn write_certificate_line<K: Sink>(
    sheet: &Sheet,
    finished: &Finished,
    place: u64,
    room: &mut FlowRoom,
    sink: &mut K,
) -> Result<bool, Failed>
    requires same { finished.now.tree.net ≡ sheet.now.net }
    requires fits { Fits finished.now.tree (certificate_layout sheet.now) place room.old }
    ensures fits { Fits finished.now.tree (certificate_layout sheet.now) (place + 1) room.new }
    ensures puts { PutsLaidAt K.Sink sink.old sink.new result
        (lines_told sheet.now finished.now.tree (certificate_layout sheet.now) room.entry.ghost_name) place
        room.old room.new }
{
    if place >= certificate_line_count(sheet) {
        return Ok(false);
    }
    write_place(sheet, finished, place, room, sink)?;
    Ok(true)
}
