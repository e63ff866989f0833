//! Writing a sheet as a network text.

ghost use Rattle.std.specs.Prelude.{◌≡◌, ◌+◌, ◌<◌, ◌≤◌, [], length, map, slice_index_or, Ok};
ghost use Rattle.std.specs.List.{concat};
ghost use Rattle.network_text.specs.Sheets.{IsSheet};
ghost use Rattle.cut_model.specs.declared.network.TheConstants.{MOST_LINKS, MOST_ROUTERS};
ghost use Rattle.network_text.specs.Writing.{link_text, name_at, router_text, sheet_lines, sheet_text, text_lines};
ghost use Rattle.network_text.specs.Writing.{verdict_in};
ghost use Rattle.wires.specs.Puts.{Puts};

use crate::sheet::Sheet;
use cut_model::Link;
use itoa::Buffer;
use wires::{Failed, Sink, put_pieces};

/// Writes the sheet as a network text that has this sheet again: a `router` line for each router in
/// number order, a `link` line for each link in order, and END. Of the sheet of `link b a 007` the lines
/// are `router b`, `router a`, `link b a 7` and `END`. It takes no memory and looks at each router and each
/// link once.
///
/// # Errors
/// [`Failed`] where a put failed. A front of the text was written then.
pub fn write_sheet<K: Sink>(sheet: &Sheet, sink: &mut K) -> Result<(), Failed>
    ensures puts { Puts K.Sink sink.old sink.new result (sheet_text sheet.now) }
    ensures same_sheet { verdict_in (sheet_text sheet.now) ≡ Ok sheet.now }
{
    write_routers(sheet, sink)?;
    write_links(sheet, sink)?;
    put_pieces(&[b"END\n"], sink)
}

/// Writes the line of each router.
fn write_routers<K: Sink>(sheet: &Sheet, sink: &mut K) -> Result<(), Failed>
    ensures puts { Puts K.Sink sink.old sink.new result (concat (map router_text sheet.now.names)) }
    ensures sheet { IsSheet sheet.now.names sheet.now.net }
{
    for router in 0..sheet.net().routers() {
        write_router(sheet, router, sink)?;
    }
    Ok(())
}

/// Writes the line of a router: of router 0 behind `link b a 007` it is `router b`.
///
/// # Errors
/// [`Failed`] where a put failed. A front of the line was written then.
pub fn write_router<K: Sink>(sheet: &Sheet, router: u32, sink: &mut K) -> Result<(), Failed>
    requires { router < length sheet.now.names }
    ensures puts { Puts K.Sink sink.old sink.new result (router_text (name_at sheet.now.names router)) }
{
    put_pieces(&[b"router ", sheet.name_of(router), b"\n"], sink)
}

/// Writes the line of each link.
fn write_links<K: Sink>(sheet: &Sheet, sink: &mut K) -> Result<(), Failed>
    ensures puts { Puts K.Sink sink.old sink.new result
        (concat (map (link_text sheet.now.names) sheet.now.net.links)) }
{
    for link in sheet.net().links() {
        write_link(sheet, *link, sink)?;
    }
    Ok(())
}

/// Writes the line of a link: behind `link b a 007` that of the first one is `link b a 7`.
///
/// # Errors
/// [`Failed`] where a put failed. A front of the line was written then.
pub fn write_link<K: Sink>(sheet: &Sheet, link: Link, sink: &mut K) -> Result<(), Failed>
    requires a { link.a < length sheet.now.names }
    requires b { link.b < length sheet.now.names }
    ensures puts { Puts K.Sink sink.old sink.new result (link_text sheet.now.names link) }
{
    let mut digits = Buffer::new();
    put_pieces(
        &[
            b"link ",
            sheet.name_of(link.a),
            b" ",
            sheet.name_of(link.b),
            b" ",
            digits.format(link.cap).as_bytes(),
            b"\n",
        ],
        sink,
    )
}

/// How many lines the text of a sheet has: one for each router and each link, and END. Behind `link b a 007`
/// they are 4.
pub fn sheet_line_count(sheet: &Sheet) -> u64
    ensures value { result ≡ sheet_lines sheet.now }
    ensures few { result ≤ MOST_ROUTERS + MOST_LINKS + 1 }
{
    let net = sheet.net();
    u64::from(net.routers()) + net.links().len() as u64 + 1
}

/// Writes the line of a place, counted from 0, of the text of a sheet. It takes no memory, and finds the line
/// without going over others: behind `link b a 007` that of place 2 is `link b a 7`.
///
/// # Errors
/// [`Failed`] where a put failed. A front of the line was written then.
pub fn write_sheet_line<K: Sink>(sheet: &Sheet, place: u64, sink: &mut K) -> Result<(), Failed>
    requires place { place < sheet_lines sheet.now }
    ensures puts { Puts K.Sink sink.old sink.new result (slice_index_or (text_lines sheet.now) place []) }
{
    let routers = u64::from(sheet.net().routers());
    if place < routers {
        return write_router(sheet, place as u32, sink);
    }
    let links = sheet.net().links();
    let behind = place - routers;
    if behind < links.len() as u64 {
        return write_link(sheet, links[behind as usize], sink);
    }
    put_pieces(&[b"END\n"], sink)
}
