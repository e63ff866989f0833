//! Replies that are read from a network and its tree.
ghost use Rattle.std.specs.Prelude.{◌≡◌, IsTrue, Some};
ghost use Rattle.path_minimum.specs.Ladders.{IsLadderOf};
ghost use Rattle.query_lang.specs.Reports.{IsReport, PutsLineOf, PutsSome};
ghost use Rattle.query_lang.specs.Requests.{IsOf, is_report};

use crate::Request;
use crate::report::Report;
use network_text::Sheet;
use path_minimum::{Ladder, PathRoom};
use reply_lines::{ReplyLines, write_lines};
use tree_state::Finished;
use wires::{Failed, Sink};

/// Writes the reply to CUT, PATH, TREE, RUN, NET or WEAKEST, from a network with the names of its
/// routers, the finished run over it and the ladder of its tree. It takes no memory. For NET it looks
/// at each router and each link once, and for each other request at each router a few times.
///
/// For routers a, b and c in a row, with links of 5 and 7, `Request::Cut(0, 2)` at version 1 writes
/// `@1 CUT 5 side a`.
///
/// # Errors
/// [`Failed`] where a put failed. A front of the reply was written then.
pub fn write_reply<K: Sink>(
    version: u32,
    sheet: &Sheet,
    finished: &Finished,
    ladder: &Ladder,
    request: &Request,
    room: &mut PathRoom,
    sink: &mut K,
) -> Result<(), Failed>
    requires report { IsTrue (is_report request.now) }
    requires of { IsOf (Some sheet.now) request.now }
    requires same { finished.now.tree.net ≡ sheet.now.net }
    requires ladder { IsLadderOf finished.now.tree ladder.now }
    ensures puts { PutsSome K.Sink sink.old sink.new result
        (IsReport version sheet.now finished.now.tree request.now) }
{
    let mut report = Report::find(version, sheet, finished, ladder, request, room);
    write_lines(&mut report, sink)
}

/// Writes one line of the reply that [`write_reply`] writes, and answers whether the reply has it: the line of
/// a place, counted from 0. For TREE it looks at each router, for CUT, PATH and WEAKEST at each a few times.
///
/// For routers a, b and c in a row, with links of 5 and 7, place 2 of `Request::Path(0, 2)` is `c b 7`, and
/// the reply has no place 3.
///
/// # Errors
/// [`Failed`] where a put failed. A front of the line was written then.
pub fn write_reply_line<K: Sink>(
    version: u32,
    sheet: &Sheet,
    finished: &Finished,
    ladder: &Ladder,
    request: &Request,
    place: u64,
    room: &mut PathRoom,
    sink: &mut K,
) -> Result<bool, Failed>
    requires report { IsTrue (is_report request.now) }
    requires of { IsOf (Some sheet.now) request.now }
    requires same { finished.now.tree.net ≡ sheet.now.net }
    requires ladder { IsLadderOf finished.now.tree ladder.now }
    ensures puts { PutsLineOf K.Sink sink.old sink.new result
        (IsReport version sheet.now finished.now.tree request.now) place }
{
    let mut report = Report::find(version, sheet, finished, ladder, request, room);
    if place >= report.count() {
        return Ok(false);
    }
    report.write_line(place, sink)?;
    Ok(true)
}
