//! What is found once for a reply: the edge that a cut is told of, or a path.
ghost use Rattle.std.specs.Prelude.{◌≡◌, ◌<◌, ◌≤◌, ℕ, [], IsTrue, Some, All, codes, length, slice_index_or};
ghost use Rattle.cut_model.specs.Terminals.{terminal_count};
ghost use Rattle.network_text.specs.Sheets.{IsSheet};
ghost use Rattle.query_lang.specs.Edges.{IsPassed};
ghost use Rattle.query_lang.specs.Found.{IsFound, found_lines};
ghost use Rattle.query_lang.specs.Replies.{cut_text};
ghost use Rattle.query_lang.specs.Reports.{IsCutReport, IsPathReport, IsWeakestReport, TellsReport};
ghost use Rattle.query_lang.specs.Requests.{AreEnds, IsOf, is_report};
ghost use Rattle.query_lang.specs.Trees.{path_text};
ghost use Rattle.wires.specs.Puts.{Puts};

use crate::Request;
use crate::cuts::write_cut;
use crate::nets::write_net_line;
use crate::subject::Subject;
use crate::trees::{PassedEdges, write_path_line, write_run_line, write_tree_line};
use cut_model::{MOST_ROUTERS, Side};
use network_text::sheet_line_count;
use path_minimum::{PathRoom, least_on_path_uncounted, path, side_by_ladder};
use wires::{Failed, Sink};

/// A cut: its value, and the routers on its side.
#[derive(Drop)]
pub(crate) struct FoundCut {
    pub(crate) value: u64,
    pub(crate) side: Side,
}

/// What a reply tells, with what was found for it.
#[derive(Drop)]
pub(crate) enum Found<'a> {
    /// The least cut of two terminals.
    Cut(FoundCut),
    /// A path, by the lower ends of its edges.
    Path(&'a [u32]),
    /// The tree.
    Tree,
    /// The run that made it.
    Run,
    /// The network.
    Net,
    /// The least cut of the whole network.
    Weakest(FoundCut),
}

/// What CUT tells: the least edge of the path between two terminals gives a least cut of them, with the
/// routers on the first one's side.
fn find_least_cut(subject: &Subject, a: u32, b: u32) -> FoundCut
    requires { AreEnds subject.now.sheet.now a b }
    ensures report { (version : ℕ) → IsCutReport version subject.now.sheet.now subject.now.finished.now.tree a b
        (cut_text version (codes "CUT") result.value subject.now.sheet.now.names result.side) }
    ensures size { length result.side ≡ length subject.now.sheet.now.names }
{
    prove!(a.max(b) < subject.sheet.net().routers());
    let least = least_on_path_uncounted(subject.ladder, subject.finished, a, b);
    let side = side_by_ladder(subject.ladder, subject.finished, least.child, a);
    FoundCut {
        value: least.width,
        side,
    }
}

/// What PATH tells: the edges of the path between two terminals, in their order.
fn find_path<'a>(subject: &Subject, a: u32, b: u32, room: &'a mut PathRoom) -> &'a [u32]
    requires { AreEnds subject.now.sheet.now a b }
    ensures report { (version : ℕ) → IsPathReport version subject.now.sheet.now subject.now.finished.now.tree a b
        (path_text version subject.now.sheet.now subject.now.finished.now.tree result.now) }
    ensures within { All (λ child. child < subject.now.sheet.now.net.routers) result.now }
{
    path(subject.finished, a, b, room);
    room.children()
}

/// What WEAKEST tells: the weakest edge gives a least cut of the whole network, with the routers below it.
fn find_weakest(subject: &Subject) -> FoundCut
    requires { 2 ≤ terminal_count subject.now.sheet.now.net }
    ensures report { (version : ℕ) → IsWeakestReport version subject.now.sheet.now subject.now.finished.now.tree
        (cut_text version (codes "WEAKEST") result.value subject.now.sheet.now.names result.side) }
    ensures size { length result.side ≡ length subject.now.sheet.now.names }
{
    prove!(subject.sheet.net().routers() <= MOST_ROUTERS);
    let Some(cut) = subject.ladder.weakest(subject.finished) else {
        unreachable!()
    };
    FoundCut {
        value: cut.edge.width,
        side: cut.side,
    }
}

/// What the reply to a request tells. It looks at each router a few times at most.
pub(crate) fn find_reply<'a>(
    subject: &Subject,
    request: &Request,
    room: &'a mut PathRoom,
) -> Found<'a>
    requires report { IsTrue (is_report request.now) }
    requires of { IsOf (Some subject.now.sheet.now) request.now }
    ensures found { IsFound subject.now.sheet.now result }
    ensures sheet { IsSheet subject.now.sheet.now.names subject.now.sheet.now.net }
    ensures report { (version : ℕ) → TellsReport version subject.now.sheet.now subject.now.finished.now.tree
        request.now (found_lines version subject.now.sheet.now subject.now.finished.now.tree result) }
{
    prove!(subject.sheet.net().routers() <= MOST_ROUTERS);
    match *request {
        Request::Cut(a, b) => Found::Cut(find_least_cut(subject, a, b)),
        Request::Path(a, b) => Found::Path(find_path(subject, a, b, room)),
        Request::Tree => Found::Tree,
        Request::Run => Found::Run,
        Request::Net => Found::Net,
        Request::Weakest => Found::Weakest(find_weakest(subject)),
        Request::Nothing
        | Request::Load
        | Request::Witness(_, _)
        | Request::Certificate
        | Request::Bye => unreachable!(),
    }
}

/// How many lines the reply has.
pub(crate) fn line_count(subject: &Subject, found: &Found) -> u64
    requires { IsSheet subject.now.sheet.now.names subject.now.sheet.now.net }
    ensures { (version : ℕ) → result ≡ length (found_lines version subject.now.sheet.now
        subject.now.finished.now.tree found.now) }
{
    match found {
        Found::Cut(_) | Found::Weakest(_) => 1,
        Found::Path(children) => {
            let path: &[u32] = children;
            path.len() as u64 + 1
        }
        Found::Tree | Found::Run => u64::from(subject.finished.commits()) + 1,
        Found::Net => sheet_line_count(subject.sheet) + 1,
    }
}

/// Writes the line of the reply at a place, counted from 0, in time that the line's length bounds; for an edge
/// of TREE the search goes on where the last one ended.
pub(crate) fn write_found_line<K: Sink>(
    version: u32,
    subject: &Subject,
    found: &Found,
    passed: &mut PassedEdges,
    place: u64,
    sink: &mut K,
) -> Result<(), Failed>
    requires place { place < length (found_lines version subject.now.sheet.now
        subject.now.finished.now.tree found.now) }
    requires sheet { IsSheet subject.now.sheet.now.names subject.now.sheet.now.net }
    requires found { IsFound subject.now.sheet.now found.now }
    requires passed { IsPassed subject.now.finished.now.tree.net passed.old }
    ensures passed { IsPassed subject.now.finished.now.tree.net passed.new }
    ensures puts { Puts K.Sink sink.old sink.new result (slice_index_or
        (found_lines version subject.now.sheet.now subject.now.finished.now.tree found.now) place []) }
{
    match found {
        Found::Cut(cut) => { write_cut(version, "CUT", cut.value, subject.sheet, &cut.side, sink) }
        Found::Path(children) => {
            let path: &[u32] = children;
            write_path_line(version, subject, path, place, sink)
        }
        Found::Tree => write_tree_line(version, subject, passed, place, sink),
        Found::Run => write_run_line(version, subject, place, sink),
        Found::Net => write_net_line(version, subject.sheet, place, sink),
        Found::Weakest(cut) => {
            write_cut(
                version,
                "WEAKEST",
                cut.value,
                subject.sheet,
                &cut.side,
                sink,
            )
        }
    }
}
