//! The lines of replies that tell edges of a tree, or the commits that made it.
ghost use Rattle.std.specs.Prelude.{◌≡◌, ◌<◌, ◌≤◌, [], All, Some, length, slice_get, slice_index, slice_index_or};
ghost use Rattle.query_lang.specs.Edges.{IsPassed};
ghost use Rattle.query_lang.specs.Trees.{child_line, children_of, edge_line, is_child};
ghost use Rattle.query_lang.specs.Trees.{path_lines, run_lines, tree_lines};
ghost use Rattle.wires.specs.Puts.{Puts};

use crate::replies::write_head;
use crate::subject::Subject;
use cut_model::{MOST_ROUTERS, Network};
use itoa::Buffer;
use network_text::Sheet;
use tree_state::Entry;
use wires::{Failed, Sink, put_pieces};

/// Writes the line of an edge: the names of its lower end and of the router above it, and a number.
fn write_edge<K: Sink>(
    sheet: &Sheet,
    child: u32,
    above: u32,
    number: u64,
    sink: &mut K,
) -> Result<(), Failed>
    requires child { child < length sheet.now.names }
    requires above { above < length sheet.now.names }
    ensures puts { Puts K.Sink sink.old sink.new result (edge_line sheet.now.names child above number) }
{
    let mut digits = Buffer::new();
    put_pieces(
        &[
            sheet.name_of(child),
            b" ",
            sheet.name_of(above),
            b" ",
            digits.format(number).as_bytes(),
            b"\n",
        ],
        sink,
    )
}

/// Writes the line of the edge that leads up from a router, with its width.
fn write_child_line<K: Sink>(subject: &Subject, child: u32, sink: &mut K) -> Result<(), Failed>
    requires within { child < subject.now.sheet.now.net.routers }
    ensures puts { Puts K.Sink sink.old sink.new result
        (child_line subject.now.sheet.now.names subject.now.finished.now.tree child) }
{
    prove!(child < subject.sheet.net().routers());
    let above = subject.finished.up(child);
    write_edge(
        subject.sheet,
        child,
        above,
        subject.finished.width(child),
        sink,
    )
}

/// How many edges of a tree have their lower ends below a router: where a search for an edge by its number
/// goes on, so that lines in their order are found in one pass.
#[derive(Clone, Copy)]
pub(crate) struct PassedEdges {
    pub(crate) router: u32,
    pub(crate) edges: u32,
}

/// Whether an edge leads up from a router: it is a terminal but not the root.
fn is_lower_end(net: &Network, router: u32) -> bool
    requires { router < net.now.routers }
    ensures { result ≡ is_child net.now router }
{
    net.is_terminal(router) && router != net.root()
}

/// Where to search for the edge of a number: where the last search ended, or before all routers where that
/// is too far.
fn search_from(passed: PassedEdges, edge: u32, net: &Network) -> PassedEdges
    requires passed { IsPassed net.now passed }
    ensures passed { IsPassed net.now result }
    ensures not_too_far { result.edges ≤ edge }
{
    if passed.edges <= edge {
        return passed;
    }
    PassedEdges {
        router: 0,
        edges: 0,
    }
}

/// The lower end of the edge of a number, in the order of these ends. The search goes on where the last one
/// ended, or begins anew where that is too far.
fn find_child(net: &Network, edge: u32, passed: &mut PassedEdges) -> u32
    requires edge { edge < length (children_of net.now) }
    requires passed { IsPassed net.now passed.old }
    ensures child { result ≡ slice_index (children_of net.now) edge }
    ensures within { result < net.now.routers }
    ensures passed { IsPassed net.now passed.new }
{
    let from = search_from(*passed, edge, net);
    let mut edges = from.edges;
    for router in from.router..net.routers() {
        if is_lower_end(net, router) {
            if edges == edge {
                *passed = PassedEdges {
                    router: router + 1,
                    edges: edges + 1,
                };
                return router;
            }
            edges += 1;
        }
    }
    unreachable!()
}

/// Writes a line of the reply to TREE: the first tells the number of edges, and the others are the edges by
/// their lower ends. Lines that are written in their order look at each router once, all together.
#[tactic(auto, unfolding(crate::specs::Trees::tree_lines))]
pub(crate) fn write_tree_line<K: Sink>(
    version: u32,
    subject: &Subject,
    passed: &mut PassedEdges,
    place: u64,
    sink: &mut K,
) -> Result<(), Failed>
    requires place { place ≤ length (children_of subject.now.finished.now.tree.net) }
    requires passed { IsPassed subject.now.finished.now.tree.net passed.old }
    ensures passed { IsPassed subject.now.finished.now.tree.net passed.new }
    ensures puts { Puts K.Sink sink.old sink.new result (slice_index_or
        (tree_lines version subject.now.sheet.now subject.now.finished.now.tree) place []) }
{
    let net = subject.finished.net();
    let edges = subject.finished.commits();
    prove!(net.routers() <= MOST_ROUTERS);
    if place == 0 {
        return write_head(version, "TREE", u64::from(edges), sink);
    }
    let child = find_child(net, (place - 1) as u32, passed);
    write_child_line(subject, child, sink)
}

/// The entry of the commit at a place. The sheet has names for its two routers.
fn named_entry<'a>(subject: &Subject<'a>, place: u32) -> &'a Entry
    requires within { place < length subject.now.finished.now.tree.history }
    ensures value { slice_get subject.now.finished.now.tree.history place ≡ Some result.now }
    ensures router { result.now.router < length subject.now.sheet.now.names }
    ensures neighbour { result.now.neighbour < length subject.now.sheet.now.names }
{
    prove!(subject.finished.net().routers() == subject.sheet.net().routers());
    subject.finished.entry(place)
}

/// Writes a line of the reply to RUN: the first tells the number of commits, and the others are the commits,
/// the oldest first.
#[tactic(auto, unfolding(crate::specs::Trees::run_lines))]
pub(crate) fn write_run_line<K: Sink>(
    version: u32,
    subject: &Subject,
    place: u64,
    sink: &mut K,
) -> Result<(), Failed>
    requires place { place ≤ length subject.now.finished.now.tree.history }
    ensures puts { Puts K.Sink sink.old sink.new result (slice_index_or
        (run_lines version subject.now.sheet.now subject.now.finished.now.tree) place []) }
{
    let commits = subject.finished.commits();
    if place == 0 {
        return write_head(version, "RUN", u64::from(commits), sink);
    }
    let entry = named_entry(subject, (place - 1) as u32);
    write_edge(
        subject.sheet,
        entry.router,
        entry.neighbour,
        entry.value,
        sink,
    )
}

/// Writes a line of the reply to PATH: the first tells the number of edges, and the others are the edges that
/// lead up from these routers, in their order.
#[tactic(auto, unfolding(crate::specs::Trees::path_lines))]
pub(crate) fn write_path_line<K: Sink>(
    version: u32,
    subject: &Subject,
    children: &[u32],
    place: u64,
    sink: &mut K,
) -> Result<(), Failed>
    requires place { place ≤ length children.now }
    requires within { All (λ child. child < subject.now.sheet.now.net.routers) children.now }
    ensures puts { Puts K.Sink sink.old sink.new result (slice_index_or
        (path_lines version subject.now.sheet.now subject.now.finished.now.tree children.now) place []) }
{
    if place == 0 {
        return write_head(version, "PATH", children.len() as u64, sink);
    }
    write_child_line(subject, children[(place - 1) as usize], sink)
}
