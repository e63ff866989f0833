//! Runs of lines of what a record answers.
ghost use Rattle.std.specs.Prelude.{◌≡◌, ◌+◌, ◌<◌, ◌≤◌, IsTrue, Some, length};
ghost use Rattle.certifier.specs.Blocks.{Carried, Fits, Layout, layout_size};
ghost use Rattle.query_lang.specs.Replies.{head_text};
ghost use Rattle.query_lang.specs.Requests.{AreEnds, IsOf, is_report, needs_record};
ghost use Rattle.query_lang.specs.declared.request.Request.TheVariants.{Certificate, Witness};
ghost use Rattle.reply_lines.specs.Tails.{Leads, spot};
ghost use Rattle.session.specs.Reporting.{LaysOut, Tells, size_in};
ghost use Rattle.tree_versions.specs.Records.{tree_of};

use crate::desk::Asked;
use certifier::{
    CertificateLines, FlowRoom, WitnessLines, certificate_line_count, witness_line_count,
};
use cut_model::MOST_ROUTERS;
use path_minimum::{PathRoom, path};
use query_lang::{Report, Request, write_head};
use reply_lines::{LineRun, ReplyLines, fill_run};
use tree_versions::Record;

/// Where a writer stands in a reply: the place behind a run, and how many lines are left from there on.
#[derive(Clone, Copy)]
pub(crate) struct Reached {
    pub(crate) place: u64,
    pub(crate) left: u64,
}

/// The rooms in which a path is found, and the flow of an edge is held while it is told.
#[derive(Drop)]
pub(crate) struct Rooms {
    pub(crate) path: PathRoom,
    pub(crate) flows: FlowRoom,
}

/// Fills a run with lines from a place on.
fn run_lines<L: ReplyLines>(lines: &mut L, from: u64, run: &mut LineRun) -> Reached
    requires within { from ≤ L.places (L.told lines.old) }
    requires fits { L.fits (L.told lines.old) from (L.carry lines.old) }
    ensures fits { L.fits (L.told lines.old) result.place (L.carry lines.new) }
    ensures told { L.told lines.new ≡ L.told lines.old }
    ensures leads { Leads L.Carry (L.line (L.told lines.old))
        (spot (L.places (L.told lines.old)) from (L.carry lines.old)) run.new.rest
        (record { left = result.left; place = result.place; carry = L.carry lines.new }) }
    ensures places { result.place + result.left ≡ L.places (L.told lines.old) }
    ensures some { from < L.places (L.told lines.old) → from < result.place }
{
    let count = lines.count();
    let place = fill_run(lines, from, run);
    Reached {
        place,
        left: count - place,
    }
}

/// Fills a run with the first line of a reply alone, which tells a word and how many lines follow.
fn run_head(version: u32, word: &str, lines: u64, run: &mut LineRun) -> Reached
    requires short { length word.now ≤ 16 }
    ensures run { run.new.rest ≡ head_text version word.now lines }
    ensures place { result.place ≡ 1 }
    ensures left { result.left ≡ lines }
{
    run.clear();
    write_head(version, word, lines, run).unwrap();
    Reached {
        place: 1,
        left: lines,
    }
}

/// Fills a run with lines of a report from a place on.
fn run_report(
    asked: &Asked,
    from: u64,
    made: &Record,
    path: &mut PathRoom,
    run: &mut LineRun,
) -> Reached
    requires report { IsTrue (is_report asked.now.request) }
    requires of { IsOf (Some made.now.sheet) asked.now.request }
    requires within { (layout : Layout) → LaysOut made.now asked.now.version asked.now.request layout
        → from ≤ size_in made.now layout }
    ensures { (carry : Carried) → Tells made.now asked.now from carry run.new.rest
        (record { left = result.left; place = result.place; carry = carry }) }
{
    let mut report = Report::find(
        asked.version,
        made.sheet(),
        made.finished(),
        made.ladder(),
        &asked.request,
        path,
    );
    run_lines(&mut report, from, run)
}

/// Fills a run with lines of the flows on the path of two routers from a place on.
fn run_witness(
    asked: &Asked,
    ends: (u32, u32),
    from: u64,
    made: &Record,
    rooms: &mut Rooms,
    run: &mut LineRun,
) -> Reached
    requires is { asked.now.request ≡ Witness ends.0 ends.1 }
    requires of { AreEnds made.now.sheet ends.0 ends.1 }
    requires within { (layout : Layout) → LaysOut made.now asked.now.version asked.now.request layout
        → from ≤ size_in made.now layout }
    requires fits { (layout : Layout) → LaysOut made.now asked.now.version asked.now.request layout
        → Fits (tree_of made.now) layout from rooms.old.flows }
    ensures { Tells made.now asked.now from rooms.old.flows run.new.rest
        (record { left = result.left; place = result.place; carry = rooms.new.flows }) }
{
    prove!(made.sheet().net().routers() <= MOST_ROUTERS);
    path(made.finished(), ends.0, ends.1, &mut rooms.path);
    let children = rooms.path.children();
    if from == 0 {
        let count = witness_line_count(made.sheet(), children);
        return run_head(asked.version, "WITNESS", count, run);
    }
    let mut lines = WitnessLines {
        sheet: made.sheet(),
        finished: made.finished(),
        children,
        room: &mut rooms.flows,
    };
    let reached = run_lines(&mut lines, from - 1, run);
    Reached {
        place: reached.place + 1,
        left: reached.left,
    }
}

/// Fills a run with lines of the certificate from a place on.
fn run_certificate(
    asked: &Asked,
    from: u64,
    made: &Record,
    rooms: &mut Rooms,
    run: &mut LineRun,
) -> Reached
    requires is { asked.now.request ≡ Certificate }
    requires within { (layout : Layout) → LaysOut made.now asked.now.version asked.now.request layout
        → from ≤ size_in made.now layout }
    requires fits { (layout : Layout) → LaysOut made.now asked.now.version asked.now.request layout
        → Fits (tree_of made.now) layout from rooms.old.flows }
    ensures { Tells made.now asked.now from rooms.old.flows run.new.rest
        (record { left = result.left; place = result.place; carry = rooms.new.flows }) }
{
    prove!(made.sheet().net().routers() <= MOST_ROUTERS);
    if from == 0 {
        let count = certificate_line_count(made.sheet());
        return run_head(asked.version, "CERTIFICATE", count, run);
    }
    let mut lines = CertificateLines {
        sheet: made.sheet(),
        finished: made.finished(),
        room: &mut rooms.flows,
    };
    let reached = run_lines(&mut lines, from - 1, run);
    Reached {
        place: reached.place + 1,
        left: reached.left,
    }
}

/// Fills a run with lines of the reply to what was asked of a record, from a place on.
pub(crate) fn run_asked(
    asked: &Asked,
    from: u64,
    made: &Record,
    rooms: &mut Rooms,
    run: &mut LineRun,
) -> Reached
    requires needs { IsTrue (needs_record asked.now.request) }
    requires of { IsOf (Some made.now.sheet) asked.now.request }
    requires within { (layout : Layout) → LaysOut made.now asked.now.version asked.now.request layout
        → from ≤ size_in made.now layout }
    requires fits { (layout : Layout) → LaysOut made.now asked.now.version asked.now.request layout
        → Fits (tree_of made.now) layout from rooms.old.flows }
    ensures { Tells made.now asked.now from rooms.old.flows run.new.rest
        (record { left = result.left; place = result.place; carry = rooms.new.flows }) }
{
    match asked.request {
        Request::Witness(a, b) => run_witness(asked, (a, b), from, made, rooms, run),
        Request::Certificate => run_certificate(asked, from, made, rooms, run),
        _ => run_report(asked, from, made, &mut rooms.path, run),
    }
}
