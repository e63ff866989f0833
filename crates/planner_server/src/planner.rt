//! The top call.
ghost use Rattle.std.specs.Prelude.{◌≡◌, ◌≢◌, ◌<◌, ◌≤◌, ◌↔◌, ◌⊎◌, [], All, None, false};
ghost use Rattle.std.specs.Prelude.{drop, length, map, IfOk, IfSome};
ghost use Rattle.std.specs.String.{string_bytes};
ghost use Rattle.desks.specs.Doors.{AnyRose, door_view};
ghost use Rattle.job_queue.specs.declared.jobs.TheConstants.{MOST_WORKERS};
ghost use Rattle.planner_server.specs.Commands.{IsInRanges, IsOpen, command_of};
ghost use Rattle.planner_server.specs.Runs.{CheckRan, IsMadeSummary, IsUntouched, MakeEnds, PlanRan, Ran};
ghost use Rattle.planner_server.specs.Runs.{ReadsNothing, ServeEnds, doors_asked, ports, served_text, sink_view};
ghost use Rattle.planner_server.specs.Statuses.{CountsPut, is_read_fault, is_write_fault, serve_status, status_of};
ghost use Rattle.tree_versions.specs.Records.{AreCutTrees, AreFinished};
ghost use Rattle.tree_versions.specs.Solo.{IsSoundShelf, views_of};
ghost use Rattle.tree_versions.specs.declared.shelf.TheConstants.{MOST_RECORDS};
ghost use Rattle.wires.specs.Causes.{CountsOne, Rose};
ghost use Rattle.wires.specs.Puts.{Puts};

use crate::command::{Command, Making, Serving, read_command};
use crate::{Outcome, Status};
use certifier::{CheckEnd, check};
use cut_model::NoMemory;
use desks::{Opening, serve_doors};
use itoa::Buffer;
use job_queue::MOST_WORKERS;
use made_networks::{Summary, make_network, sum_up, write_summary};
use path_minimum::Ladder;
use session::{Session, SessionEnd, serve_session};
use std::alloc::Global;
use std::sync::{Arc, Wait};
use std::thread::Threads;
use tree_versions::SoloShelf;
use wires::{Door, Failed, Pair, Sink, Source, put_pieces};
use worker_gate::{Gate, build_tree};

/// All that `plan` needs: a session, and the shelf on which its records are published.
#[derive(Drop)]
struct Planner {
    session: Session,
    shelf: SoloShelf,
}

impl Planner {
    /// Takes all memory that a session needs beside that of the texts that it loads.
    fn make(alloc: Global, workers: u32) -> Result<Planner, NoMemory>
        requires some { 0 < workers }
        requires most { workers ≤ MOST_WORKERS }
        ensures { IfOk result (λ planner. planner.shelf.records ≡ []) }
    {
        Ok(Planner {
            session: Session::make(alloc, workers)?,
            shelf: SoloShelf::make(alloc)?,
        })
    }
}

/// The end of a run that leaves no records.
fn without_records(alloc: Global, status: Status) -> Outcome
    ensures status { result.status ≡ status }
    ensures records { views_of result.records.items ≡ [] }
{
    Outcome {
        status,
        records: Vec::new(alloc),
    }
}

impl From<SessionEnd> for Status {
    ghost use Rattle.planner_server.specs.Statuses.{status_of};

    ghost from_gives = { λ end status. status ≡ status_of end };

    fn from(end: SessionEnd) -> Status {
        match end {
            SessionEnd::Done => Status::Done,
            SessionEnd::ReadFault => Status::ReadFault,
            SessionEnd::WriteFault => Status::WriteFault,
            SessionEnd::TooLong => Status::TooLong,
        }
    }
}

impl From<CheckEnd> for Status {
    ghost use Rattle.planner_server.specs.Statuses.{check_status};

    ghost from_gives = { λ end status. status ≡ check_status end };

    fn from(end: CheckEnd) -> Status {
        match end {
            CheckEnd::Accepted => Status::Done,
            CheckEnd::Refused { .. } => Status::NotAccepted,
            CheckEnd::ReadFault => Status::ReadFault,
            CheckEnd::WriteFault => Status::WriteFault,
            CheckEnd::TooLong => Status::TooLong,
            CheckEnd::NoMemory => Status::NoMemory,
        }
    }
}

/// Serves a source and a sink as one peer.
fn serve_both<R: Threads + Wait + Sync, S: Source, K: Sink, G: Gate + Sync>(
    alloc: Global,
    rt: &R,
    session: &mut Session,
    shelf: &mut SoloShelf,
    source: &mut S,
    sink: &mut K,
    gate: &G,
) -> SessionEnd
    requires none { shelf.old.records ≡ [] }
    ensures ran { PlanRan (status_of result) (record {
      start = ports S.Source K.Sink source.old sink.old;
      now = ports S.Source K.Sink source.new sink.new;
      records = shelf.new.records;
    }) }
    ensures few { length shelf.new.records ≤ MOST_RECORDS }
    ensures runs { AreFinished shelf.new.records }
    ensures trees { AreCutTrees shelf.new.records }
    ensures read_cause { CountsOne (S.read_faults source.old) (S.read_faults source.new)
        (is_read_fault (status_of result)) }
    ensures write_cause { CountsOne (K.write_faults sink.old) (K.write_faults sink.new)
        (is_write_fault (status_of result)) }
    ensures beside_source { S.beside_source source.new ≡ S.beside_source source.old }
    ensures beside_sink { K.beside_sink sink.new ≡ K.beside_sink sink.old }
{
    serve_session(alloc, rt, session, shelf, &mut Pair { source, sink }, gate)
}

/// The command `plan`: one session over the source and the sink.
fn plan<R: Threads + Wait + Sync, S: Source, K: Sink, G: Gate + Sync>(
    alloc: Global,
    rt: &R,
    workers: u32,
    source: &mut S,
    sink: &mut K,
    gate: &G,
) -> Outcome
    requires some { 0 < workers }
    requires most { workers ≤ MOST_WORKERS }
    ensures ran { PlanRan result.status (record {
      start = ports S.Source K.Sink source.old sink.old;
      now = ports S.Source K.Sink source.new sink.new;
      records = views_of result.records.items;
    }) }
    ensures good_words { result.status ≢ Status.BadWords }
    ensures untouched { result.status ≡ Status.NoMemory
        → (source.new ≡ source.old) × (sink.new ≡ sink.old) × (views_of result.records.items ≡ []) }
    ensures few { length (views_of result.records.items) ≤ MOST_RECORDS }
    ensures runs { AreFinished (views_of result.records.items) }
    ensures trees { AreCutTrees (views_of result.records.items) }
    ensures read_cause { CountsOne (S.read_faults source.old) (S.read_faults source.new)
        (is_read_fault result.status) }
    ensures write_cause { CountsOne (K.write_faults sink.old) (K.write_faults sink.new)
        (is_write_fault result.status) }
    ensures beside_source { S.beside_source source.new ≡ S.beside_source source.old }
    ensures beside_sink { K.beside_sink sink.new ≡ K.beside_sink sink.old }
{
    let Ok(planner) = Planner::make(alloc, workers) else {
        return without_records(alloc, Status::NoMemory);
    };
    let Planner {
        mut session,
        mut shelf,
    } = planner;
    let end = serve_both(alloc, rt, &mut session, &mut shelf, source, sink, gate);
    Outcome {
        status: Status::from(end),
        records: shelf.into_records(),
    }
}

/// The command `check`: what the source tells is read as a certificate, and the line of the verdict on it is put.
fn check_text<S: Source, K: Sink>(alloc: Global, source: &mut S, sink: &mut K) -> Outcome
    ensures ran { CheckRan result.status (record {
      start = ports S.Source K.Sink source.old sink.old;
      now = ports S.Source K.Sink source.new sink.new;
      records = views_of result.records.items;
    }) }
    ensures good_words { result.status ≢ Status.BadWords }
    ensures no_record { views_of result.records.items ≡ [] }
    ensures read_cause { CountsOne (S.read_faults source.old) (S.read_faults source.new)
        (is_read_fault result.status) }
    ensures write_cause { CountsOne (K.write_faults sink.old) (K.write_faults sink.new)
        (is_write_fault result.status) }
    ensures beside_source { S.beside_source source.new ≡ S.beside_source source.old }
    ensures beside_sink { K.beside_sink sink.new ≡ K.beside_sink sink.old }
{
    let end = check(alloc, source, sink);
    without_records(alloc, Status::from(end))
}

/// The summary of the network that is asked for, by a tree of it that the workers build. Any tree of it has this one
/// summary.
fn made_summary<R: Threads + Wait + Sync, G: Gate + Sync>(
    alloc: Global,
    rt: &R,
    making: Making,
    gate: &G,
) -> Result<Summary, NoMemory>
    requires { IsInRanges making }
    ensures { IfOk result (λ summary. IsMadeSummary making summary) }
{
    let net = make_network(alloc, making.seed, making.routers, making.links)?;
    let net = Arc::new(alloc, net)?;
    let tree = build_tree(alloc, rt, &net, making.workers, gate)?;
    let ladder = Ladder::make(alloc, &tree)?;
    Ok(sum_up(&tree, &ladder))
}

/// The command `make`: the summary of the network that is asked for is put.
fn make<R: Threads + Wait + Sync, K: Sink, G: Gate + Sync>(
    alloc: Global,
    rt: &R,
    making: Making,
    sink: &mut K,
    gate: &G,
) -> Outcome
    requires { IsInRanges making }
    ensures ends { MakeEnds making result.status (K.written sink.old) (K.written sink.new) }
    ensures completes { (Rose (K.write_faults sink.old) (K.write_faults sink.new) → ⊥)
        → (result.status ≡ Status.Done) ⊎ (result.status ≡ Status.NoMemory) }
    ensures good_words { result.status ≢ Status.BadWords }
    ensures no_read { is_read_fault result.status ≡ false }
    ensures untouched { result.status ≡ Status.NoMemory → sink.new ≡ sink.old }
    ensures no_record { views_of result.records.items ≡ [] }
    ensures write_cause { CountsOne (K.write_faults sink.old) (K.write_faults sink.new)
        (is_write_fault result.status) }
    ensures beside_sink { K.beside_sink sink.new ≡ K.beside_sink sink.old }
{
    let Ok(summary) = made_summary(alloc, rt, making, gate) else {
        return without_records(alloc, Status::NoMemory);
    };
    match write_summary(&summary, sink) {
        Ok(()) => without_records(alloc, Status::Done),
        Err(_) => without_records(alloc, Status::WriteFault),
    }
}

/// Puts the last line of `serve`: how many sessions ended, and how many records there are.
#[tactic(auto, unfolding(crate::specs::Runs::served_text))]
fn put_served<K: Sink>(sessions: u64, versions: u64, sink: &mut K) -> Result<(), Failed>
    ensures { Puts K.Sink sink.old sink.new result (served_text sessions versions) }
{
    let mut session_digits = Buffer::new();
    let mut version_digits = Buffer::new();
    put_pieces(
        &[
            b"served ",
            session_digits.format(sessions).as_bytes(),
            b" versions ",
            version_digits.format(versions).as_bytes(),
            b"\n",
        ],
        sink,
    )
}

/// The status that `serve` ends with.
fn status_behind(failed: bool, written: Result<(), Failed>) -> Status
    ensures { result ≡ serve_status failed written }
{
    if failed {
        return Status::DoorFault;
    }
    match written {
        Ok(()) => Status::Done,
        Err(_) => Status::WriteFault,
    }
}

/// The command `serve`: the clients of the first doors are served, and then the last line is put.
fn serve<R: Threads + Wait + Sync, K: Sink, D: Door + Send + Drop, G: Gate + Sync>(
    alloc: Global,
    rt: &R,
    serving: Serving,
    sink: &mut K,
    doors: &mut Vec<D>,
    gate: &G,
) -> Outcome
where
    D::Client: Send,
    requires open { IsOpen serving }
    requires nobody { All (λ door. D.out door ≡ None) doors.old.items }
    ensures ends { ServeEnds serving result.status (views_of result.records.items) (record {
      olds = map (door_view D.Door D.Client.Source D.Client.Sink) doors.old.items;
      news = map (door_view D.Door D.Client.Source D.Client.Sink) doors.new.items;
    }) (sink_view K.Sink sink.old) (sink_view K.Sink sink.new) }
    ensures completes { (Rose (K.write_faults sink.old) (K.write_faults sink.new) → ⊥)
        → (AnyRose (map (door_view D.Door D.Client.Source D.Client.Sink) doors.old.items)
        (map (door_view D.Door D.Client.Source D.Client.Sink) doors.new.items) → ⊥)
        → (result.status ≡ Status.Done) ⊎ (result.status ≡ Status.NoMemory) }
    ensures put_cause { (Rose (K.write_faults sink.old) (K.write_faults sink.new) → ⊥)
        → result.status ≡ Status.WriteFault → ⊥ }
    ensures door_cause { result.status ≡ Status.DoorFault
        → AnyRose (map (door_view D.Door D.Client.Source D.Client.Sink) doors.old.items)
        (map (door_view D.Door D.Client.Source D.Client.Sink) doors.new.items) }
    ensures others { drop serving.desks doors.new.items ≡ drop serving.desks doors.old.items }
    ensures good_words { result.status ≢ Status.BadWords }
    ensures no_read { is_read_fault result.status ≡ false }
    ensures untouched { result.status ≡ Status.NoMemory → (sink.new ≡ sink.old)
        × (views_of result.records.items ≡ []) }
    ensures kept { result.status ≡ Status.NoMemory → doors.new.items ≡ doors.old.items }
    ensures sound { IsSoundShelf (views_of result.records.items) }
    ensures write_cause { CountsPut result.status (K.write_faults sink.old) (K.write_faults sink.new) }
    ensures beside_sink { K.beside_sink sink.new ≡ K.beside_sink sink.old }
{
    let opening = Opening {
        desks: serving.desks,
        sessions: serving.sessions,
        workers: serving.workers,
    };
    let Ok(served) = serve_doors(alloc, rt, opening, doors, gate) else {
        return without_records(alloc, Status::NoMemory);
    };
    let written = put_served(served.clients, served.records.len() as u64, sink);
    Outcome {
        status: status_behind(served.failed, written),
        records: served.records,
    }
}

/// Runs the command that the words name, over the source and the sink.
///
/// `plan`, with the option `--workers`, is a session that reads request lines to the end of the input or to BYE,
/// and puts one reply for each item. At most so many workers build the tree of a network that is loaded, and the
/// gate computes their cuts. The contract says for each status what was written: the replies to the whole items
/// of the bytes that were taken, over the records that are handed back. What a source or a sink doesn't tell of its
/// bytes is left open.
///
/// Each reply to CUT prints a cut between its two routers that no other cut between them undercuts:
/// what a text must be to be such a reply is `IsCutReport` (`query_lang/specs/Reports.antt`), and that
/// is its field `least`. That to WEAKEST is so for the whole network (`IsWeakestReport`).
///
/// `check` reads a certificate, and puts one line: that it is accepted, or its first fault. The contract says that
/// this is the verdict on the bytes that were taken (`verdict_on` in `certifier/specs/Certificates.antt`).
///
/// `make`, with the options `--seed`, `--routers` and `--links`, and `--workers`, reads nothing, and puts three lines:
/// the summary of the network that the three numbers make. The contract says that the summary is that of this network
/// (`IsSummaryOf` in `made_networks/specs/Summaries.antt`), of which there is
/// [one](made_networks::laws::summary_is_one), whatever the workers did.
///
/// Of `plan` and `serve`, `NoMemory` comes only before the first read or the first call of a door, and of `check` and
/// `make` only before the put. A run takes at most [`MOST_BYTES`](line_reader::MOST_BYTES) from its source. `plan`
/// keeps at most [`MOST_RECORDS`](tree_versions::MOST_RECORDS) records of up to about 520 kB each, and some 630 kB
/// beside, most of it for a flow; while a tree is built, it takes up to 450 kB for each worker. `check` keeps less
/// than 2 MB. `make` keeps one network with its tree, and takes up to 450 kB for each worker.
///
/// `serve`, with the options `--port`, `--desks` and `--sessions`, and `--workers`, serves the clients of the first
/// doors, as many as there are desks at most, so many sessions at each, and puts one line at last: how many sessions
/// ended, and how many records there are. All clients load networks into one list. The contract says of each door what
/// its clients were answered (`DoorsServed` in `desks/specs/Boards.antt`). The doors behind the first are left alone.
pub fn run<R: Threads + Wait + Sync, S: Source, K: Sink, D: Door + Send + Drop, G: Gate + Sync>(
    alloc: Global,
    rt: &R,
    words: &[String],
    source: &mut S,
    sink: &mut K,
    doors: &mut Vec<D>,
    gate: &G,
) -> Outcome
where
    D::Client: Send,
    requires nobody { All (λ door. D.out door ≡ None) doors.old.items }

    // The command was run: what was written, over the records that are handed back and no others.
    ensures ran { IfSome (command_of (map string_bytes words.now)) (λ command. Ran command result.status (record {
      start = ports S.Source K.Sink source.old sink.old;
      now = ports S.Source K.Sink source.new sink.new;
      records = views_of result.records.items;
    }) (record {
      olds = map (door_view D.Door D.Client.Source D.Client.Sink) doors.old.items;
      news = map (door_view D.Door D.Client.Source D.Client.Sink) doors.new.items;
    })) }

    ensures bad_words { (result.status ≡ Status.BadWords) ↔ (command_of (map string_bytes words.now) ≡ None) }

    // Nothing was read or written where there is no command, and where `plan`, `make` or `serve` had no memory.
    ensures untouched { IsUntouched (command_of (map string_bytes words.now)) result.status
        → (source.new ≡ source.old) × (sink.new ≡ sink.old) }

    // Nothing was read at all where there is no command, and by `make` and `serve`.
    ensures unread { ReadsNothing (command_of (map string_bytes words.now)) → source.new ≡ source.old }

    // No door was asked behind the first, as many as `serve` has desks; none at all by another command, and where there
    // was no memory.
    ensures unasked { drop (doors_asked (command_of (map string_bytes words.now))) doors.new.items
        ≡ drop (doors_asked (command_of (map string_bytes words.now))) doors.old.items }
    ensures no_desk { result.status ≡ Status.NoMemory → doors.new.items ≡ doors.old.items }

    ensures no_record { (result.status ≡ Status.BadWords) ⊎ (result.status ≡ Status.NoMemory)
        → views_of result.records.items ≡ [] }

    ensures few { length (views_of result.records.items) ≤ MOST_RECORDS }

    // Each record is a finished run over its own network, and its tree is a cut tree.
    ensures runs { AreFinished (views_of result.records.items) }
    ensures trees { AreCutTrees (views_of result.records.items) }

    // Each count of faults is one more where the run ended by such a fault, and else as before: a run ends at the
    // first fault. Where a door failed, the put of the last line of `serve` may have failed as well.
    ensures read_cause { CountsOne (S.read_faults source.old) (S.read_faults source.new)
        (is_read_fault result.status) }
    ensures write_cause { CountsPut result.status (K.write_faults sink.old) (K.write_faults sink.new) }

    // Nothing else of the two objects changed.
    ensures beside_source { S.beside_source source.new ≡ S.beside_source source.old }
    ensures beside_sink { K.beside_sink sink.new ≡ K.beside_sink sink.old }
{
    match read_command(words) {
        None => without_records(alloc, Status::BadWords),
        Some(Command::Plan { workers }) => plan(alloc, rt, workers, source, sink, gate),
        Some(Command::Check) => check_text(alloc, source, sink),
        Some(Command::Make(making)) => make(alloc, rt, making, sink, gate),
        Some(Command::Serve(serving)) => serve(alloc, rt, serving, sink, doors, gate),
    }
}
