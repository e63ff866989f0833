//! The state of a session, and what each line does to it. Nothing here reads or writes.
ghost use Rattle.std.specs.Prelude.{◌≡◌, ℕ, ◌+◌, ◌^◌, ◌<◌, ◌≤◌, ◌⊎◌, List, [], None, Some, true, false};
ghost use Rattle.std.specs.Prelude.{length, IfOk, Ok, IsFalse, IsTrue};
ghost use Rattle.std.specs.Arc.{arc_value};
ghost use Rattle.std.specs.Option.{option_copied};
ghost use Rattle.std.specs.declared.option.Option.{Option};
ghost use Rattle.job_queue.specs.declared.jobs.TheConstants.{MOST_WORKERS};
ghost use Rattle.network_text.specs.Texts.{verdict_of};
ghost use Rattle.query_lang.specs.Replies.{loaded_text, refused_text};
ghost use Rattle.reply_lines.specs.Tails.{Leads};
ghost use Rattle.query_lang.specs.Requests.{IsOf, needs_record};
ghost use Rattle.session.specs.Answers.{IsTextRefusal, sheet_in};
ghost use Rattle.session.specs.Modes.{Loads};
ghost use Rattle.session.specs.Points.{IsIdle};
ghost use Rattle.certifier.specs.Blocks.{Carried};
ghost use Rattle.session.specs.Reporting.{IsHeld, IsReporting, ReportLine, Reported};
ghost use Rattle.session.specs.Shelved.{IsLook, shelved};
ghost use Rattle.session.specs.Taking.{HasRead, HasOpen, LineTaken, Owing, is_open, is_stale, lines_in};
ghost use Rattle.session.specs.Turns.{is_owed};
ghost use Rattle.text_forms.specs.Items.{items_from};
ghost use Rattle.tree_versions.specs.Records.{RecordView, record_at};

use crate::desk::Desk;
use crate::intake::Intake;
use crate::means::Means;
use cut_model::NoMemory;
use job_queue::MOST_WORKERS;
use network_text::{Fed, Reader, Sheet, TextFault, TextKind};
use query_lang::{Request, parse_request};
use std::alloc::Global;
use std::mem;
use std::sync::{Arc, Wait};
use std::thread::Threads;
use text_forms::is_end;
use tree_versions::{MOST_RECORDS, PublishFault, Record, Shelf};
use worker_gate::{Gate, build_tree};

/// The refusal of a network where the records are as many as can be kept.
const SHELF_FULL: u32 = 20;

/// The refusal of a text for which there was no memory.
const OUT_OF_MEMORY: u32 = 90;

/// The text that is open, the reply in work, and how many workers build a tree.
#[derive(Drop)]
pub struct State {
    pub intake: Intake,
    pub desk: Desk,
    workers: u32,
    ghost some: { 0 < workers },
    ghost most: { workers ≤ MOST_WORKERS },
    ghost unended: { is_stale intake ≡ false },
}

/// Looks at the shelf, and tells how many records are seen.
fn look<H: Shelf>(shelf: &mut H) -> u32
    ensures looks { IsLook (H.alone shelf.old) (shelved H.Shelf shelf.old) (shelved H.Shelf shelf.new) }
    ensures count { result ≡ length (H.seen shelf.new) }
    ensures alone { H.alone shelf.new ≡ H.alone shelf.old }
{
    shelf.look()
}

/// The record of a version that was seen, if there is one: version 0 has none.
fn seen_record<H: Shelf>(shelf: &H, version: u32) -> Option<&Record>
    requires { version ≤ length (H.seen shelf.now) }
    ensures { option_copied result ≡ record_at (H.seen shelf.now) version }
{
    if version == 0 {
        None
    } else {
        Some(shelf.record_at(version))
    }
}

/// The sheet of a record, if there is one.
fn sheet_of<'a>(seen: Option<&'a Record>) -> Option<&'a Sheet>
    ensures { option_copied result ≡ sheet_in (option_copied seen.entry) }
{
    match seen {
        Some(record) => Some(record.sheet()),
        None => None,
    }
}

/// Begins to read a text.
fn begin_text(alloc: Global) -> Intake
    ensures begun { HasOpen result (Some []) }
    ensures no_line { lines_in result ≡ 0 }
    ensures unended { is_stale result ≡ false }
{
    match Reader::begin(alloc) {
        Ok(reader) => Intake::Text(reader),
        Err(NoMemory) => Intake::Lost,
    }
}

impl State {
    /// The state between two items, with all room that replies need, in which so many workers build a tree.
    ///
    /// # Errors
    /// [`NoMemory`] where the memory of one of these can't be had.
    pub fn make(alloc: Global, workers: u32) -> Result<State, NoMemory>
        requires some { 0 < workers }
        requires most { workers ≤ MOST_WORKERS }
        ensures between { IfOk result (λ state. HasOpen state.intake None) }
        ensures no_line { IfOk result (λ state. lines_in state.intake ≡ 0) }
        ensures idle { IfOk result (λ state. IsIdle state.desk) }
    {
        Ok(State {
            intake: Intake::Between,
            desk: Desk::make(alloc)?,
            workers,
        })
    }

    /// Begins anew: nothing is open, and no reply is in work.
    pub fn restart(&mut self)
        ensures between { HasOpen self.new.intake None }
        ensures no_line { lines_in self.new.intake ≡ 0 }
        ensures idle { IsIdle self.new.desk }
    {
        self.intake = Intake::Between;
        self.desk.clear();
    }

    /// Begins a refusal by a version; that of a text tells its line.
    fn refuse(&mut self, version: u32, number: u32, line: Option<u32>)
        ensures reply { self.new.desk.run ≡ refused_text version number line }
        ensures whole { self.new.desk.at.left ≡ 0 }
        ensures owed { is_owed self.new.desk ≡ true }
        ensures intake { self.new.intake ≡ self.old.intake }
    {
        self.desk.refuse(version, number, line);
    }

    /// Looks at the shelf, and begins a refusal by the last version.
    fn refuse_load<H: Shelf>(&mut self, shelf: &mut H, number: u32, line: Option<u32>)
        ensures looks { IsLook (H.alone shelf.old) (shelved H.Shelf shelf.old) (shelved H.Shelf shelf.new) }
        ensures reply { self.new.desk.run ≡ refused_text (length (H.seen shelf.new)) number line }
        ensures whole { self.new.desk.at.left ≡ 0 }
        ensures owed { is_owed self.new.desk ≡ true }
        ensures alone { H.alone shelf.new ≡ H.alone shelf.old }
        ensures intake { self.new.intake ≡ self.old.intake }
    {
        let version = look(shelf);
        self.refuse(version, number, line);
    }

    /// Looks at the shelf, and begins the refusal of a text. Want of memory tells no line.
    fn refuse_text<H: Shelf>(&mut self, shelf: &mut H, fault: TextFault)
        ensures looks { IsLook (H.alone shelf.old) (shelved H.Shelf shelf.old) (shelved H.Shelf shelf.new) }
        ensures reply { IsTextRefusal (length (H.seen shelf.new)) fault self.new.desk.run }
        ensures lost { fault.kind ≡ TextKind.Memory
            → self.new.desk.run ≡ refused_text (length (H.seen shelf.new)) 90 None }
        ensures whole { self.new.desk.at.left ≡ 0 }
        ensures owed { is_owed self.new.desk ≡ true }
        ensures alone { H.alone shelf.new ≡ H.alone shelf.old }
        ensures intake { self.new.intake ≡ self.old.intake }
    {
        if matches!(fault.kind, TextKind::Memory) {
            self.refuse_load(shelf, OUT_OF_MEMORY, None);
        } else {
            self.refuse_load(shelf, fault.kind.number(), Some(fault.line));
        }
    }

    /// Takes a line, without its line feed, where no reply is in work, and says whether it was a BYE; of a line of more
    /// than MOST_LINE_BYTES one byte more suffices. A reply that it asks for is in work afterwards. Memory is taken for
    /// the lines of a text and for its record alone.
    pub fn take_line<R: Threads + Wait + Sync, H: Shelf, G: Gate + Sync>(
        &mut self,
        means: &Means<'_, R, G>,
        shelf: &mut H,
        line: &[u8],
    ) -> bool
        requires idle { IsIdle self.old.desk }
        requires few { lines_in self.old.intake < 2 ^ 31 }
        ensures taken { (open_text : Option (List (List ℕ))) → HasOpen self.old.intake open_text
            → LineTaken result (H.alone shelf.old) (shelved H.Shelf shelf.old) (shelved H.Shelf shelf.new)
            open_text self.new.intake line.now self.new.desk }
        ensures lines { lines_in self.new.intake ≤ lines_in self.old.intake + 1 }
        ensures between { IsIdle self.new.desk ⊎ HasOpen self.new.intake None }
        ensures bye { result ≡ true → HasOpen self.new.intake None }
        ensures held { IsHeld (H.seen shelf.new) self.new.desk }
        ensures alone { H.alone shelf.new ≡ H.alone shelf.old }
    {
        match mem::replace(&mut self.intake, Intake::Between) {
            Intake::Between => self.take_request(means.alloc, shelf, line),
            Intake::Text(reader) => self.take_text(means, shelf, reader, line),
            Intake::Lost => self.take_lost(shelf, line),
        }
    }

    /// Takes a line between two items: it looks at the shelf once, and answers from the last record.
    fn take_request<H: Shelf>(&mut self, alloc: Global, shelf: &mut H, line: &[u8]) -> bool
        requires idle { IsIdle self.old.desk }
        requires between { HasOpen self.old.intake None }
        ensures taken { LineTaken result (H.alone shelf.old) (shelved H.Shelf shelf.old) (shelved H.Shelf shelf.new)
            None self.new.intake line.now self.new.desk }
        ensures no_line { lines_in self.new.intake ≡ 0 }
        ensures between { IsIdle self.new.desk ⊎ HasOpen self.new.intake None }
        ensures bye { result ≡ true → HasOpen self.new.intake None }
        ensures held { IsHeld (H.seen shelf.new) self.new.desk }
        ensures alone { H.alone shelf.new ≡ H.alone shelf.old }
    {
        let version = look(shelf);
        let seen = seen_record(shelf, version);
        match parse_request(line, sheet_of(seen)) {
            Ok(Request::Nothing) => false,
            Ok(Request::Load) => {
                self.intake = begin_text(alloc);
                false
            }
            Ok(Request::Bye) => {
                self.desk.bye(version);
                true
            }
            Ok(request) => {
                self.report(version, seen, &request);
                false
            }
            Err(fault) => {
                self.refuse(version, fault.number(), None);
                false
            }
        }
    }

    /// Begins the reply that is read from a record: from its network, its tree and its run.
    fn report(&mut self, version: u32, seen: Option<&Record>, request: &Request)
        requires needs { IsTrue (needs_record request.now) }
        requires of { IsOf (sheet_in (option_copied seen)) request.now }
        ensures reported { Reported (option_copied seen.entry) (record { version = version; request = request.now })
            self.new.desk }
        ensures intake { self.new.intake ≡ self.old.intake }
    {
        let Some(made) = seen else {
            unreachable!();
        };
        self.desk.report(version, made, request);
    }

    /// Takes a line of a text that is read.
    fn take_text<R: Threads + Wait + Sync, H: Shelf, G: Gate + Sync>(
        &mut self,
        means: &Means<'_, R, G>,
        shelf: &mut H,
        mut reader: Reader,
        line: &[u8],
    ) -> bool
        requires idle { IsIdle self.old.desk }
        requires open { IsFalse reader.ended }
        requires few { reader.progress.lines < 2 ^ 31 }
        ensures taken { (text : List (List ℕ)) → HasOpen (Intake.Text reader) (Some text)
            → LineTaken result (H.alone shelf.old) (shelved H.Shelf shelf.old) (shelved H.Shelf shelf.new)
            (Some text) self.new.intake line.now self.new.desk }
        ensures lines { lines_in self.new.intake ≤ reader.progress.lines + 1 }
        ensures between { IsIdle self.new.desk ⊎ HasOpen self.new.intake None }
        ensures bye { result ≡ true → HasOpen self.new.intake None }
        ensures held { IsHeld (H.seen shelf.new) self.new.desk }
        ensures alone { H.alone shelf.new ≡ H.alone shelf.old }
    {
        match reader.line(line) {
            Fed::More => {
                self.intake = Intake::Text(reader);
                false
            }
            Fed::Ended => {
                self.end_text(means, shelf, reader);
                self.intake = Intake::Between;
                false
            }
        }
    }

    /// Takes a line of a text that is passed over.
    fn take_lost<H: Shelf>(&mut self, shelf: &mut H, line: &[u8]) -> bool
        requires idle { IsIdle self.old.desk }
        ensures taken { (text : List (List ℕ))
            → LineTaken result (H.alone shelf.old) (shelved H.Shelf shelf.old) (shelved H.Shelf shelf.new)
            (Some text) self.new.intake line.now self.new.desk }
        ensures no_line { lines_in self.new.intake ≡ 0 }
        ensures between { IsIdle self.new.desk ⊎ HasOpen self.new.intake None }
        ensures bye { result ≡ true → HasOpen self.new.intake None }
        ensures held { IsHeld (H.seen shelf.new) self.new.desk }
        ensures alone { H.alone shelf.new ≡ H.alone shelf.old }
    {
        if is_end(line) {
            self.refuse_load(shelf, OUT_OF_MEMORY, None);
            self.intake = Intake::Between;
            false
        } else {
            self.intake = Intake::Lost;
            false
        }
    }

    /// Answers a text whose END came.
    fn end_text<R: Threads + Wait + Sync, H: Shelf, G: Gate + Sync>(
        &mut self,
        means: &Means<'_, R, G>,
        shelf: &mut H,
        reader: Reader,
    )
        requires few { reader.progress.lines < 2 ^ 31 }
        ensures loads { (text : List (List ℕ)) → HasRead reader.progress text
            → Loads (H.alone shelf.old) (shelved H.Shelf shelf.old) (verdict_of text reader.ended) self.new.desk.run
            (shelved H.Shelf shelf.new) }
        ensures whole { self.new.desk.at.left ≡ 0 }
        ensures alone { H.alone shelf.new ≡ H.alone shelf.old }
    {
        match reader.close() {
            Ok(sheet) => self.publish(means, shelf, sheet),
            Err(fault) => self.refuse_text(shelf, fault),
        }
    }

    /// Refuses a text that the end of the input cuts off.
    fn refuse_unfinished<H: Shelf>(&mut self, shelf: &mut H, reader: Reader)
        requires open { IsFalse reader.ended }
        requires few { reader.progress.lines < 2 ^ 31 }
        ensures loads { (text : List (List ℕ)) → HasRead reader.progress text
            → Loads (H.alone shelf.old) (shelved H.Shelf shelf.old) (verdict_of text false) self.new.desk.run
            (shelved H.Shelf shelf.new) }
        ensures whole { self.new.desk.at.left ≡ 0 }
        ensures owed { is_owed self.new.desk ≡ true }
        ensures alone { H.alone shelf.new ≡ H.alone shelf.old }
        ensures intake { self.new.intake ≡ self.old.intake }
    {
        match reader.close() {
            Ok(_) => unreachable!(),
            Err(fault) => self.refuse_text(shelf, fault),
        }
    }

    /// Builds the tree of a sheet's network, and publishes both as a record, where there is room and
    /// memory for it.
    fn publish<R: Threads + Wait + Sync, H: Shelf, G: Gate + Sync>(
        &mut self,
        means: &Means<'_, R, G>,
        shelf: &mut H,
        sheet: Sheet,
    )
        ensures loads { Loads (H.alone shelf.old) (shelved H.Shelf shelf.old) (Ok sheet) self.new.desk.run
            (shelved H.Shelf shelf.new) }
        ensures whole { self.new.desk.at.left ≡ 0 }
        ensures alone { H.alone shelf.new ≡ H.alone shelf.old }
    {
        match self.make_record(means, sheet) {
            Ok(record) => self.publish_record(shelf, record),
            Err(NoMemory) => self.refuse_load(shelf, OUT_OF_MEMORY, None),
        }
    }

    /// The record of a sheet, with the tree of its network, which the workers build.
    fn make_record<R: Threads + Wait + Sync, G: Gate + Sync>(
        &self,
        means: &Means<'_, R, G>,
        sheet: Sheet,
    ) -> Result<Arc<Record>, NoMemory>
        ensures sheet { IfOk result (λ made. (arc_value made).sheet ≡ sheet) }
    {
        let tree = build_tree(means.alloc, means.rt, sheet.net(), self.workers, means.gate)?;
        Record::make(means.alloc, sheet, tree)
    }

    /// Publishes a record, and begins the reply by its version.
    fn publish_record<H: Shelf>(&mut self, shelf: &mut H, new: Arc<Record>)
        ensures loads { Loads (H.alone shelf.old) (shelved H.Shelf shelf.old) (Ok (arc_value new).sheet)
            self.new.desk.run (shelved H.Shelf shelf.new) }
        ensures whole { self.new.desk.at.left ≡ 0 }
        ensures alone { H.alone shelf.new ≡ H.alone shelf.old }
    {
        match shelf.publish(new) {
            Ok(version) => self.tell_loaded(shelf, version),
            Err(PublishFault::Full) => self.refuse(MOST_RECORDS, SHELF_FULL, None),
            Err(PublishFault::NoMemory) => self.refuse_load(shelf, OUT_OF_MEMORY, None),
        }
    }

    /// Begins the reply by the version of a record that was published.
    fn tell_loaded<H: Shelf>(&mut self, shelf: &H, version: u32)
        requires first { 0 < version }
        requires last { version ≤ length (H.seen shelf.now) }
        ensures reply { (made : RecordView) → record_at (H.seen shelf.now) version ≡ Some made
            → self.new.desk.run ≡ loaded_text version made.sheet.net }
        ensures whole { self.new.desk.at.left ≡ 0 }
        ensures intake { self.new.intake ≡ self.old.intake }
    {
        let made = shelf.record_at(version);
        self.desk.loaded(version, made.sheet().net());
    }

    /// Begins the reply that is owed where the input ends, and says whether a text was open.
    pub fn close_input<H: Shelf>(&mut self, shelf: &mut H) -> bool
        requires idle { IsIdle self.old.desk }
        requires few { lines_in self.old.intake < 2 ^ 31 }
        ensures owing { (open_text : Option (List (List ℕ))) → HasOpen self.old.intake open_text
            → Owing (H.alone shelf.old) (shelved H.Shelf shelf.old) (shelved H.Shelf shelf.new)
            (items_from true open_text []) self.new.desk }
        ensures closed { HasOpen self.new.intake None }
        ensures no_line { lines_in self.new.intake ≡ 0 }
        ensures open { result ≡ is_open self.old.intake }
        ensures owed { result ≡ true → is_owed self.new.desk ≡ true }
        ensures still { result ≡ false → self.new.desk ≡ self.old.desk }
        ensures unseen { result ≡ false → shelf.new ≡ shelf.old }
        ensures held { IsHeld (H.seen shelf.new) self.new.desk }
        ensures alone { H.alone shelf.new ≡ H.alone shelf.old }
    {
        match mem::replace(&mut self.intake, Intake::Between) {
            Intake::Between => false,
            Intake::Text(reader) => {
                self.refuse_unfinished(shelf, reader);
                true
            }
            Intake::Lost => {
                self.refuse_load(shelf, OUT_OF_MEMORY, None);
                true
            }
        }
    }
    /// Fills the run with further lines of the reply in work, where lines are left and all of the run was taken.
    pub fn fill<H: Shelf>(&mut self, shelf: &H)
        requires more { 0 < self.old.desk.at.left }
        requires held { IsHeld (H.seen shelf.now) self.old.desk }
        ensures leads { Leads Carried (ReportLine (H.seen shelf.now) self.old.desk.reply) self.old.desk.at
            self.new.desk.run self.new.desk.at }
        ensures fewer { self.new.desk.at.left < self.old.desk.at.left }
        ensures reply { self.new.desk.reply ≡ self.old.desk.reply }
        ensures held { IsReporting (H.seen shelf.now) self.new.desk }
        ensures intake { self.new.intake ≡ self.old.intake }
    {
        self.desk.fill(shelf);
    }
}
