//! The checker: the steps of a check.
ghost use Rattle.std.specs.Prelude.{◌≡◌, ℕ, ◌+◌, ◌-◌, ◌*◌, ◌^◌, ◌<◌, ◌≤◌, [], length, false, true, OnOk};
ghost use Rattle.std.specs.Io.KnownBytes.{IsAtEnd};
ghost use Rattle.certifier.specs.Certificates as certificate;
ghost use Rattle.certifier.specs.Certificates.{take_line as told_line};
ghost use Rattle.certifier.specs.Judging.{Goes, Gone, IsSound, Judges, StepGoes, TakesOn, is_failed, is_failed_step};
ghost use Rattle.certifier.specs.Judging.{to_do};
ghost use Rattle.certifier.specs.Stages.{IsReady, Shows};
ghost use Rattle.wires.specs.Causes.{CountsOne};
ghost use Rattle.wires.specs.Lazy.{Wire};

use crate::fault::Fault;
use crate::judged::{Judged, judge_stop};
use crate::stage::Stage;
use crate::taking::take_line;
use line_reader::LineReader;
use std::alloc::Global;
use wires::{Got, LazyPeer};

/// A check under way: the reader of its lines, how many of them came, and what they have told.
#[derive(Drop)]
pub(crate) struct Checker {
    reader: LineReader,
    seen: u32,
    stage: Stage,
}

impl Checker {
    /// Takes the line that was parted off last.
    fn take(&mut self, alloc: Global) -> Result<(), Judged>
        requires ready { IsReady (self.old.seen + 1) self.old.stage }
        requires few { self.old.seen < 2 ^ 31 }
        ensures takes { (told : certificate.Stage) → Shows told self.old.stage
            → TakesOn result (self.old.seen + 1) (told_line (self.old.seen + 1) told self.old.reader.line)
            self.new.stage }
        ensures ready { OnOk result (IsReady (self.new.seen + 1) self.new.stage) }
        ensures seen { OnOk result (self.new.seen ≡ self.old.seen + 1) }
        ensures reader { self.new.reader ≡ self.old.reader }
        ensures no_read { is_failed_step result ≡ false }
    {
        let number = self.seen + 1;
        match take_line(alloc, number, &mut self.stage, self.reader.line()) {
            Ok(()) => {
                self.seen = number;
                Ok(())
            }
            Err(stop) => Err(judge_stop(number, stop)),
        }
    }

    /// What the lines come to where no further one follows.
    fn judge_end(&self) -> Judged
        requires { self.now.seen < 2 ^ 31 }
        ensures no_read { is_failed result ≡ false }
        ensures tells { (told : certificate.Stage) → Shows told self.now.stage → result ≡ Judged.Refused record {
          number = certificate.end_fault told;
          line = self.now.seen + 1;
        } }
    {
        Judged::Refused(Fault {
            number: self.stage.end_fault(),
            line: self.seen + 1,
        })
    }

    /// Takes the last line, which has no line feed, if there is one.
    fn finish(&mut self, alloc: Global) -> Judged
        requires sound { IsSound self.old }
        requires empty { self.old.reader.bytes ≡ [] }
        ensures judges { (start now : Wire) → Gone start now self.old → now.ended ≡ true → IsAtEnd now.left
            → Judges result start now }
        ensures no_read { is_failed result ≡ false }
    {
        if !self.reader.last_line() {
            return self.judge_end();
        }
        match self.take(alloc) {
            Ok(()) => self.judge_end(),
            Err(judged) => judged,
        }
    }

    /// Takes the next line, or reads.
    fn step<P: LazyPeer>(&mut self, alloc: Global, peer: &mut P) -> Result<(), Judged>
        requires sound { IsSound self.old }
        requires reads { (peer : P) → (P.counts peer).reads_not_yet ≡ 0 }
        ensures goes { (start : Wire) → Goes start (P.wire peer.old) self.old
            → StepGoes result start (P.wire peer.new) self.new }
        ensures sound { OnOk result (IsSound self.new) }
        ensures fewer { OnOk result (to_do self.new.reader < to_do self.old.reader) }
        ensures written { (P.wire peer.new).written ≡ (P.wire peer.old).written }
        ensures read_count { CountsOne (P.counts peer.old).read_faults (P.counts peer.new).read_faults
            (is_failed_step result) }
        ensures write_count { (P.counts peer.new).write_faults ≡ (P.counts peer.old).write_faults }
        ensures beside { P.beside_lazy peer.new ≡ P.beside_lazy peer.old }
    {
        if self.reader.next_line() {
            return self.take(alloc);
        }
        if self.reader.is_spent() {
            return Err(Judged::TooLong);
        }
        match self.reader.read_now(peer) {
            Got::Bytes(_) => Ok(()),
            Got::End => Err(self.finish(alloc)),
            Got::NotYet => unreachable!(),
            Got::Failed => Err(Judged::ReadFault),
        }
    }
}

/// Judges the lines of a peer that is always ready. It reads no further than it needs.
pub(crate) fn judge_lines<P: LazyPeer>(alloc: Global, peer: &mut P) -> Judged
    requires reads { (peer : P) → (P.counts peer).reads_not_yet ≡ 0 }
    ensures judges { Judges result (P.wire peer.old) (P.wire peer.new) }
    ensures written { (P.wire peer.new).written ≡ (P.wire peer.old).written }
    ensures read_count { CountsOne (P.counts peer.old).read_faults (P.counts peer.new).read_faults (is_failed result) }
    ensures write_count { (P.counts peer.new).write_faults ≡ (P.counts peer.old).write_faults }
    ensures beside { P.beside_lazy peer.new ≡ P.beside_lazy peer.old }
{
    let Ok(reader) = LineReader::make(alloc) else {
        return Judged::NoMemory;
    };
    let mut checker = Checker {
        reader,
        seen: 0,
        stage: Stage::Title,
    };
    'steps: loop {
        if let Err(judged) = checker.step(alloc, peer) {
            return judged;
        }
    }
}
