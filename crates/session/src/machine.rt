//! The machine: the steps of a turn.
ghost use Rattle.std.specs.Prelude.{◌≡◌, ℕ, ◌<◌, ◌≤◌, List, [], Bool, true, false, None, IsTrue, length};
ghost use Rattle.std.specs.declared.option.Option.{Option};
ghost use Rattle.line_reader.specs.declared.reader.TheConstants.{MOST_BYTES};
ghost use Rattle.session.specs.Points.{IsIdle, Point, Rest};
ghost use Rattle.certifier.specs.Blocks.{Carried};
ghost use Rattle.session.specs.Reporting.{IsHeld};
ghost use Rattle.session.specs.Shelved.{Shelved, shelved};
ghost use Rattle.session.specs.Steps.{Gone, IsClosed, IsMet, IsPart, NextGoes, ReadGoes, StepGoes, here_at, to_do};
ghost use Rattle.session.specs.Steps.{with_work};
ghost use Rattle.session.specs.Turns.{MayBe, TurnCounts, TurnGoes, Went, is_owed, point_at};
ghost use Rattle.session.specs.Writing.{PutGoes, PutStops, StepCounts, point_of};
ghost use Rattle.session.specs.declared.desk.Asked.{Asked};
ghost use Rattle.tree_versions.specs.declared.shelf.TheConstants.{MOST_RECORDS};
ghost use Rattle.wires.specs.Lazy.{ReadCounts, Wire};

use crate::means::Means;
use crate::session::{Session, SessionEnd, Turn};
use std::sync::Wait;
use std::thread::Threads;
use tree_versions::Shelf;
use wires::{Got, LazyPeer};
use worker_gate::Gate;

impl Session {
    /// Puts what is owed. `None` says that nothing is owed any more.
    fn write_out<H: Shelf, P: LazyPeer>(&mut self, shelf: &H, peer: &mut P) -> Option<Turn>
        requires held { IsHeld (H.seen shelf.now) self.old.work }
        ensures goes { (alone : Bool) (rest : Rest) → PutGoes result alone
            (point_of (shelved H.Shelf shelf.now) rest (record { wire = P.wire peer.old; work = self.old.work }))
            (point_of (shelved H.Shelf shelf.now) rest (record { wire = P.wire peer.new; work = self.new.work })) }
        ensures stops { PutStops result self.new.work }
        ensures held { IsHeld (H.seen shelf.now) self.new.work }
        ensures kept { self.new ≡ with_work self.old self.new.work }
        ensures left { (P.wire peer.new).left ≡ (P.wire peer.old).left }
        ensures ended { (P.wire peer.new).ended ≡ (P.wire peer.old).ended }
        ensures counts { StepCounts result (is_owed self.new.work) (P.counts peer.old) (P.counts peer.new) }
        ensures beside { P.beside_lazy peer.new ≡ P.beside_lazy peer.old }
    {
        self.state.write_out(shelf, peer)
    }

    /// Takes a whole line out of what was read, if there is one, and begins its answer.
    fn next_line<R: Threads + Wait + Sync, H: Shelf, G: Gate + Sync>(
        &mut self,
        means: &Means<'_, R, G>,
        shelf: &mut H,
    ) -> bool
        requires idle { IsIdle self.old.work }
        requires on { self.old.over ≡ false }
        ensures goes { (from : Point Asked Carried) (wire : Wire)
            → Gone (H.alone shelf.old) from (here_at (shelved H.Shelf shelf.old) wire self.old)
            → NextGoes result (H.alone shelf.old) from (here_at (shelved H.Shelf shelf.new) wire self.new) }
        ensures held { IsHeld (H.seen shelf.new) self.new.work }
        ensures fewer { IsTrue result → length self.new.reader.bytes < length self.old.reader.bytes }
        ensures empty { result ≡ false → self.new.reader.bytes ≡ [] }
        ensures idle { result ≡ false → IsIdle self.new.work }
        ensures on { result ≡ false → self.new.over ≡ false }
        ensures taken { self.new.reader.taken ≡ self.old.reader.taken }
        ensures alone { H.alone shelf.new ≡ H.alone shelf.old }
    {
        let some = self.reader.next_line();
        if some {
            self.over = self.state.take_line(means, shelf, self.reader.line());
        }
        some
    }

    /// Reads once.
    fn read<P: LazyPeer>(&mut self, peer: &mut P) -> Got
        requires budget { self.old.reader.taken < MOST_BYTES }
        requires empty { self.old.reader.bytes ≡ [] }
        ensures goes { (alone : Bool) (shelf : Shelved) (from : Point Asked Carried)
            → length shelf.seen ≤ MOST_RECORDS
            → Went IsPart alone from (here_at shelf (P.wire peer.old) self.old)
            → ReadGoes result alone from (here_at shelf (P.wire peer.new) self.new) }
        ensures work { self.new.work ≡ self.old.work }
        ensures over { self.new.over ≡ self.old.over }
        ensures fewer { (count : ℕ) → result ≡ Got.Bytes count → to_do self.new.reader < to_do self.old.reader }
        ensures still { ((count : ℕ) → result ≡ Got.Bytes count → ⊥) → self.new.reader ≡ self.old.reader }
        ensures counts { ReadCounts result (P.counts peer.old) (P.counts peer.new) }
        ensures beside { P.beside_lazy peer.new ≡ P.beside_lazy peer.old }
    {
        self.reader.read_now(peer)
    }

    /// Takes the last line, which has no line feed, if there is one; where nothing is owed then, closes the text that
    /// is open.
    fn end_input<R: Threads + Wait + Sync, H: Shelf, G: Gate + Sync>(
        &mut self,
        means: &Means<'_, R, G>,
        shelf: &mut H,
    )
        requires idle { IsIdle self.old.work }
        requires on { self.old.over ≡ false }
        requires empty { self.old.reader.bytes ≡ [] }
        ensures goes { (from : Point Asked Carried) (wire : Wire)
            → Went IsMet (H.alone shelf.old) from (here_at (shelved H.Shelf shelf.old) wire self.old)
            → Went IsClosed (H.alone shelf.old) from (here_at (shelved H.Shelf shelf.new) wire self.new) }
        ensures held { IsHeld (H.seen shelf.new) self.new.work }
        ensures alone { H.alone shelf.new ≡ H.alone shelf.old }
    {
        if !self.reader.last_line() {
            let _ = self.state.close_input(shelf);
            return;
        }
        self.over = self.state.take_line(means, shelf, self.reader.line());
        if self.over {
            return;
        }
        if self.state.desk.is_idle() {
            let _ = self.state.close_input(shelf);
        }
    }

    /// Answers what is left at the end of the input.
    fn finish<R: Threads + Wait + Sync, H: Shelf, P: LazyPeer, G: Gate + Sync>(
        &mut self,
        means: &Means<'_, R, G>,
        shelf: &mut H,
        peer: &mut P,
    ) -> Turn
        requires idle { IsIdle self.old.work }
        requires on { self.old.over ≡ false }
        requires empty { self.old.reader.bytes ≡ [] }
        ensures goes { (from : Point Asked Carried)
            → Went IsMet (H.alone shelf.old) from (here_at (shelved H.Shelf shelf.old) (P.wire peer.old) self.old)
            → TurnGoes result (H.alone shelf.old) from
            (here_at (shelved H.Shelf shelf.new) (P.wire peer.new) self.new) }
        ensures held { IsHeld (H.seen shelf.new) self.new.work }
        ensures counts { TurnCounts result (is_owed self.new.work) (P.counts peer.old) (P.counts peer.new) }
        ensures alone { H.alone shelf.new ≡ H.alone shelf.old }
        ensures beside { P.beside_lazy peer.new ≡ P.beside_lazy peer.old }
    {
        self.end_input(means, shelf);
        match self.write_out(shelf, peer) {
            Some(turn) => turn,
            None => Turn::Ended(SessionEnd::Done),
        }
    }

    /// Goes on where nothing is owed: takes the next line, or reads.
    fn step<R: Threads + Wait + Sync, H: Shelf, P: LazyPeer, G: Gate + Sync>(
        &mut self,
        means: &Means<'_, R, G>,
        shelf: &mut H,
        peer: &mut P,
    ) -> Option<Turn>
        requires idle { IsIdle self.old.work }
        ensures goes { (from : Point Asked Carried)
            → Gone (H.alone shelf.old) from (here_at (shelved H.Shelf shelf.old) (P.wire peer.old) self.old)
            → StepGoes result (H.alone shelf.old) from
            (here_at (shelved H.Shelf shelf.new) (P.wire peer.new) self.new) }
        ensures held { IsHeld (H.seen shelf.new) self.new.work }
        ensures fewer { result ≡ None → to_do self.new.reader < to_do self.old.reader }
        ensures counts { StepCounts result (is_owed self.new.work) (P.counts peer.old) (P.counts peer.new) }
        ensures alone { H.alone shelf.new ≡ H.alone shelf.old }
        ensures beside { P.beside_lazy peer.new ≡ P.beside_lazy peer.old }
    {
        if self.over {
            return Some(Turn::Ended(SessionEnd::Done));
        }
        if self.next_line(means, shelf) {
            return None;
        }
        if self.reader.is_spent() {
            return Some(Turn::Ended(SessionEnd::TooLong));
        }
        match self.read(peer) {
            Got::Bytes(_) => None,
            Got::End => Some(self.finish(means, shelf, peer)),
            Got::NotYet => Some(Turn::NotYet),
            Got::Failed => Some(Turn::Ended(SessionEnd::ReadFault)),
        }
    }

    /// Works until the peer isn't ready or the session has ended: puts what is owed, and then takes the next line, or
    /// reads.
    pub(crate) fn turn<R: Threads + Wait + Sync, H: Shelf, P: LazyPeer, G: Gate + Sync>(
        &mut self,
        means: &Means<'_, R, G>,
        shelf: &mut H,
        peer: &mut P,
    ) -> Turn
        requires held { IsHeld (H.seen shelf.old) self.old.work }
        ensures goes { (open_text : Option (List (List ℕ))) (bytes : List ℕ)
            → MayBe (here_at (shelved H.Shelf shelf.old) (P.wire peer.old) self.old) open_text bytes
            → TurnGoes result (H.alone shelf.old)
            (point_at (here_at (shelved H.Shelf shelf.old) (P.wire peer.old) self.old) open_text bytes)
            (here_at (shelved H.Shelf shelf.new) (P.wire peer.new) self.new) }
        ensures counts { TurnCounts result (is_owed self.new.work) (P.counts peer.old) (P.counts peer.new) }
        ensures held { IsHeld (H.seen shelf.new) self.new.work }
        ensures alone { H.alone shelf.new ≡ H.alone shelf.old }
        ensures beside { P.beside_lazy peer.new ≡ P.beside_lazy peer.old }
    {
        'steps: loop {
            if let Some(turn) = self.write_out(shelf, peer) {
                return turn;
            }
            if let Some(turn) = self.step(means, shelf, peer) {
                return turn;
            }
        }
    }
}
