//! How the reply in work is put, piece by piece.
ghost use Rattle.std.specs.Prelude.{◌≡◌, ◌≤◌, Bool, length};
ghost use Rattle.session.specs.Points.{Rest};
ghost use Rattle.session.specs.Reporting.{IsHeld};
ghost use Rattle.session.specs.Shelved.{Shelved, shelved};
ghost use Rattle.session.specs.Turns.{is_owed};
ghost use Rattle.session.specs.Writing.{PutGoes, PutStops, RunStops, StepCounts, point_of};
ghost use Rattle.tree_versions.specs.declared.shelf.TheConstants.{MOST_RECORDS};

use crate::desk::Desk;
use crate::session::{SessionEnd, Turn};
use crate::state::State;
use tree_versions::Shelf;
use wires::{LazyPeer, Taken};

impl Desk {
    /// Puts the run, in as few calls as the peer takes it in. `None` says that none of it is left.
    fn put_run<P: LazyPeer>(&mut self, peer: &mut P) -> Option<Turn>
        ensures goes { (alone : Bool) (shelf : Shelved) (rest : Rest) → length shelf.seen ≤ MOST_RECORDS
            → PutGoes result alone (point_of shelf rest (record { wire = P.wire peer.old; work = self.old }))
            (point_of shelf rest (record { wire = P.wire peer.new; work = self.new })) }
        ensures stops { RunStops result self.new }
        ensures reply { self.new.reply ≡ self.old.reply }
        ensures at { self.new.at ≡ self.old.at }
        ensures left { (P.wire peer.new).left ≡ (P.wire peer.old).left }
        ensures ended { (P.wire peer.new).ended ≡ (P.wire peer.old).ended }
        ensures counts { StepCounts result (is_owed self.new) (P.counts peer.old) (P.counts peer.new) }
        ensures beside { P.beside_lazy peer.new ≡ P.beside_lazy peer.old }
    {
        'puts: loop {
            let rest = self.rest();
            if rest.is_empty() {
                return None;
            }
            match peer.put_now(rest) {
                Taken::Bytes(count) => self.pass(count),
                Taken::NotYet => return Some(Turn::NotYet),
                Taken::Failed => return Some(Turn::Ended(SessionEnd::WriteFault)),
            }
        }
    }
}

impl State {
    /// Puts what is owed: the run, and then one run after another that is filled with the next lines. `None` says
    /// that nothing is owed any more.
    pub fn write_out<H: Shelf, P: LazyPeer>(&mut self, shelf: &H, peer: &mut P) -> Option<Turn>
        requires held { IsHeld (H.seen shelf.now) self.old.desk }
        ensures goes { (alone : Bool) (rest : Rest) → PutGoes result alone
            (point_of (shelved H.Shelf shelf.now) rest (record { wire = P.wire peer.old; work = self.old.desk }))
            (point_of (shelved H.Shelf shelf.now) rest (record { wire = P.wire peer.new; work = self.new.desk })) }
        ensures stops { PutStops result self.new.desk }
        ensures held { IsHeld (H.seen shelf.now) self.new.desk }
        ensures intake { self.new.intake ≡ self.old.intake }
        ensures left { (P.wire peer.new).left ≡ (P.wire peer.old).left }
        ensures ended { (P.wire peer.new).ended ≡ (P.wire peer.old).ended }
        ensures counts { StepCounts result (is_owed self.new.desk) (P.counts peer.old) (P.counts peer.new) }
        ensures beside { P.beside_lazy peer.new ≡ P.beside_lazy peer.old }
    {
        'runs: loop {
            if let Some(turn) = self.desk.put_run(peer) {
                return Some(turn);
            }
            if !self.desk.has_more() {
                return None;
            }
            self.fill(shelf);
        }
    }
}
