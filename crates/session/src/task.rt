//! A session as a task that may stop at any byte.
ghost use Rattle.std.specs.Prelude.{◌≡◌, List, ℕ, None};
ghost use Rattle.std.specs.declared.option.Option.{Option};
ghost use Rattle.session.specs.Reporting.{IsHeld};
ghost use Rattle.session.specs.Shelved.{shelved};
ghost use Rattle.session.specs.Steps.{here_at};
ghost use Rattle.session.specs.Tasks.{end_of};
ghost use Rattle.session.specs.Turns.{IsAnew, MayBe, TurnCounts, TurnGoes, is_owed, point_at};

use crate::means::Means;
use crate::session::{Session, SessionEnd, Turn};
use std::alloc::Global;
use std::marker::Model;
use std::sync::Wait;
use std::thread::Threads;
use tree_versions::Shelf;
use wires::LazyPeer;
use worker_gate::Gate;

/// A session that is worked on turn by turn, and may stop at any byte where its peer isn't ready. All turns of a task
/// belong to one peer and one shelf. Contracts see a `TaskView`.
///
/// Over a peer that has `CUT a b` left without its line feed, and then isn't ready, a turn answers `NotYet`; once the
/// line feed has come, the next turn puts the reply.
#[derive(Drop)]
pub struct SessionTask {
    session: Session,
    ended: Option<SessionEnd>,
}

impl Model for SessionTask {
    ghost use Rattle.session.specs.Tasks.{TaskView};

    ghost Value = { TaskView };

    ghost view = { λ task. record { kept = task.session; ended = task.ended } };

    ghost invariant = { λ _. Unit {0} };
}

impl SessionTask {
    /// A task that begins anew, whatever its session was used for before: without bytes, and with nothing owed.
    pub fn make(session: Session) -> SessionTask
        ensures anew { IsAnew result.kept }
        ensures on { result.ended ≡ None }
    {
        let mut session = session;
        session.restart();
        SessionTask {
            session,
            ended: None,
        }
    }

    /// How the last turn ended the session, if it did.
    #[inline]
    pub fn ended(&self) -> Option<SessionEnd>
        ensures { result ≡ self.now.ended }
    {
        self.ended
    }

    /// Goes on until the peer isn't ready or the session has ended: answers what it reads as
    /// [`serve_session`](crate::serve_session) does. A LOAD is worked through once its END came, the build of its tree
    /// included. No turn may follow one that answered `Ended`, and the record of a reply in work must be where it was,
    /// which it is on a shelf whose list only grew.
    ///
    /// For every text that may be open and all bytes that may belong to no item yet, the turn leads to such a text and
    /// such bytes again (`goes`). It answers `NotYet` only where the peer wasn't ready: for a put where a reply is in
    /// work, and for a read where none is, and then no whole item is left (`counts`).
    pub fn turn<R: Threads + Wait + Sync, H: Shelf, P: LazyPeer, G: Gate + Sync>(
        &mut self,
        alloc: Global,
        rt: &R,
        shelf: &mut H,
        peer: &mut P,
        gate: &G,
    ) -> Turn
        requires on { self.old.ended ≡ None }
        requires held { IsHeld (H.seen shelf.old) self.old.kept.work }
        ensures goes { (open_text : Option (List (List ℕ))) (bytes : List ℕ)
            → MayBe (here_at (shelved H.Shelf shelf.old) (P.wire peer.old) self.old.kept) open_text bytes
            → TurnGoes result (H.alone shelf.old)
            (point_at (here_at (shelved H.Shelf shelf.old) (P.wire peer.old) self.old.kept) open_text bytes)
            (here_at (shelved H.Shelf shelf.new) (P.wire peer.new) self.new.kept) }
        ensures counts { TurnCounts result (is_owed self.new.kept.work) (P.counts peer.old) (P.counts peer.new) }
        ensures held { IsHeld (H.seen shelf.new) self.new.kept.work }
        ensures ended { self.new.ended ≡ end_of result }
        ensures alone { H.alone shelf.new ≡ H.alone shelf.old }
        ensures beside { P.beside_lazy peer.new ≡ P.beside_lazy peer.old }
    {
        let turn = self.session.turn(&Means { alloc, rt, gate }, shelf, peer);
        if let Turn::Ended(end) = turn {
            self.ended = Some(end);
        }
        turn
    }
}
