//! A session as a future.
ghost use Rattle.std.specs.Prelude.{◌≡◌, List, ℕ, None, Some};
ghost use Rattle.std.specs.declared.option.Option.{Option};
ghost use Rattle.futures.specs.Poll.{OnPending};
ghost use Rattle.futures.specs.Task.{Covers, Keeps};
ghost use Rattle.session.specs.Reporting.{IsHeld};
ghost use Rattle.session.specs.Shelved.{shelved};
ghost use Rattle.session.specs.Steps.{here_at};
ghost use Rattle.session.specs.Tasks.{CanTurn, end_of, turn_of};
ghost use Rattle.session.specs.Turns.{MayBe, TurnCounts, TurnGoes, is_owed, point_at};

use crate::session::{SessionEnd, Turn};
use crate::task::SessionTask;
use futures::task::{Context, Poll};
use std::alloc::Global;
use std::sync::Wait;
use std::thread::Threads;
use tree_versions::Shelf;
use wires::{LazyPeer, MemoryLazyPeer, Peer, ReadyPeer};
use worker_gate::Gate;

/// A peer that can tell when it may be ready again.
pub trait Belled: LazyPeer {
    ghost use Rattle.std.specs.Prelude.{◌≡◌};
    ghost use Rattle.futures.specs.Task.{Covers, Keeps};

    /// Arms a context: it is registered with the peer's source of readiness, or yields where the peer has none. What
    /// the peer shows stays.
    fn arm(&mut self, context: &mut Context<'_>)
        ensures armed { Covers context.new (λ _. ⊥) }
        ensures kept { Keeps context.old context.new }
        ensures wire { Self.wire self.new ≡ Self.wire self.old }
        ensures counts { Self.counts self.new ≡ Self.counts self.old }
        ensures beside { Self.beside_lazy self.new ≡ Self.beside_lazy self.old };
}

impl<'a, P: Peer> Belled for ReadyPeer<'a, P> {
    fn arm(&mut self, context: &mut Context<'_>) {
        let _: Poll<()> = context.yield_now();
    }
}

impl Belled for MemoryLazyPeer {
    fn arm(&mut self, context: &mut Context<'_>) {
        let _: Poll<()> = context.yield_now();
    }
}

/// A task with all that its turns need, which is polled by hand.
#[derive(Drop)]
pub struct TaskFuture<'a, R, H, P, G> {
    /// Whence the memory of a LOAD comes.
    pub alloc: Global,
    /// Whence the threads of a build come.
    pub rt: &'a R,
    /// The session.
    pub task: SessionTask,
    /// Where it publishes.
    pub shelf: &'a mut H,
    /// Whom it serves.
    pub peer: &'a mut P,
    /// What computes the cuts of its trees.
    pub gate: &'a G,
}

impl<'a, R: Threads + Wait + Sync, H: Shelf, P: Belled, G: Gate + Sync> TaskFuture<'a, R, H, P, G> {
    /// A task that goes on over this shelf and this peer. It takes no memory.
    pub fn make(
        alloc: Global,
        rt: &'a R,
        task: SessionTask,
        shelf: &'a mut H,
        peer: &'a mut P,
        gate: &'a G,
    ) -> TaskFuture<'a, R, H, P, G>
        requires on { task.ended ≡ None }
        requires held { IsHeld (H.seen shelf.old) task.kept.work }
        ensures task { result.task ≡ task }
        ensures shelf { result.shelf.now ≡ shelf.old }
        ensures peer { result.peer.now ≡ peer.old }
        ensures same_shelf { result.shelf.ghost_name ≡ shelf.entry.ghost_name }
        ensures same_peer { result.peer.ghost_name ≡ peer.entry.ghost_name }
    {
        TaskFuture {
            alloc,
            rt,
            task,
            shelf,
            peer,
            gate,
        }
    }

    /// Makes one turn, and arms the context where the peer isn't ready. Once the session has ended, it makes no turn
    /// and gives the same end. This is the `poll` of a [`Future`](futures::Future): `poll_fn(|cx| future.poll(cx))` is
    /// one, where its closure requires what `poll` does.
    pub fn poll(&mut self, cx: &mut Context<'_>) -> Poll<SessionEnd>
        requires can { CanTurn (H.seen self.old.shelf.now) self.old.task }
        ensures goes { (open_text : Option (List (List ℕ))) (bytes : List ℕ) → self.old.task.ended ≡ None
            → MayBe (here_at (shelved H.Shelf self.old.shelf.now) (P.wire self.old.peer.now) self.old.task.kept)
            open_text bytes
            → TurnGoes (turn_of result) (H.alone self.old.shelf.now)
            (point_at (here_at (shelved H.Shelf self.old.shelf.now) (P.wire self.old.peer.now) self.old.task.kept)
            open_text bytes)
            (here_at (shelved H.Shelf self.new.shelf.now) (P.wire self.new.peer.now) self.new.task.kept) }
        ensures counts { self.old.task.ended ≡ None → TurnCounts (turn_of result) (is_owed self.new.task.kept.work)
            (P.counts self.old.peer.now) (P.counts self.new.peer.now) }
        ensures pending { OnPending result (Covers cx.new (λ _. ⊥)) }
        ensures ended { self.new.task.ended ≡ end_of (turn_of result) }
        ensures same_end { (end : SessionEnd) → self.old.task.ended ≡ Some end → result ≡ Poll.Ready end }
        ensures still { (end : SessionEnd) → self.old.task.ended ≡ Some end → (self.new.task ≡ self.old.task)
            × (self.new.shelf.now ≡ self.old.shelf.now) × (self.new.peer.now ≡ self.old.peer.now) }
        ensures can { CanTurn (H.seen self.new.shelf.now) self.new.task }
        ensures kept { Keeps cx.old cx.new }
        ensures alone { H.alone self.new.shelf.now ≡ H.alone self.old.shelf.now }
        ensures beside { P.beside_lazy self.new.peer.now ≡ P.beside_lazy self.old.peer.now }
        ensures same_shelf { self.new.shelf.ghost_name ≡ self.old.shelf.ghost_name }
        ensures same_peer { self.new.peer.ghost_name ≡ self.old.peer.ghost_name }
    {
        if let Some(end) = self.task.ended() {
            return Poll::Ready(end);
        }
        let turn = self.task.turn(
            self.alloc,
            self.rt,
            &mut *self.shelf,
            &mut *self.peer,
            self.gate,
        );
        match turn {
            Turn::Ended(end) => Poll::Ready(end),
            Turn::NotYet => {
                self.peer.arm(cx);
                Poll::Pending
            }
        }
    }
}
