//! Sessions that are polled, and two sessions on one shelf in turns of one byte, in ample memory.
ghost use Rattle.std.specs.Prelude.{◌≡◌, ℕ, List, None, Some, IfOk, IfSome};
ghost use Rattle.std.specs.declared.option.Option.{Option};
ghost use Rattle.futures.specs.Task.{Keeps};
ghost use Rattle.session.specs.Shelved.{Shelved};
ghost use Rattle.session.specs.Steps.{here_at};
ghost use Rattle.session.specs.Tasks.{CanTurn};
ghost use Rattle.session.specs.Turns.{MayBe};
ghost use Rattle.tree_versions.specs.Records.{RecordView};
ghost use Rattle.wires.specs.LazyMemory.{wire_of};

use crate::{Belled, Session, SessionEnd, SessionTask, TaskFuture};
use cut_model::NoMemory;
use futures::executor::block_on;
use futures::future::{lazy, poll_fn};
use futures::task::{Context, Poll};
use std::alloc::{AllocGlobal, Global};
use std::io;
use std::random::RandomSource;
use std::sync::Wait;
use std::test::Fail;
use std::thread::Threads;
use tree_versions::{Shelf, SoloShelf};
use wires::{MemoryLazyPeer, MemoryPeer, MemorySink, MemorySource, Peer, ReadyPeer};
use worker_gate::{Gate, OpenGate};

/// After so many turns of each two sessions are given up.
const MOST_TURNS: u32 = 500;

/// A network, whose tree is asked for.
const FIRST: &[u8] = b"LOAD\nlink a b 5\nEND\nTREE\nCUT a b\nBYE\n";

/// A ring of four routers with a link across, longer by so much that it is loaded while a tree of `FIRST` is written.
const SECOND: &[u8] =
    b"LOAD\nlink a b 7\nlink b c 7\nlink c d 7\nlink d a 7\nlink a c 10\nEND\nCUT b a\nBYE\n";

/// What `FIRST` gets: its tree of its own network, and then a cut of the second.
const FIRST_REPLIES: &[u8] =
    b"@1 LOADED routers 2 links 1\n@1 TREE 1\nb a 5\n@2 CUT 14 side a c d\n@2 BYE\n";

/// What `SECOND` gets.
const SECOND_REPLIES: &[u8] = b"@2 LOADED routers 4 links 5\n@2 CUT 14 side b\n@2 BYE\n";

/// A session, in which one worker builds a tree.
fn make_session(alloc: Global) -> Result<Session, NoMemory> {
    Session::make(alloc, 1)
}

/// A peer that gives a BYE, and has room for its reply.
fn make_peer(alloc: Global) -> Result<MemoryPeer, Fail> {
    Ok(MemoryPeer {
        source: MemorySource::make(b"BYE\n".to_vec(alloc)?, 3, Vec::new(alloc)),
        sink: MemorySink::make(alloc, 7, Vec::new(alloc))?,
    })
}

/// Serves a peer that waits by a future.
fn serve_by_future<R, H: Shelf, P: Peer, G: Gate + Sync>(
    rt: &R,
    session: Session,
    shelf: &mut H,
    peer: &mut P,
    gate: &G,
) -> io::Result<SessionEnd>
where
    R: Threads + Wait + Sync + RandomSource + AllocGlobal,
{
    let task = SessionTask::make(session);
    let mut ready = ReadyPeer { peer };
    let mut future = TaskFuture::make(rt.alloc(), rt, task, shelf, &mut ready, gate);
    let polled = poll_fn(
        move |cx: &mut Context<'_>|
            requires { CanTurn (H.seen future.shelf.now) future.task }
        { future.poll(cx) },
    );
    block_on(rt, polled)
}

#[test]
fn a_session_is_a_future(rt: HostRuntime) -> Result<(), Fail> {
    let mut shelf = SoloShelf::make(rt.alloc())?;
    let mut peer = make_peer(rt.alloc())?;
    let session = make_session(rt.alloc())?;
    let end = serve_by_future(&rt, session, &mut shelf, &mut peer, &OpenGate)?;
    assert_eq!(rt; end, SessionEnd::Done);
    assert_eq!(rt; peer.sink.written(), b"@0 BYE\n".as_slice());
    Ok(())
}

/// Polls a task whose session has ended so: no turn is made, and the same end is given.
fn poll_again<R: Threads + Wait + Sync, H: Shelf, P: Belled, G: Gate + Sync>(
    future: &mut TaskFuture<'_, R, H, P, G>,
    cx: &mut Context<'_>,
    end: SessionEnd,
) -> Poll<SessionEnd>
    requires ended { future.old.task.ended ≡ Some end }
    ensures same_end { result ≡ Poll.Ready end }
    ensures task { future.new.task ≡ future.old.task }
    ensures shelf { future.new.shelf.now ≡ future.old.shelf.now }
    ensures peer { future.new.peer.now ≡ future.old.peer.now }
    ensures kept { Keeps cx.old cx.new }
{
    let _ = end;
    future.poll(cx)
}

/// Polls a task, and once more if its session has ended.
fn poll_past_the_end<R: Threads + Wait + Sync, H: Shelf, P: Belled, G: Gate + Sync>(
    future: &mut TaskFuture<'_, R, H, P, G>,
    cx: &mut Context<'_>,
) -> Option<(SessionEnd, Poll<SessionEnd>)>
    requires can { CanTurn (H.seen future.old.shelf.now) future.old.task }
    ensures same_end { IfSome result (λ ends. ends.1 ≡ Poll.Ready ends.0) }
    ensures kept { Keeps cx.old cx.new }
{
    match future.poll(cx) {
        Poll::Ready(end) => Some((end, poll_again(future, cx, end))),
        Poll::Pending => None,
    }
}

/// Serves a peer that waits by polls to the end and one past it.
fn serve_past_the_end<R, H: Shelf, P: Peer, G: Gate + Sync>(
    rt: &R,
    session: Session,
    shelf: &mut H,
    peer: &mut P,
    gate: &G,
) -> io::Result<Option<(SessionEnd, Poll<SessionEnd>)>>
where
    R: Threads + Wait + Sync + RandomSource + AllocGlobal,
{
    let task = SessionTask::make(session);
    let mut ready = ReadyPeer { peer };
    let mut future = TaskFuture::make(rt.alloc(), rt, task, shelf, &mut ready, gate);
    let polled = lazy(
        move |cx: &mut Context<'_>|
            requires { CanTurn (H.seen future.shelf.now) future.task }
        { poll_past_the_end(&mut future, cx) },
    );
    block_on(rt, polled)
}

#[test]
fn a_poll_after_the_end_gives_the_same_end(rt: HostRuntime) -> Result<(), Fail> {
    let mut shelf = SoloShelf::make(rt.alloc())?;
    let mut peer = make_peer(rt.alloc())?;
    let session = make_session(rt.alloc())?;
    let ends = serve_past_the_end(&rt, session, &mut shelf, &mut peer, &OpenGate)?;
    assert!(rt;
        matches!(
            ends,
            Some((SessionEnd::Done, Poll::Ready(SessionEnd::Done)))
        )
    );
    assert_eq!(rt; peer.sink.written(), b"@0 BYE\n".as_slice());
    Ok(())
}

/// A session and the peer that it serves.
#[derive(Drop)]
struct Client {
    task: SessionTask,
    peer: MemoryLazyPeer,
}

impl Client {
    /// A client that gives these bytes. Each second call of its peer isn't ready, and each other one moves one byte.
    fn make(alloc: Global, bytes: &[u8]) -> Result<Client, Fail>
        ensures held { IfOk result (λ client. (records : List RecordView) → CanTurn records client.task) }
        ensures on { IfOk result (λ client. (open_text : Option (List (List ℕ))) × (rest : List ℕ)
            × ((at : Shelved) → MayBe (here_at at (wire_of client.peer) client.task.kept) open_text rest)) }
    {
        let mut late = Vec::new(alloc);
        for half in 1..=MOST_TURNS {
            late.push(2 * half)?;
        }
        let peer = MemoryLazyPeer::make(
            alloc,
            bytes.to_vec(alloc)?,
            1,
            100,
            late,
            Vec::new(alloc),
        )?;
        Ok(Client::begin(make_session(alloc)?, peer))
    }

    /// A client whose session begins anew.
    fn begin(session: Session, peer: MemoryLazyPeer) -> Client
        ensures held { (records : List RecordView) → CanTurn records result.task }
        ensures on { (open_text : Option (List (List ℕ))) × (rest : List ℕ)
            × ((at : Shelved) → MayBe (here_at at (wire_of result.peer) result.task.kept) open_text rest) }
    {
        let task = SessionTask::make(session);
        Client { task, peer }
    }

    /// Makes a turn, if the session hasn't ended. Another client of the shelf may go on afterwards too.
    fn go_on<R: Threads + Wait + Sync, H: Shelf>(
        &mut self,
        alloc: Global,
        rt: &R,
        shelf: &mut H,
        other: &Client,
    )
        requires held { CanTurn (H.seen shelf.old) self.old.task }
        requires other { CanTurn (H.seen shelf.old) other.now.task }
        requires on { self.old.task.ended ≡ None → (open_text : Option (List (List ℕ))) × (rest : List ℕ)
            × ((at : Shelved) → MayBe (here_at at (wire_of self.old.peer) self.old.task.kept) open_text rest) }
        ensures held { CanTurn (H.seen shelf.new) self.new.task }
        ensures other { CanTurn (H.seen shelf.new) other.now.task }
        ensures on { self.new.task.ended ≡ None → (open_text : Option (List (List ℕ))) × (rest : List ℕ)
            × ((at : Shelved) → MayBe (here_at at (wire_of self.new.peer) self.new.task.kept) open_text rest) }
    {
        if self.task.ended().is_none() {
            self.turn(alloc, rt, shelf, other);
        }
    }

    /// Makes a turn of a session that hasn't ended.
    fn turn<R: Threads + Wait + Sync, H: Shelf>(
        &mut self,
        alloc: Global,
        rt: &R,
        shelf: &mut H,
        _other: &Client,
    )
        requires unended { self.old.task.ended ≡ None }
        requires held { CanTurn (H.seen shelf.old) self.old.task }
        requires other { CanTurn (H.seen shelf.old) _other.now.task }
        requires on { (open_text : Option (List (List ℕ))) × (rest : List ℕ)
            × ((at : Shelved) → MayBe (here_at at (wire_of self.old.peer) self.old.task.kept) open_text rest) }
        ensures held { CanTurn (H.seen shelf.new) self.new.task }
        ensures other { CanTurn (H.seen shelf.new) _other.now.task }
        ensures on { self.new.task.ended ≡ None → (open_text : Option (List (List ℕ))) × (rest : List ℕ)
            × ((at : Shelved) → MayBe (here_at at (wire_of self.new.peer) self.new.task.kept) open_text rest) }
    {
        self.task.turn(alloc, rt, shelf, &mut self.peer, &OpenGate);
    }

    /// Whether the session is done, with these replies.
    fn has_got(&self, replies: &[u8]) -> bool {
        self.task.ended() == Some(SessionEnd::Done) && self.peer.written() == replies
    }
}

#[test]
fn two_sessions_go_on_byte_by_byte_on_one_shelf(rt: HostRuntime) -> Result<(), Fail> {
    let alloc = rt.alloc();
    let mut shelf = SoloShelf::make(alloc)?;
    let mut first = Client::make(alloc, FIRST)?;
    let mut second = Client::make(alloc, SECOND)?;
    'turns: for _ in 0..MOST_TURNS {
        first.go_on(alloc, &rt, &mut shelf, &second);
        second.go_on(alloc, &rt, &mut shelf, &first);
    }
    assert!(rt; first.has_got(FIRST_REPLIES));
    assert!(rt; second.has_got(SECOND_REPLIES));
    Ok(())
}
