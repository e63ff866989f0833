//! A program for tests: a session over a peer that fails and isn't ready at chosen calls.
//!
//! It reads its standard input to the end, serves it turn by turn, and writes what the session wrote. Its words are
//! five numbers: how many bytes a call of the peer moves at most, the first call that isn't ready (0: each is), how
//! many calls lie from one of these to the next (0: there is one only), the call that fails (0: none does), and how
//! many bytes may be written. The exit status is that of a run that ends so, or 6 where the words are wrong or the
//! program itself failed.
#![tactic(auto)]

use cut_model::NoMemory;
use session::{Session, SessionEnd, SessionTask, Turn};
use std::alloc::{AllocError, Global};
use std::env;
use std::io::{self, Read, Write};
use std::process::ExitCode;
use std::rt::Env;
use std::sync::Wait;
use std::thread::Threads;
use text_forms::parse_number;
use tree_versions::SoloShelf;
use wires::MemoryLazyPeer;
use worker_gate::OpenGate;

/// Behind this call none is late.
const LAST_LATE: u32 = 4_000;

/// After so many turns a session is given up.
const MOST_TURNS: u32 = 100_000;

/// The exit status where the program itself failed.
const FAILED: u8 = 6;

/// How the peer behaves.
#[derive(Clone, Copy)]
struct Manner {
    piece: usize,
    late: u32,
    step: u32,
    failing: u32,
    room: usize,
}

/// The number that a word is, if it is one of 32 bits.
fn number(word: &String) -> Option<u32> {
    u32::try_from(parse_number(word.as_bytes())?).ok()
}

/// What the words say of the peer.
fn read_manner(words: &[String]) -> Option<Manner> {
    let [piece, late, step, failing, room] = words else {
        return None;
    };
    Some(Manner {
        piece: number(piece)? as usize,
        late: number(late)?,
        step: number(step)?,
        failing: number(failing)?,
        room: number(room)? as usize,
    })
}

/// Whether a call isn't ready.
fn is_late(manner: Manner, call: u32) -> bool {
    call == manner.late
        || (manner.late > 0
            && manner.step > 0
            && call > manner.late
            && (call - manner.late) % manner.step == 0)
}

/// The calls that aren't ready.
fn late_calls(alloc: Global, manner: Manner) -> Result<Vec<u32>, AllocError> {
    let mut calls = Vec::new(alloc);
    for call in 1..=LAST_LATE {
        if is_late(manner, call) {
            calls.push(call)?;
        }
    }
    Ok(calls)
}

/// Serves a session to its end, if that comes in so many turns.
fn serve<R: Threads + Wait + Sync>(
    alloc: Global,
    rt: &R,
    peer: &mut MemoryLazyPeer,
) -> Result<Option<SessionEnd>, NoMemory> {
    let mut shelf = SoloShelf::make(alloc)?;
    let mut task = SessionTask::make(Session::make(alloc, 1)?);
    'turns: for _ in 0..MOST_TURNS {
        if let Turn::Ended(end) = task.turn(alloc, rt, &mut shelf, peer, &OpenGate) {
            return Ok(Some(end));
        }
    }
    Ok(None)
}

/// The exit status of a session that ended so.
fn code_of(end: SessionEnd) -> u8 {
    match end {
        SessionEnd::Done => 0,
        SessionEnd::ReadFault => 2,
        SessionEnd::WriteFault => 3,
        SessionEnd::TooLong => 5,
    }
}

/// A peer that behaves so and gives these bytes.
fn make_peer(alloc: Global, manner: Manner, bytes: Vec<u8>) -> Option<MemoryLazyPeer> {
    let mut failing = Vec::new(alloc);
    if manner.failing > 0 {
        failing.push(manner.failing).ok()?;
    }
    if manner.piece == 0 {
        return None;
    }
    let late = late_calls(alloc, manner).ok()?;
    MemoryLazyPeer::make(alloc, bytes, manner.piece, manner.room, late, failing).ok()
}

/// Serves these bytes by such a peer, and gives it back with how the session ended.
fn serve_bytes<R: Threads + Wait + Sync>(
    alloc: Global,
    rt: &R,
    manner: Manner,
    bytes: Vec<u8>,
) -> Option<(MemoryLazyPeer, SessionEnd)> {
    let mut peer = make_peer(alloc, manner, bytes)?;
    let end = serve(alloc, rt, &mut peer).ok()??;
    Some((peer, end))
}

/// What the words say of the peer, and the standard input.
fn take_input<R: Env + AllocGlobal, I: Read + Drop>(
    rt: &R,
    mut input: I,
) -> Option<(Manner, Vec<u8>)> {
    let words: Vec<String> = env::args(rt).ok()?.skip(1).collect(rt.alloc()).ok()?;
    let manner = read_manner(&words)?;
    let mut bytes = Vec::new(rt.alloc());
    input.read_to_end(&mut bytes).ok()?;
    Some((manner, bytes))
}

fn main(rt: HostRuntime) -> ExitCode {
    let Some((manner, bytes)) = take_input(&rt, rt.reader()) else {
        return ExitCode::from(FAILED);
    };
    let Some((peer, end)) = serve_bytes(rt.alloc(), &rt, manner, bytes) else {
        return ExitCode::from(FAILED);
    };
    match io::writer(&rt).write_all(peer.written()) {
        Ok(()) => ExitCode::from(code_of(end)),
        Err(_) => ExitCode::from(FAILED),
    }
}
