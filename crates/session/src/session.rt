//! A session: its scratch, and the call that serves one peer.
ghost use Rattle.std.specs.Prelude.{◌≡◌, ◌≤◌, ◌<◌, ◌^◌, ◌++◌, ℕ, List, Some, Bool, false, length};
ghost use Rattle.job_queue.specs.declared.jobs.TheConstants.{MOST_WORKERS};
ghost use Rattle.line_reader.specs.declared.reader.TheConstants.{MOST_BYTES};
ghost use Rattle.session.specs.Sessions.{EndsAs, moment, moment_at};
ghost use Rattle.session.specs.Shelved.{shelved};
ghost use Rattle.session.specs.Turns.{IsAnew, TurnCounts, is_read_fault, is_write_fault};
ghost use Rattle.text_forms.specs.Items.{NoBye, items_of};
ghost use Rattle.wires.specs.Causes.{CountsOne, Rose};

use crate::means::Means;
use crate::state::State;
use cut_model::NoMemory;
use job_queue::MOST_WORKERS;
use line_reader::LineReader;
use std::alloc::Global;
use std::marker::Model;
use std::sync::Wait;
use std::thread::Threads;
use tree_versions::Shelf;
use wires::{LazyPeer, Peer, ReadyPeer};
use worker_gate::Gate;

/// How a session ends.
#[derive(Clone, Copy, PartialEq, Eq, Debug)]
pub enum SessionEnd {
    /// The end of the input was met, or a BYE was answered.
    Done,
    /// The peer failed to read.
    ReadFault,
    /// The peer failed to write.
    WriteFault,
    /// MOST_BYTES were taken.
    TooLong,
}

/// What a turn answers.
#[derive(Clone, Copy, PartialEq, Eq, Debug)]
pub enum Turn {
    /// The session has ended.
    Ended(SessionEnd),
    /// The peer isn't ready.
    NotYet,
}

/// The scratch of a session: the reader of its lines, the text that is open and the reply in work. Nothing of one
/// session lasts into the next.
#[derive(Drop)]
pub struct Session {
    pub(crate) reader: LineReader,
    pub(crate) state: State,
    pub(crate) over: bool,
}

impl Model for Session {
    ghost use Rattle.std.specs.Prelude.{◌+◌, ◌≤◌, length};
    ghost use Rattle.line_reader.specs.declared.reader.TheConstants.{MOST_BYTES};
    ghost use Rattle.session.specs.Taking.{lines_in};
    ghost use Rattle.session.specs.Turns.{Kept};

    ghost Value = { Kept };

    ghost view = { λ s. record { intake = s.state.intake; reader = s.reader; over = s.over; work = s.state.desk } };

    ghost invariant = { λ s.
        (lines_in s.state.intake + length s.reader.bytes ≤ s.reader.taken) × (s.reader.taken ≤ MOST_BYTES) };
}

impl Session {
    /// Takes all memory that a session needs beside that of the texts that it loads and of their trees, each of which
    /// so many workers will build, from 1 to [`MOST_WORKERS`].
    ///
    /// # Errors
    /// [`NoMemory`] where that memory can't be had.
    pub fn make(alloc: Global, workers: u32) -> Result<Session, NoMemory>
        requires some { 0 < workers }
        requires most { workers ≤ MOST_WORKERS }
    {
        Ok(Session {
            reader: LineReader::make(alloc)?,
            state: State::make(alloc, workers)?,
            over: false,
        })
    }

    /// Begins anew: no bytes are held, no text is open, and nothing is owed.
    pub(crate) fn restart(&mut self)
        ensures { IsAnew self.new }
    {
        self.reader.restart();
        self.state.restart();
        self.over = false;
    }
}

/// Serves one peer: it reads request lines to the end of the input or to BYE, and puts one reply for each
/// item. The tree of a network that it loads is built by the session's workers, whose cuts the gate
/// computes. Whatever the session was used for before, it begins without bytes and with the records that
/// the shelf has seen. It is one turn over a peer that is always ready.
///
/// The contract says for each end what was written: the replies to the whole items of the bytes that were
/// taken, over the records that the shelf has seen at the end. At most [`MOST_BYTES`] are taken. Bytes that
/// were read past a BYE are dropped. What a peer doesn't tell of its bytes is left open.
pub fn serve_session<R: Threads + Wait + Sync, H: Shelf, P: Peer, G: Gate + Sync>(
    alloc: Global,
    rt: &R,
    session: &mut Session,
    shelf: &mut H,
    peer: &mut P,
    gate: &G,
) -> SessionEnd
    // What was written answers the items that were read. What is seen begins with what was seen, and so many
    // records were published as there were accepted LOADs.
    ensures ends { EndsAs result (H.alone shelf.old)
        (moment_at (shelved H.Shelf shelf.old) (P.left peer.old) (P.ended peer.old) (P.written peer.old))
        (moment_at (shelved H.Shelf shelf.new) (P.left peer.new) (P.ended peer.new) (P.written peer.new)) }
    ensures alone { H.alone shelf.new ≡ H.alone shelf.old }

    // Where the peer tells that it has fewer than MOST_BYTES left, and doesn't fail, the session is done.
    ensures completes { (bytes : List ℕ) → P.left peer.old ≡ Some bytes → length bytes < MOST_BYTES
        → (Rose (P.read_faults peer.old) (P.read_faults peer.new) → ⊥)
        → (Rose (P.write_faults peer.old) (P.write_faults peer.new) → ⊥) → result ≡ SessionEnd.Done }

    // Too many bytes always end so, where no put failed.
    ensures always_too_long { (taken rest : List ℕ) → P.left peer.old ≡ Some (taken ++ rest)
        → P.left peer.new ≡ Some rest → length taken ≡ MOST_BYTES → P.ended peer.new ≡ false
        → NoBye (items_of false taken)
        → (Rose (P.write_faults peer.old) (P.write_faults peer.new) → ⊥) → result ≡ SessionEnd.TooLong }

    // Each fault has its cause, and no count of faults falls: each is one more at its own end, and else as before.
    ensures read_fault { result ≡ SessionEnd.ReadFault → Rose (P.read_faults peer.old) (P.read_faults peer.new) }
    ensures write_fault { result ≡ SessionEnd.WriteFault → Rose (P.write_faults peer.old) (P.write_faults peer.new) }
    ensures reads { P.read_faults peer.old ≤ P.read_faults peer.new }
    ensures writes { P.write_faults peer.old ≤ P.write_faults peer.new }
    ensures read_count { CountsOne (P.read_faults peer.old) (P.read_faults peer.new)
        (is_read_fault (Turn.Ended result)) }
    ensures write_count { CountsOne (P.write_faults peer.old) (P.write_faults peer.new)
        (is_write_fault (Turn.Ended result)) }

    // Nothing else of the peer changed.
    ensures beside { P.beside_peer peer.new ≡ P.beside_peer peer.old }
{
    session.restart();
    let mut ready = ReadyPeer { peer };
    serve_ready(&Means { alloc, rt, gate }, session, shelf, &mut ready)
}

/// Serves a session that begins anew, over a peer that is always ready, in one turn.
fn serve_ready<R: Threads + Wait + Sync, H: Shelf, P: LazyPeer, G: Gate + Sync>(
    means: &Means<'_, R, G>,
    session: &mut Session,
    shelf: &mut H,
    peer: &mut P,
) -> SessionEnd
    requires anew { IsAnew session.old }
    requires reads { (peer : P) → (P.counts peer).reads_not_yet ≡ 0 }
    requires puts { (peer : P) → (P.counts peer).puts_not_yet ≡ 0 }
    ensures ends { EndsAs result (H.alone shelf.old) (moment (shelved H.Shelf shelf.old) (P.wire peer.old))
        (moment (shelved H.Shelf shelf.new) (P.wire peer.new)) }
    ensures always_too_long { (taken rest : List ℕ) → (P.wire peer.old).left ≡ Some (taken ++ rest)
        → (P.wire peer.new).left ≡ Some rest → length taken ≡ MOST_BYTES → (P.wire peer.new).ended ≡ false
        → NoBye (items_of false taken) → (result ≡ SessionEnd.WriteFault → ⊥) → result ≡ SessionEnd.TooLong }
    ensures counts { (owed : Bool) × TurnCounts (Turn.Ended result) owed (P.counts peer.old) (P.counts peer.new) }
    ensures alone { H.alone shelf.new ≡ H.alone shelf.old }
    ensures beside { P.beside_lazy peer.new ≡ P.beside_lazy peer.old }
{
    let turn = session.turn(means, shelf, peer);
    let _ = &session.over;
    match turn {
        Turn::Ended(end) => end,
        Turn::NotYet => unreachable!(),
    }
}
