//! The check of a certificate.
ghost use Rattle.std.specs.Prelude.{◌≡◌, ℕ, ◌<◌, ◌⊎◌, List, length, true, Some};
ghost use Rattle.certifier.specs.Certificates.{verdict_on};
ghost use Rattle.certifier.specs.Checks.{Checks, Tells, is_read_fault, is_write_fault};
ghost use Rattle.certifier.specs.Judging.{IsEndFor, Judges, TellsEnd, accepted_text, is_failed, refused_text};
ghost use Rattle.line_reader.specs.declared.reader.TheConstants.{MOST_BYTES};
ghost use Rattle.wires.specs.Causes.{CountsOne, Rose};
ghost use Rattle.wires.specs.Puts.{Puts};

use crate::checker::judge_lines;
use crate::fault::Fault;
use crate::judged::Judged;
use itoa::Buffer;
use std::alloc::Global;
use wires::{Failed, Pair, Peer, ReadyPeer, Sink, Source, put_pieces};

/// How a check ended.
#[derive(Clone, Copy, PartialEq, Eq, Debug)]
pub enum CheckEnd {
    /// The certificate is valid, and the line that says so was written.
    Accepted,
    /// It is not, and the line that tells its first fault was written.
    Refused {
        /// The number of the fault: 30 to 39.
        fault: u32,
        /// The line of which it is told, counted from 1.
        line: u32,
    },
    /// A read failed, and the lines that were taken decide nothing.
    ReadFault,
    /// A put failed.
    WriteFault,
    /// [`MOST_BYTES`](line_reader::MOST_BYTES) were taken, and their lines decide nothing.
    TooLong,
    /// Memory was wanted.
    NoMemory,
}

/// Judges the lines of a peer.
fn judge_peer<P: Peer>(alloc: Global, peer: &mut P) -> Judged
    ensures judges { Judges result
        (record { left = P.left peer.old; ended = P.ended peer.old; written = P.written peer.old })
        (record { left = P.left peer.new; ended = P.ended peer.new; written = P.written peer.new }) }
    ensures written { P.written peer.new ≡ P.written peer.old }
    ensures read_count { CountsOne (P.read_faults peer.old) (P.read_faults peer.new) (is_failed result) }
    ensures write_count { P.write_faults peer.new ≡ P.write_faults peer.old }
    ensures beside { P.beside_peer peer.new ≡ P.beside_peer peer.old }
{
    judge_lines(alloc, &mut ReadyPeer { peer })
}

/// Judges the lines of a source, and leaves the sink beside it.
fn judge_source<S: Source, K: Sink>(alloc: Global, source: &mut S, sink: &mut K) -> Judged
    ensures judges { Judges result
        (record { left = S.left source.old; ended = S.ended source.old; written = K.written sink.old })
        (record { left = S.left source.new; ended = S.ended source.new; written = K.written sink.new }) }
    ensures written { K.written sink.new ≡ K.written sink.old }
    ensures read_count { CountsOne (S.read_faults source.old) (S.read_faults source.new) (is_failed result) }
    ensures write_count { K.write_faults sink.new ≡ K.write_faults sink.old }
    ensures beside_source { S.beside_source source.new ≡ S.beside_source source.old }
    ensures beside_sink { K.beside_sink sink.new ≡ K.beside_sink sink.old }
{
    judge_peer(alloc, &mut Pair { source, sink })
}

/// Writes that a certificate was accepted, of a network of so many routers and links.
#[tactic(auto, unfolding(crate::specs::Judging::accepted_text))]
fn write_accepted<K: Sink>(routers: u32, links: usize, sink: &mut K) -> Result<(), Failed>
    ensures { Puts K.Sink sink.old sink.new result (accepted_text routers links) }
{
    let mut router_digits = Buffer::new();
    let mut link_digits = Buffer::new();
    put_pieces(
        &[
            b"accepted routers ",
            router_digits.format(routers).as_bytes(),
            b" links ",
            link_digits.format(links).as_bytes(),
            b"\n",
        ],
        sink,
    )
}

/// Writes the first fault of a certificate.
#[tactic(auto, unfolding(crate::specs::Judging::refused_text))]
fn write_refused<K: Sink>(fault: Fault, sink: &mut K) -> Result<(), Failed>
    ensures { Puts K.Sink sink.old sink.new result (refused_text fault.number fault.line) }
{
    let mut number_digits = Buffer::new();
    let mut line_digits = Buffer::new();
    put_pieces(
        &[
            b"refused ",
            number_digits.format(fault.number).as_bytes(),
            b" line ",
            line_digits.format(fault.line).as_bytes(),
            b"\n",
        ],
        sink,
    )
}

/// Tells that a certificate was accepted.
fn tell_accepted<K: Sink>(routers: u32, links: usize, sink: &mut K) -> CheckEnd
    ensures tells { TellsEnd (Judged.Accepted routers links) result (K.written sink.old) (K.written sink.new) }
    ensures end { IsEndFor (Judged.Accepted routers links) result }
    ensures write_count { CountsOne (K.write_faults sink.old) (K.write_faults sink.new) (is_write_fault result) }
    ensures beside { K.beside_sink sink.new ≡ K.beside_sink sink.old }
{
    match write_accepted(routers, links, sink) {
        Ok(()) => CheckEnd::Accepted,
        Err(Failed) => CheckEnd::WriteFault,
    }
}

/// Tells the first fault of a certificate.
fn tell_refused<K: Sink>(fault: Fault, sink: &mut K) -> CheckEnd
    ensures tells { TellsEnd (Judged.Refused fault) result (K.written sink.old) (K.written sink.new) }
    ensures end { IsEndFor (Judged.Refused fault) result }
    ensures write_count { CountsOne (K.write_faults sink.old) (K.write_faults sink.new) (is_write_fault result) }
    ensures beside { K.beside_sink sink.new ≡ K.beside_sink sink.old }
{
    match write_refused(fault, sink) {
        Ok(()) => CheckEnd::Refused {
            fault: fault.number,
            line: fault.line,
        },
        Err(Failed) => CheckEnd::WriteFault,
    }
}

/// Tells what was judged, where something was.
fn tell<K: Sink>(judged: Judged, sink: &mut K) -> CheckEnd
    ensures tells { TellsEnd judged result (K.written sink.old) (K.written sink.new) }
    ensures end { IsEndFor judged result }
    ensures write_count { CountsOne (K.write_faults sink.old) (K.write_faults sink.new) (is_write_fault result) }
    ensures beside { K.beside_sink sink.new ≡ K.beside_sink sink.old }
{
    match judged {
        Judged::Accepted { routers, links } => tell_accepted(routers, links, sink),
        Judged::Refused(fault) => tell_refused(fault, sink),
        Judged::ReadFault => CheckEnd::ReadFault,
        Judged::TooLong => CheckEnd::TooLong,
        Judged::NoMemory => CheckEnd::NoMemory,
    }
}

/// Checks a certificate: reads its lines up to its last one, or to its first fault, and writes one line that tells
/// the verdict. A text of the title, the network of `link a b 7`, the root `a`, the edge `edge b a 7` with its flow
/// `on -7`, and `DONE` gets `accepted routers 2 links 1`; with `on 7` in its place it gets `refused 37 line 5`.
///
/// Whatever comes behind the last line, or behind a fault, is not looked at. The contract says for each end what the
/// bytes that were taken come to, and what was written; where the source tells what it has left and nothing fails, the
/// verdict on all of that is told, unless memory was wanted, or
/// [`MOST_BYTES`](line_reader::MOST_BYTES) decided nothing. What a source or a sink doesn't tell of its bytes is left
/// open.
///
/// It keeps the network, the edges without their flows, and one sum for each router: less than 2 MB. Each line is
/// looked at once. A flow takes time in its links, and its end in the routers; at the last line the tree takes time in
/// the routers times the routers and links.
pub fn check<S: Source, K: Sink>(alloc: Global, source: &mut S, sink: &mut K) -> CheckEnd
    // It took bytes, and wrote the line of their verdict.
    ensures checks { Checks result
        (record { left = S.left source.old; ended = S.ended source.old; written = K.written sink.old })
        (record { left = S.left source.new; ended = S.ended source.new; written = K.written sink.new }) }

    // Where nothing fails and the bytes aren't too many, the verdict on all of them is told.
    ensures exact { (bytes : List ℕ) → S.left source.old ≡ Some bytes
        → (Rose (S.read_faults source.old) (S.read_faults source.new) → ⊥)
        → (Rose (K.write_faults sink.old) (K.write_faults sink.new) → ⊥) → (result ≡ CheckEnd.TooLong → ⊥)
        → Tells result (verdict_on true bytes) ⊎ (result ≡ CheckEnd.NoMemory) }

    // Fewer than MOST_BYTES aren't too many.
    ensures completes { (bytes : List ℕ) → S.left source.old ≡ Some bytes → length bytes < MOST_BYTES
        → (Rose (S.read_faults source.old) (S.read_faults source.new) → ⊥)
        → (Rose (K.write_faults sink.old) (K.write_faults sink.new) → ⊥)
        → Tells result (verdict_on true bytes) ⊎ (result ≡ CheckEnd.NoMemory) }

    // Each count of faults is one more where the check ended by such a fault, and else as before.
    ensures read_cause { CountsOne (S.read_faults source.old) (S.read_faults source.new) (is_read_fault result) }
    ensures write_cause { CountsOne (K.write_faults sink.old) (K.write_faults sink.new) (is_write_fault result) }

    // Nothing else of the two objects changed.
    ensures beside_source { S.beside_source source.new ≡ S.beside_source source.old }
    ensures beside_sink { K.beside_sink sink.new ≡ K.beside_sink sink.old }
{
    let judged = judge_source(alloc, source, sink);
    tell(judged, sink)
}
