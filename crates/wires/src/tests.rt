//! What no clause says: that the calls which take memory succeed, and what std's readers and writers do.

ghost use Rattle.std.specs.Prelude.{◌≡◌, ◌≢◌, IfOk};
ghost use Rattle.std.specs.Io.KnownBytes.{Appends, ReadConsumes};
ghost use Rattle.wires.specs.Bytes.{PutAppends};
ghost use Rattle.wires.specs.Lazy.{PutCounts, PutTells, PutWrites, ReadCounts, ReadTakes, ReadTells};

use crate::*;
use std::io;
use std::io::{ErrorKind, Read, Write};
use std::test::Fail;

#[test]
fn memory_sink_keeps_what_fits(rt: HostRuntime) -> Result<(), Fail> {
    let mut sink = MemorySink::make(rt.alloc(), 6, [2u32].to_vec(rt.alloc())?)?;
    assert_eq!(rt; put_pieces(&[b"ab", b"c"], &mut sink), Err(Failed));
    assert_eq!(rt; put_pieces(&[b"de", b"fg"], &mut sink), Ok(()));
    assert_eq!(rt; sink.put(b"h"), Err(Failed));
    assert_eq!(rt; sink.written(), b"abdefg".as_slice());
    Ok(())
}

#[test]
fn standard_source_reads_to_the_end(rt: HostRuntime) {
    let text: &[u8] = b"abc";
    let mut source = StdSource::make(text);
    let mut buffer = [0u8; 2];
    assert_eq!(rt; source.read(&mut buffer), Ok(2));
    assert_eq!(rt; source.read(&mut buffer), Ok(1));
    assert_eq!(rt; source.read(&mut buffer), Ok(0));
    assert_eq!(rt; source.read(&mut buffer), Ok(0));
    assert_eq!(rt; buffer, [b'c', b'b']);
}

#[test]
fn standard_sink_writes_the_whole_piece(rt: HostRuntime) -> Result<(), Fail> {
    let mut sink = StdSink::make(Vec::new(rt.alloc()));
    assert_eq!(rt; sink.put(b"abc"), Ok(()));
    Ok(())
}

// Is interrupted at each other call. It gives and takes a byte a call, so many in all; then a read fails, and a write
// takes none.
#[derive(Drop)]
struct Stuttering {
    is_interrupted: bool,
    left: usize,
}

impl Stuttering {
    fn one_more(&mut self) -> io::Result<usize> {
        self.is_interrupted = !self.is_interrupted;
        if self.is_interrupted {
            return Err(io::Error::from(ErrorKind::Interrupted));
        }
        let count = self.left.min(1);
        self.left -= count;
        Ok(count)
    }
}

impl Read for Stuttering {
    fn read(&mut self, into: &mut [u8]) -> io::Result<usize> {
        match self.one_more()?.min(into.len()) {
            0 => Err(io::Error::from(ErrorKind::BrokenPipe)),
            count => Ok(count),
        }
    }
}

impl Write for Stuttering {
    fn write(&mut self, bytes: &[u8]) -> io::Result<usize> {
        Ok(self.one_more()?.min(bytes.len()))
    }

    fn flush(&mut self) -> io::Result<()> {
        Ok(())
    }
}

#[test]
fn interrupted_calls_are_made_again(rt: HostRuntime) {
    let mut source = StdSource::make(Stuttering {
        is_interrupted: false,
        left: 1,
    });
    let mut buffer = [0u8; 2];
    assert_eq!(rt; source.read(&mut buffer), Ok(1));
    assert_eq!(rt; source.read(&mut buffer), Err(Failed));
    let mut sink = StdSink::make(Stuttering {
        is_interrupted: false,
        left: 3,
    });
    assert_eq!(rt; sink.put(b"ab"), Ok(()));
    assert_eq!(rt; sink.put(b"cd"), Err(Failed));
}

// Reads from any peer, and leaves what it shows as a sink.
fn hear<P: Peer>(peer: &mut P, buffer: &mut [u8]) -> Result<usize, Failed>
    ensures reads { ReadConsumes (P.left peer.old) (P.left peer.new) result buffer.new }
    ensures written { P.written peer.new ≡ P.written peer.old }
    ensures faults { P.write_faults peer.new ≡ P.write_faults peer.old }
    ensures takes { P.takes peer.new ≡ P.takes peer.old }
    ensures beside { P.beside_peer peer.new ≡ P.beside_peer peer.old }
{
    peer.read(buffer)
}

// Puts to any peer, and leaves what it shows as a source.
fn tell<P: Peer>(peer: &mut P, bytes: &[u8]) -> Result<(), Failed>
    ensures bytes { PutAppends (P.written peer.old) (P.written peer.new) result bytes.now }
    ensures left { P.left peer.new ≡ P.left peer.old }
    ensures ended { P.ended peer.new ≡ P.ended peer.old }
    ensures faults { P.read_faults peer.new ≡ P.read_faults peer.old }
    ensures beside { P.beside_peer peer.new ≡ P.beside_peer peer.old }
{
    peer.put(bytes)
}

// Puts to any peer, and then reads from it.
fn ask<P: Peer>(peer: &mut P, bytes: &[u8], buffer: &mut [u8]) -> Result<usize, Failed>
    ensures reads { ReadConsumes (P.left peer.old) (P.left peer.new) result buffer.new }
    ensures written { IfOk result (λ _. Appends (P.written peer.old) (P.written peer.new) bytes.now) }
    ensures beside { P.beside_peer peer.new ≡ P.beside_peer peer.old }
{
    tell(peer, bytes)?;
    hear(peer, buffer)
}

// The same over two objects, which stay what they are beside a source and beside a sink.
fn ask_both<S: Source, K: Sink>(
    source: &mut S,
    sink: &mut K,
    bytes: &[u8],
    buffer: &mut [u8],
) -> Result<usize, Failed>
    ensures reads { ReadConsumes (S.left source.old) (S.left source.new) result buffer.new }
    ensures written { IfOk result (λ _. Appends (K.written sink.old) (K.written sink.new) bytes.now) }
    ensures beside_source { S.beside_source source.new ≡ S.beside_source source.old }
    ensures beside_sink { K.beside_sink sink.new ≡ K.beside_sink sink.old }
{
    ask(&mut Pair { source, sink }, bytes, buffer)
}

#[test]
fn memory_peer_is_read_and_put(rt: HostRuntime) -> Result<(), Fail> {
    let bytes = b"abcde".to_vec(rt.alloc())?;
    let source = MemorySource::make(bytes, 3, [2u32].to_vec(rt.alloc())?);
    let sink = MemorySink::make(rt.alloc(), 4, [3u32].to_vec(rt.alloc())?)?;
    let mut peer = MemoryPeer { source, sink };
    let mut buffer = [0u8; 8];
    assert_eq!(rt; ask(&mut peer, b"xy", &mut buffer), Ok(3));
    assert_eq!(rt; ask(&mut peer, b"z", &mut buffer), Err(Failed));
    assert_eq!(rt; tell(&mut peer, b"w"), Err(Failed));
    assert_eq!(rt; ask(&mut peer, b"w", &mut buffer), Ok(2));
    assert_eq!(rt; hear(&mut peer, &mut buffer), Ok(0));
    assert_eq!(rt; &buffer[..3], b"dec".as_slice());
    assert_eq!(rt; peer.sink.written(), b"xyzw".as_slice());
    Ok(())
}

#[test]
fn pair_reads_one_object_and_puts_to_the_other(rt: HostRuntime) -> Result<(), Fail> {
    let mut source = SureSource::make(b"abc".to_vec(rt.alloc())?);
    let mut sink = MemorySink::make(rt.alloc(), 4, Vec::new(rt.alloc()))?;
    let mut buffer = [0u8; 2];
    assert_eq!(rt; ask_both(&mut source, &mut sink, b"xy", &mut buffer), Ok(2));
    assert_eq!(rt; ask_both(&mut source, &mut sink, b"z", &mut buffer), Ok(1));
    assert_eq!(rt;
        ask_both(&mut source, &mut sink, b"vw", &mut buffer),
        Err(Failed)
    );
    assert_eq!(rt; source.read(&mut buffer), Ok(0));
    assert_eq!(rt; buffer, [b'c', b'b']);
    assert_eq!(rt; sink.written(), b"xyzv".as_slice());
    Ok(())
}

// Reads from any peer that may be not ready.
fn hear_now<L: LazyPeer>(peer: &mut L, buffer: &mut [u8]) -> Got
    ensures tells { ReadTells result buffer.new (L.wire peer.old) (L.wire peer.new) }
    ensures counts { ReadCounts result (L.counts peer.old) (L.counts peer.new) }
    ensures beside { L.beside_lazy peer.new ≡ L.beside_lazy peer.old }
{
    peer.read_now(buffer)
}

// Puts to any peer that may be not ready.
fn tell_now<L: LazyPeer>(peer: &mut L, bytes: &[u8]) -> Taken
    ensures tells { PutTells result bytes.now (L.wire peer.old) (L.wire peer.new) }
    ensures counts { PutCounts result (L.counts peer.old) (L.counts peer.new) }
    ensures beside { L.beside_lazy peer.new ≡ L.beside_lazy peer.old }
{
    peer.put_now(bytes)
}

// Reads from a peer that is lent as one that is always ready: no read isn't ready, and the peer shows
// afterwards what the read left of it.
fn hear_ready<P: Peer>(peer: &mut P, buffer: &mut [u8]) -> Got
    ensures ready { result ≢ Got.NotYet }
    ensures reads { ReadTakes result buffer.new (P.left peer.old) (P.left peer.new) }
    ensures written { P.written peer.new ≡ P.written peer.old }
    ensures faults { P.write_faults peer.new ≡ P.write_faults peer.old }
    ensures beside { P.beside_peer peer.new ≡ P.beside_peer peer.old }
{
    hear_now(&mut ReadyPeer { peer }, buffer)
}

// Puts to a peer that is lent so.
fn tell_ready<P: Peer>(peer: &mut P, bytes: &[u8]) -> Taken
    ensures ready { result ≢ Taken.NotYet }
    ensures puts { PutWrites result bytes.now (P.written peer.old) (P.written peer.new) }
    ensures left { P.left peer.new ≡ P.left peer.old }
    ensures ended { P.ended peer.new ≡ P.ended peer.old }
    ensures faults { P.read_faults peer.new ≡ P.read_faults peer.old }
    ensures beside { P.beside_peer peer.new ≡ P.beside_peer peer.old }
{
    tell_now(&mut ReadyPeer { peer }, bytes)
}

#[test]
fn ready_peer_is_a_peer_that_waits(rt: HostRuntime) -> Result<(), Fail> {
    let bytes = b"abcde".to_vec(rt.alloc())?;
    let source = MemorySource::make(bytes, 3, [2u32].to_vec(rt.alloc())?);
    let sink = MemorySink::make(rt.alloc(), 4, Vec::new(rt.alloc()))?;
    let mut peer = MemoryPeer { source, sink };
    let mut buffer = [0u8; 8];
    assert_eq!(rt; hear_ready(&mut peer, &mut buffer), Got::Bytes(3));
    assert_eq!(rt; hear_ready(&mut peer, &mut buffer), Got::Failed);
    assert_eq!(rt; tell_ready(&mut peer, b"xyz"), Taken::Bytes(3));
    assert_eq!(rt; hear_ready(&mut peer, &mut buffer), Got::Bytes(2));
    assert_eq!(rt; hear_ready(&mut peer, &mut buffer), Got::End);
    assert_eq!(rt; tell_ready(&mut peer, b"vw"), Taken::Failed);
    assert_eq!(rt; peer.sink.written(), b"xyzv".as_slice());
    Ok(())
}

// Reads and puts are counted together. Number 4 stands in both lists, and number 7 is behind the end.
#[test]
fn memory_lazy_peer_reads_by_its_rules(rt: HostRuntime) -> Result<(), Fail> {
    let bytes = b"abcde".to_vec(rt.alloc())?;
    let late = [3u32, 4].to_vec(rt.alloc())?;
    let failing = [4u32, 7].to_vec(rt.alloc())?;
    let mut peer = MemoryLazyPeer::make(rt.alloc(), bytes, 3, 4, late, failing)?;
    let mut buffer = [0u8; 4];
    assert_eq!(rt; peer.read_now(&mut buffer), Got::Bytes(3));
    assert_eq!(rt; peer.put_now(b"x"), Taken::Bytes(1));
    assert_eq!(rt; peer.read_now(&mut buffer), Got::NotYet);
    assert_eq!(rt; peer.read_now(&mut buffer), Got::Failed);
    assert_eq!(rt; peer.read_now(&mut buffer), Got::Bytes(2));
    assert_eq!(rt; peer.read_now(&mut buffer), Got::End);
    assert_eq!(rt; peer.read_now(&mut buffer), Got::End);
    assert_eq!(rt; buffer, [b'd', b'e', b'c', 0]);
    Ok(())
}

// Number 3 stands in both lists.
#[test]
fn memory_lazy_peer_keeps_what_fits(rt: HostRuntime) -> Result<(), Fail> {
    let late = [2u32, 3].to_vec(rt.alloc())?;
    let failing = [3u32].to_vec(rt.alloc())?;
    let mut peer = MemoryLazyPeer::make(rt.alloc(), Vec::new(rt.alloc()), 3, 4, late, failing)?;
    assert_eq!(rt; peer.put_now(b"vwxy"), Taken::Bytes(3));
    assert_eq!(rt; peer.put_now(b"y"), Taken::NotYet);
    assert_eq!(rt; peer.put_now(b"y"), Taken::Failed);
    assert_eq!(rt; peer.put_now(b"yz"), Taken::Bytes(1));
    assert_eq!(rt; peer.put_now(b"z"), Taken::Failed);
    assert_eq!(rt; peer.written(), b"vwxy".as_slice());
    Ok(())
}
