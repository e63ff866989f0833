//! That the reader works on real bytes, whatever pieces they come in and however late.

use crate::LineReader;
use std::test::Fail;
use wires::{Got, LazyPeer, MemoryLazyPeer};

// Takes a line or reads on: the answer of the read where no line was there.
fn go_on<P: LazyPeer>(reader: &mut LineReader, peer: &mut P) -> Option<Got> {
    if reader.next_line() || reader.is_spent() {
        return None;
    }
    Some(reader.read_now(peer))
}

// Takes a line, also one that the end of the input ends.
fn take_last(reader: &mut LineReader) -> bool {
    reader.next_line() || reader.last_line()
}

#[test]
fn no_byte_is_lost_where_reads_are_late_and_fail(rt: HostRuntime) -> Result<(), Fail> {
    let bytes = b"ab\n\ncde".to_vec(rt.alloc())?;
    let late = [2u32].to_vec(rt.alloc())?;
    let failing = [3u32].to_vec(rt.alloc())?;
    let mut peer = MemoryLazyPeer::make(rt.alloc(), bytes, 2, 0, late, failing)?;
    let mut reader = LineReader::make(rt.alloc())?;
    assert_eq!(rt; go_on(&mut reader, &mut peer), Some(Got::Bytes(2)));
    assert_eq!(rt; go_on(&mut reader, &mut peer), Some(Got::NotYet));
    assert_eq!(rt; go_on(&mut reader, &mut peer), Some(Got::Failed));
    assert_eq!(rt; go_on(&mut reader, &mut peer), Some(Got::Bytes(2)));
    assert_eq!(rt; go_on(&mut reader, &mut peer), None);
    assert_eq!(rt; reader.line(), b"ab".as_slice());
    assert_eq!(rt; go_on(&mut reader, &mut peer), None);
    assert_eq!(rt; reader.line(), b"".as_slice());
    assert_eq!(rt; go_on(&mut reader, &mut peer), Some(Got::Bytes(2)));
    assert_eq!(rt; go_on(&mut reader, &mut peer), Some(Got::Bytes(1)));
    assert_eq!(rt; go_on(&mut reader, &mut peer), Some(Got::End));
    assert!(rt; take_last(&mut reader));
    assert_eq!(rt; reader.line(), b"cde".as_slice());
    assert!(rt; !take_last(&mut reader));
    Ok(())
}
