//! Certificates through `check`, in ample memory.

use crate::{CheckEnd, check};
use std::alloc::Global;
use std::test::Fail;
use wires::{MemorySink, MemorySource};

/// The certificate of three routers in a row, as a reply tells it, with more behind it.
const REPLY: &[u8] =
    b"@1 CERTIFICATE 15\ncut tree 1\nrouter a\nrouter b\nrouter c\nlink a b 5\nlink b c 4\n\
    END\nroot a\nedge b a 5\non -5\non 0\nedge c b 4\non 0\non -4\nDONE\n@1 BYE\n";

/// The first edge is wider than its flow.
const TOO_WIDE: &[u8] = b"cut tree 1\nrouter a\nrouter b\nrouter c\nlink a b 5\nlink b c 4\n\
    END\nroot a\nedge b a 6\non -5\non 0\nedge c b 4\non 0\non -4\nDONE\n";

/// A link carries more than it can.
const TOO_MUCH: &[u8] = b"cut tree 1\nrouter a\nrouter b\nrouter c\nlink a b 5\nlink b c 4\n\
    END\nroot a\nedge b a 5\non -6\non 0\nedge c b 4\non 0\non -4\nDONE\n";

/// What c takes in stays there.
const LEAK: &[u8] = b"cut tree 1\nrouter a\nrouter b\nrouter c\nlink a b 5\nlink b c 4\n\
    END\nroot a\nedge b a 5\non -5\non -1\nedge c b 4\non 0\non -4\nDONE\n";

/// What is below b costs 9.
const WRONG_COST: &[u8] = b"cut tree 1\nrouter a\nrouter b\nrouter c\nlink a b 5\nlink b c 4\n\
    END\nroot a\nedge b a 5\non -5\non 0\nedge c a 4\non -4\non -4\nDONE\n";

/// The routers b and c hang from each other.
const CIRCLE: &[u8] = b"cut tree 1\nrouter a\nrouter b\nrouter c\nlink a b 5\nlink b c 4\n\
    END\nroot a\nedge b c 4\non 0\non 4\nedge c b 4\non 0\non -4\nDONE\n";

/// Whether a text that comes in pieces gets this line.
fn gets(alloc: Global, text: &[u8], line: &[u8]) -> Result<bool, Fail> {
    let mut source = MemorySource::make(text.to_vec(alloc)?, 7, Vec::new(alloc));
    let mut sink = MemorySink::make(alloc, 64, Vec::new(alloc))?;
    check(alloc, &mut source, &mut sink);
    Ok(sink.written() == line)
}

#[test]
fn a_saved_reply_is_accepted(rt: HostRuntime) -> Result<(), Fail> {
    assert!(&rt; gets(rt.alloc(), REPLY, b"accepted routers 3 links 2\n")?);
    Ok(())
}

#[test]
fn wrong_flows_are_refused(rt: HostRuntime) -> Result<(), Fail> {
    assert!(&rt; gets(rt.alloc(), TOO_WIDE, b"refused 37 line 9\n")?);
    assert!(&rt; gets(rt.alloc(), TOO_MUCH, b"refused 35 line 10\n")?);
    assert!(&rt; gets(rt.alloc(), LEAK, b"refused 36 line 9\n")?);
    Ok(())
}

#[test]
fn wrong_trees_are_refused(rt: HostRuntime) -> Result<(), Fail> {
    assert!(&rt; gets(rt.alloc(), WRONG_COST, b"refused 39 line 9\n")?);
    assert!(&rt; gets(rt.alloc(), CIRCLE, b"refused 38 line 15\n")?);
    Ok(())
}

/// How a check ends whose source fails at one read, and whose sink has this room.
fn end_of(alloc: Global, failing: u32, room: usize) -> Result<CheckEnd, Fail> {
    let mut source = MemorySource::make(REPLY.to_vec(alloc)?, 7, vec![in alloc; failing]?);
    let mut sink = MemorySink::make(alloc, room, Vec::new(alloc))?;
    Ok(check(alloc, &mut source, &mut sink))
}

#[test]
fn a_check_ends_by_the_first_failure(rt: HostRuntime) -> Result<(), Fail> {
    assert!(&rt; end_of(rt.alloc(), 2, 64)? == CheckEnd::ReadFault);
    assert!(&rt; end_of(rt.alloc(), 99, 5)? == CheckEnd::WriteFault);
    Ok(())
}
