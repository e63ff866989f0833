//! A small text through the calls that can want memory: with ample memory each answers something else.

use crate::{Fed, Reader};
use std::test::Fail;

#[test]
fn small_text(rt: HostRuntime) -> Result<(), Fail> {
    let mut reader = Reader::begin(rt.alloc())?;
    assert_eq!(rt; reader.line(b"# two routers"), Fed::More);
    assert_eq!(rt; reader.line(b"link left right 7\r"), Fed::More);
    assert_eq!(rt; reader.line(b"END"), Fed::Ended);
    let sheet = reader.close()?;
    assert_eq!(rt; sheet.number_of(b"right"), Some(1));
    assert_eq!(rt; sheet.number_of(b"Right"), None);
    assert_eq!(rt; sheet.net().routers(), 2);
    assert_eq!(rt; sheet.name_of(0), b"left".as_slice());
    assert_eq!(rt; sheet.names_between(0, 2), b" left right".as_slice());
    Ok(())
}
