//! Arcs with their heads.

/// An arc, and the router to which it goes. `Place { head: 1, arc: 0 }` is that of arc 0 where link 0
/// has the ends 0 and 1.
#[derive(Clone, Copy, PartialEq, Eq, Debug)]
pub struct Place {
    pub head: u32,
    pub arc: u32,
}
