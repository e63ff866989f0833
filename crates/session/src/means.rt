//! What a session works with and doesn't keep.

use std::alloc::Global;

/// What a session works with and doesn't keep: whence its memory and its threads come, and how the cuts of the trees
/// that it builds are computed.
#[derive(Drop)]
pub struct Means<'a, R, G> {
    pub alloc: Global,
    pub rt: &'a R,
    pub gate: &'a G,
}
