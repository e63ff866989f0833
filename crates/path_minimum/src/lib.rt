//! Answers that are read from a finished cut tree: the least edge of the path between two terminals, the
//! path in its order, the side of an edge, and the weakest edge.
//!
//! Each answer is exact over the definitions of `tree_state`. What is asked for again and again is a
//! `Ladder`, made once for a tree, and a `PathRoom`; the answers themselves take no memory.
#![tactic(auto)]

mod depth;
mod ladder;
pub mod laws;
mod least_edge;
mod ordered_path;
mod path_room;
mod rungs;
mod sides;
#[cfg(test)]
mod tests;
mod walk;
mod weakest_edge;

pub use ladder::Ladder;
pub use least_edge::{PathLeast, least_on_path, least_on_path_uncounted};
pub use ordered_path::path;
pub use path_room::PathRoom;
pub use sides::{side_by_ladder, side_holding};
pub use weakest_edge::WeakestCut;
