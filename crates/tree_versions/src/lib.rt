//! Records and the shelves on which they are published.
//!
//! A `Record` is a network with its names and its finished tree. A `Shelf` is one growing list of records:
//! what its holder has seen of it is a front of it, and stays so. `SoloShelf` is a shelf that nobody else has. A board
//! is a list that several desks share: each has a `Seat`, from which it looks without waiting for anybody, and a
//! `Publisher` adds to the list for all. A `DeskShelf` is a seat as a shelf.
#![tactic(auto)]

mod board;
mod closing;
mod copies;
mod desk_shelf;
mod front;
mod log_rule;
mod note;
mod opening;
mod publisher;
mod record;
mod seat;
mod shelf;
mod solo;
#[cfg(test)]
mod tests;

pub use board::Board;
pub use closing::close_board;
pub use copies::{Addition, ListCopy};
pub use desk_shelf::DeskShelf;
pub use front::OpenedLog;
pub use note::Note;
pub use opening::{MOST_DESKS, make_board};
pub use publisher::{BoardFault, BoardWriter, Publisher, WriterSide};
pub use record::Record;
pub use seat::Seat;
pub use shelf::{MOST_RECORDS, PublishFault, Shelf};
pub use solo::SoloShelf;
