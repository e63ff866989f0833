//! Desks that serve the clients of doors at the same time, over one list of records.
#![tactic(auto)]

mod board;
mod desk;
mod doors;
mod seating;
#[cfg(test)]
mod tests;

pub use board::{Opening, Served, serve_doors};
