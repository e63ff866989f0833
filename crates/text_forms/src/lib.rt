//! How bytes become lines, words, names, numbers and the items of a session.
//!
//! The definitions in `specs/` are those that all crates above cite. The functions here decide them
//! for one line at a time, and take no memory.
#![tactic(auto)]

mod lines;
mod names;
mod numbers;
mod words;

pub use lines::{MOST_LINE_BYTES, is_bye, is_end, is_load, is_long, is_passed, without_return};
pub use names::{MOST_NAME_BYTES, is_name};
pub use numbers::parse_number;
pub use words::{one_word, split_word, three_words, two_words};
