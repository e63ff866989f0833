//! Network texts: lines that name routers and join them by links.
//!
//! A `Reader` takes the lines one by one, keeps none of them, and gives the `Sheet` that the whole
//! text stands for, or what is wrong with the text and in which line: the network and the names of its
//! routers, numbered in order of appearance. `write_sheet` writes a text that has the same sheet, and
//! `write_sheet_line`, `write_router` and `write_link` write one line of it.
#![tactic(auto)]

mod drafting;
mod fault;
mod name;
mod name_text;
mod reader;
mod sheet;
#[cfg(test)]
mod tests;
mod write;

pub use fault::{TextFault, TextKind};
pub use name::Name;
pub use reader::{Fed, Reader};
pub use sheet::Sheet;
pub use write::{sheet_line_count, write_link, write_router, write_sheet, write_sheet_line};
