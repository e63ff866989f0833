//! The request lines and the replies.
//!
//! The layer above parses a line and gets what the line asks for, exactly by the definitions in
//! `specs/Requests.antt`, and writes replies to a sink. A reply from a network and its tree is a `Report`,
//! found once and told line by line. What it says is defined in `specs/Reports.antt`, and its texts in
//! `specs/Trees.antt` and `specs/Replies.antt`. No call takes memory.
#![tactic(auto)]

mod cuts;
mod found;
pub mod laws;
mod nets;
mod replies;
mod report;
mod reports;
mod request;
mod runs;
mod subject;
mod trees;

pub use replies::{write_bye, write_head, write_loaded, write_refusal};
pub use report::Report;
pub use reports::{write_reply, write_reply_line};
pub use request::{Request, RequestFault, parse_request};
