//! How a run ends.

use std::sync::Arc;
use tree_versions::Record;

/// How a run ended.
#[derive(Clone, Copy, PartialEq, Eq, Debug)]
pub enum Status {
    /// All requests were answered, up to a BYE or the end of the input; or a certificate was accepted, and the
    /// line that says so is written; or the summary of a made network is written; or the clients of the doors that
    /// `serve` has desks for were served, and the last line is written.
    Done,
    /// The words are no command. Nothing was read or written.
    BadWords,
    /// The source failed. The replies to all items that were whole before are written; of a certificate, nothing.
    ReadFault,
    /// The sink failed. A front of the items is answered, but for at most a part of the last of these
    /// replies; of the line on a certificate, of a summary, or of the last line of `serve`, a front is written.
    WriteFault,
    /// There was no memory: for requests or desks to begin with, or for a made network, and nothing was read or
    /// written and no door was asked; for a certificate at any moment, and nothing was written.
    NoMemory,
    /// [`MOST_BYTES`](line_reader::MOST_BYTES) were read, and neither the end of the input nor a BYE came; or
    /// nothing that settles whether they are a certificate.
    TooLong,
    /// A door failed, or several. Those that didn't were served as at `Done`, and the last line is written, or a front
    /// of it where the sink failed as well.
    DoorFault,
    /// A certificate has a fault, and the line that tells it is written.
    NotAccepted,
}

/// What a run leaves.
#[derive(Drop)]
pub struct Outcome {
    /// How it ended.
    pub status: Status,
    /// The networks that were published, version 1 first: at most [`MOST_RECORDS`](tree_versions::MOST_RECORDS).
    pub records: Vec<Arc<Record>>,
}
