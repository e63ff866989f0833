//! What is open between two lines of a session.

use network_text::Reader;

/// What is open between two lines.
#[derive(Drop)]
pub enum Intake {
    /// A request is awaited.
    Between,
    /// A network text is read.
    Text(Reader),
    /// A network text is passed over to its END: there was no memory to read it.
    Lost,
}
