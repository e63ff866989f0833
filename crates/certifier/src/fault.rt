//! The faults of certificates.

/// A fault of a certificate: what is wrong, and where.
#[derive(Clone, Copy, PartialEq, Eq, Debug)]
pub struct Fault {
    /// The number of the fault: 30 to 39.
    pub number: u32,
    /// The line of which it is told, counted from 1.
    pub line: u32,
}
