//! What a failed call answers.

use thiserror::Error;

/// A read or a put failed. What failed is known by the count of faults that rose: where `source.read`
/// answers `Err(Failed)`, the source counts one read fault more.
#[derive(Clone, Copy, PartialEq, Eq, Debug, Error)]
#[error("the input or output failed")]
pub struct Failed;
