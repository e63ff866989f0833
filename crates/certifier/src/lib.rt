//! Flows as proof: certificates of cut trees, and their check.
#![tactic(auto)]

mod blocks;
mod certificate;
#[cfg(test)]
mod check_tests;
mod checker;
mod checking;
mod fault;
mod forms;
mod judged;
pub mod laws;
mod room;
mod stage;
mod sums;
mod taking;
#[cfg(test)]
mod tests;
mod tree;
mod ways;
mod witness;

pub use certificate::{
    CertificateLines, certificate_line_count, write_certificate, write_certificate_line,
};
pub use checking::{CheckEnd, check};
pub use room::FlowRoom;
pub use witness::{WitnessLines, witness_line_count, write_witness, write_witness_line};
