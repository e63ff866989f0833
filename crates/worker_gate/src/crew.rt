//! What the workers of one build know of each other.
ghost use Rattle.std.specs.Prelude.{ℕ, []};
ghost use Rattle.cut_model.specs.Net.{Net};

use std::marker::Brand;
use std::sync::ledger::Ledger;

/// The ledger of the commits of one build, beside the network that is built for. So a type may name both: what a
/// lock holds is known by its type alone.
pub trait Crew: Ledger {
    /// Into how many parts the ledger is cut.
    ghost all: { ℕ };

    /// The network.
    ghost net: { Net };
}

impl Crew for Brand {
    ghost all = { 0 };

    ghost net = { record { routers = 0; links = [] } };
}
