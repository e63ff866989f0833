//! Which board values belong to.
ghost use Rattle.std.specs.Prelude.{ℕ};
ghost use Rattle.logbook.specs.Pages.{Book};

use std::marker::Brand;
use std::sync::ledger::Ledger;

/// One board, as a type: its log of records, and the ledger on which the seats count what was published for them.
/// Values of two boards are of two types, so no seat, note or publisher of the one gets to the other. The function that
/// calls [`make_board`](crate::make_board) is generic in it, and its caller, who opened the log and the ledger, passes
/// [`Brand`].
pub trait Board: Ledger {
    /// The log.
    ghost log: { Book };

    /// Into how many parts the ledger is cut. What a lock holds is known by its type alone, so it is named here.
    ghost all: { ℕ };
}

impl Board for Brand {
    ghost log = { record { number = 0; log_name = 0; cells_name = 0 } };

    ghost all = { 0 };
}
