//! The rule of the log of a board, and the step that keeps it.
ghost use Rattle.std.specs.Prelude.{[], None};
ghost use base.Fml.{ftrue};
ghost use Rattle.tree_versions.specs.BoardRule.{IsKept, Adds};

use crate::Record;
use logbook::{Gain, Plain, Play, Rule};

/// The rule that the log is a list of records that a shelf may hold, and that the shared word is its length.
pub struct SoundLog;

impl Rule<Record, u64> for SoundLog {
    ghost holds = { λ cells log. IsKept cells log };

    ghost first = { [] };

    ghost hinted = { λ word log. Unit {0} };

    ghost shows = { λ log. [] };

    ghost keeps = { λ names log. ftrue };

    ghost moves = { λ ask before after answer. Unit {0} };
}

/// Who adds to the log gets nothing for it but what the step tells.
pub struct NoGain;

impl Gain<Record, u64> for NoGain {
    ghost after = { λ names about answer. ftrue };
}

/// The step that adds a record.
pub struct Add;

impl Play<Record, u64> for Add {
    ghost then = { Adds };
}

impl Plain<Record, Record, u64> for Add {
    ghost ask = { λ added. added };

    ghost state = { λ added. None };
}
