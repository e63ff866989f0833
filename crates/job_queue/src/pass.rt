//! A worker's way to the jobs.
use crate::rule::RawPass;
use std::marker::Model;

/// A worker's way to the jobs of one queue. At run time it keeps how many it took. Contracts see a `PassView`.
#[derive(Drop)]
pub struct Pass {
    pub(crate) raw: RawPass,
    pub(crate) count: u32,
    pub(crate) ended: bool,
}

impl Model for Pass {
    ghost use Rattle.std.specs.Prelude.{◌≡◌, []};
    ghost use Rattle.crossbeam_queue.specs.Passes.{view as known_by};
    ghost use Rattle.job_queue.specs.Passes.{PassView, pass_of};
    ghost use Rattle.job_queue.specs.Counts.{IsCounted};

    ghost Value = { PassView };

    ghost view = { λ p. pass_of p.raw.table_id (known_by p.raw) p.ended };

    ghost invariant = { λ p. (p.raw.me.1 ≡ []) × IsCounted (known_by p.raw) p.count p.ended };
}
