//! The tree behind the lock of a build.
ghost use Rattle.std.specs.Prelude.{◌≡◌, ℕ, ◌+◌, ◌<◌, length};
ghost use Rattle.worker_gate.specs.Building.{IsJob, MayCut, commits_of};

use crate::crew::Crew;
use commit_rule::{Begun, Settled, begin, settle_known};
use cut_model::LeastCut;
use std::sync::ledger::{Book, Share};
use tree_state::Growing;

/// What the lock holds: the tree of the crew's network, and how many commits all workers booked.
#[derive(Drop)]
pub struct Locked<L: Crew> {
    pub grow: Growing,
    pub commits: Book<L>,
    ghost counted: { commits.total ≡ length grow.history },
    ghost same: { grow.net ≡ L.net },
}

impl<L: Crew> Locked<L> {
    /// Begins a router.
    pub fn begin(&mut self, router: u32) -> Begun
        requires job { IsJob L.net router }
        ensures { MayCut L.net router result }
    {
        begin(&mut self.grow, router)
    }

    /// Settles a cut, and books a commit on a worker's share.
    pub fn settle(&mut self, cut: &LeastCut<'_>, share: &mut Share<L>) -> Settled
        requires some { 0 < share.old.parts }
        requires net { cut.now.net ≡ L.net }
        requires job { IsJob L.net cut.now.router }
        ensures parts { share.new.parts ≡ share.old.parts }
        ensures amount { share.new.amount ≡ share.old.amount + commits_of result }
    {
        let Locked { grow, commits } = self;
        let settled = settle_known(grow, cut);
        if let Settled::Committed = settled {
            commits.add(share, 1);
        }
        settled
    }
}
