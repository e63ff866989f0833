//! The draws of a seed.
ghost use Rattle.std.specs.Prelude.{◌≡◌, ◌<◌, ◌≤◌};
ghost use Rattle.made_networks.specs.Draws.{draw_after, draw_after_three, link_after};

use cut_model::Link;
use std::marker::Model;

/// The greatest seed.
pub const MOST_SEED: u32 = 65_535;

/// What a draw is a remainder of: each is less than this.
const MODULUS: u32 = 65_537;

/// How many capacities a link may get, from 1 on.
const CAPACITIES: u32 = 1000;

/// The draws of a seed, of which the next one follows from the last one alone: `x` becomes `(75 * x + 74) mod
/// 65537`, as in the Sinclair ZX81. As 65537 is prime, a draw after a seed of at most [`MOST_SEED`] is never
/// 65536; the other 65536 numbers come round in turn. Contracts see the last draw, at first the seed.
#[derive(Drop)]
pub(crate) struct Draws {
    last: u32,
}

impl Model for Draws {
    ghost use Rattle.std.specs.Prelude.{ℕ, ◌<◌};
    ghost use Rattle.made_networks.specs.declared.draws.TheConstants.{MODULUS};

    ghost Value = { ℕ };

    ghost view = { λ d. d.last };

    ghost invariant = { λ d. d.last < MODULUS };
}

impl Draws {
    /// The draws of a seed, before the first one.
    pub(crate) fn of_seed(seed: u32) -> Draws
        requires { seed ≤ MOST_SEED }
        ensures { result ≡ seed }
    {
        Draws { last: seed }
    }

    /// The next draw.
    fn draw(&mut self) -> u32
        ensures value { result ≡ draw_after self.old }
        ensures last { self.new ≡ result }
    {
        self.last = (75 * self.last + 74) % MODULUS;
        self.last
    }

    /// A link by the next three draws: its two ends among so many routers, and its capacity.
    #[tactic(auto, unfolding(crate::specs::Draws::link_after))]
    pub(crate) fn draw_link(&mut self, routers: u32) -> Link
        requires { 0 < routers }
        ensures value { result ≡ link_after routers self.old }
        ensures last { self.new ≡ draw_after_three self.old }
    {
        let a = self.draw() % routers;
        let b = self.draw() % routers;
        let cap = u64::from(self.draw() % CAPACITIES + 1);
        Link { a, b, cap }
    }
}
