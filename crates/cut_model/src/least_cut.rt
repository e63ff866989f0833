//! Least cuts together with the network that they cut.
ghost use Rattle.std.specs.Prelude.{◌≡◌, ◌<◌, ◌≤◌, length};
ghost use Rattle.cut_model.specs.Cuts.{set_of, IsLeastCut};
ghost use Rattle.cut_model.specs.Held.{IsHeldCut};
ghost use Rattle.cut_model.specs.declared.network.TheConstants.{MOST_VALUE};

use crate::network::Network;
use crate::side::Side;
use std::marker::Model;

/// A least cut of a network: two of its routers, `router` and `neighbour`, a side that holds the
/// first and lacks the second, and what that side costs, which no other such side undercuts.
/// Contracts see a `CutView`.
#[derive(Drop)]
pub struct LeastCut<'a> {
    net: &'a Network,
    router: u32,
    neighbour: u32,
    side: Side,
    value: u64,
}

impl<'a> Model for LeastCut<'a> {
    ghost use Rattle.cut_model.specs.Held.{CutView, IsHeldCut};

    ghost Value = { CutView };

    ghost view = { λ c. record {
      net = c.net.now;
      router = c.router;
      neighbour = c.neighbour;
      side = c.side;
      value = c.value;
    } };

    ghost invariant = { λ c. IsHeldCut (record {
      net = c.net.now;
      router = c.router;
      neighbour = c.neighbour;
      side = c.side;
      value = c.value;
    }) };
}

impl<'a> LeastCut<'a> {
    /// A least cut of `router` from `neighbour`, whose side costs `value`. In a network of routers 0 and 1
    /// with one link of 5 between them, the side that holds router 1 alone is one of 1 from 0, of value 5.
    pub fn hold(
        net: &'a Network,
        router: u32,
        neighbour: u32,
        side: Side,
        value: u64,
    ) -> LeastCut<'a>
        requires router { router < net.now.routers }
        requires neighbour { neighbour < net.now.routers }
        requires size { length side ≡ net.now.routers }
        requires least { IsLeastCut net.now router neighbour (set_of side) value }
        ensures { result ≡ record {
          net = net.now;
          router = router;
          neighbour = neighbour;
          side = side;
          value = value;
        } }
    {
        let routers = net.routers();
        prove!(router < routers && neighbour < routers);
        LeastCut {
            net,
            router,
            neighbour,
            side,
            value,
        }
    }

    /// The network that is cut.
    pub fn net(&self) -> &Network
        ensures value { result.now ≡ self.now.net }
        ensures cut { IsHeldCut self.now }
    {
        self.net
    }

    /// The router that the side holds.
    pub fn router(&self) -> u32
        ensures value { result ≡ self.now.router }
        ensures cut { IsHeldCut self.now }
    {
        self.router
    }

    /// The router that the side lacks.
    pub fn neighbour(&self) -> u32
        ensures value { result ≡ self.now.neighbour }
        ensures cut { IsHeldCut self.now }
    {
        self.neighbour
    }

    /// The side, of the size of the network.
    pub fn side(&self) -> &Side
        ensures value { result.now ≡ self.now.side }
        ensures cut { IsHeldCut self.now }
    {
        &self.side
    }

    /// What the cut costs, at most [`MOST_VALUE`](crate::MOST_VALUE).
    pub fn value(&self) -> u64
        ensures value { result ≡ self.now.value }
        ensures most { result ≤ MOST_VALUE }
        ensures cut { IsHeldCut self.now }
    {
        self.value
    }
}
