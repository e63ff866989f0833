//! Room for the flow of an edge.
ghost use Rattle.std.specs.Prelude.{◌≡◌, ◌≢◌, ℕ, ◌<◌, IfOk, length, pos, slice_index_or};
ghost use Rattle.cut_model.specs.Cuts.{IsLeastCut, RouterSet};
ghost use Rattle.cut_model.specs.Flow.{IsFlow};
ghost use Rattle.certifier.specs.Rooms.{no_flow};

use cut_model::{MOST_LINKS, MOST_ROUTERS, Network, NoMemory, Side};
use dinic_flow::FlowDesk;
use std::alloc::Global;
use std::marker::Model;

/// Room for a flow in the largest network, so that the lines of a block can tell it link by link. Contracts see
/// what is carried in it: a network, and the flow on each of its links.
#[derive(Drop)]
pub struct FlowRoom {
    desk: FlowDesk,
}

impl Model for FlowRoom {
    ghost use Rattle.std.specs.Prelude.{◌≡◌};
    ghost use Rattle.certifier.specs.Blocks.{Carried};
    ghost use Rattle.certifier.specs.Rooms.{most_room};

    ghost Value = { Carried };

    ghost view = { λ r. record { net = r.desk.net; flow = r.desk.flow } };

    ghost invariant = { λ r. r.desk.room ≡ most_room };
}

impl FlowRoom {
    /// Room for the largest network. It holds no flow yet. No later call takes memory.
    ///
    /// # Errors
    /// [`NoMemory`] where its memory can't be had.
    pub fn make(alloc: Global) -> Result<FlowRoom, NoMemory>
        ensures { IfOk result (λ room. room ≡ no_flow) }
    {
        Ok(FlowRoom {
            desk: FlowDesk::with_room(alloc, MOST_ROUTERS, MOST_LINKS as u32)?,
        })
    }

    /// Puts a greatest flow from `s` to `t` in, in place of what was held. Which one it is depends on the network
    /// and the two routers alone, and not on what was put in before.
    pub(crate) fn put_flow(&mut self, net: &Network, s: u32, t: u32)
        requires differ { s ≢ t }
        requires s { s < net.now.routers }
        requires t { t < net.now.routers }
        ensures net { self.new.net ≡ net.now }
        ensures flow { (X : RouterSet) (k : ℕ) → IsLeastCut net.now s t X k → IsFlow net.now s t self.new.flow k }
    {
        let mut side = Side::empty(net.routers());
        self.desk.forget_hard_cuts();
        self.desk.least_cut_uncounted(net, s, t, &mut side);
    }

    /// The flow on a link, positive from its end a to its end b.
    pub(crate) fn flow_on(&self, link: u32) -> i64
        requires { link < length self.now.net.links }
        ensures { result ≡ slice_index_or self.now.flow link (pos 0) }
    {
        self.desk.flow_on(link)
    }
}
