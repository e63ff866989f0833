//! How a worker has its cuts computed.
ghost use Rattle.std.specs.Prelude.{◌≡◌};
ghost use Rattle.worker_gate.specs.Cutting.{IsCutFor, IsTicketIn};

use commit_rule::Ticket;
use cut_model::{LeastCut, Network, Side};
use dinic_flow::FlowDesk;

/// Computes the cuts of workers, which hold no lock meanwhile. What a gate answers is what [`compute`] answers. A gate
/// may wait, and hold a worker back by that; it has no meaning besides.
pub trait Gate {
    /// The least cut for a ticket, by the worker of a number, whose desk holds the network.
    fn cut<'a>(
        &self,
        worker: u32,
        desk: &mut FlowDesk,
        ticket: &Ticket,
        net: &'a Network,
    ) -> LeastCut<'a>
        requires ticket { IsTicketIn net.now ticket.now }
        requires held { desk.old.net ≡ net.now }
        ensures cut { IsCutFor net.now ticket.now result }
        ensures held { desk.new.net ≡ desk.old.net }
        ensures room { desk.new.room ≡ desk.old.room };
}

/// The gate that waits for nobody.
#[derive(Clone, Copy)]
pub struct OpenGate;

impl Gate for OpenGate {
    fn cut<'a>(
        &self,
        _worker: u32,
        desk: &mut FlowDesk,
        ticket: &Ticket,
        net: &'a Network,
    ) -> LeastCut<'a> {
        compute(desk, ticket, net)
    }
}

/// The least cut of the ticket's router from its neighbour, with the least side, in a network that the desk holds from
/// [`FlowDesk::load`]. What fitted the desk fits it afterwards. It takes no memory and waits for nobody, and costs what
/// [`FlowDesk::least_cut`] costs.
pub fn compute<'a>(desk: &mut FlowDesk, ticket: &Ticket, net: &'a Network) -> LeastCut<'a>
    requires ticket { IsTicketIn net.now ticket.now }
    requires held { desk.old.net ≡ net.now }
    ensures cut { IsCutFor net.now ticket.now result }
    ensures held { desk.new.net ≡ desk.old.net }
    ensures room { desk.new.room ≡ desk.old.room }
{
    let mut side = Side::empty(net.routers());
    let value = desk.least_cut_of_held_uncounted(ticket.router, ticket.neighbour, &mut side);
    LeastCut::hold(net, ticket.router, ticket.neighbour, side, value)
}
