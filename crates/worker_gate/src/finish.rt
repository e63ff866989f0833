//! The caller's part of a build, after its workers.
ghost use Rattle.std.specs.Prelude.{◌≡◌};
ghost use Rattle.tree_state.specs.History.{AllEntered};
ghost use Rattle.worker_gate.specs.Building.{IsEntered, IsJob};

use crate::gate::compute;
use commit_rule::{Begun, begin, complete, settle_known};
use cut_model::Network;
use dinic_flow::FlowDesk;
use tree_state::{Finished, Growing};

/// Commits a router, where it isn't committed.
fn commit(desk: &mut FlowDesk, grow: &mut Growing, net: &Network, router: u32)
    requires held { desk.old.net ≡ net.now }
    requires net { grow.old.net ≡ net.now }
    requires job { IsJob net.now router }
    ensures held { desk.new.net ≡ desk.old.net }
    ensures net { grow.new.net ≡ grow.old.net }
    ensures entered { IsEntered grow.old.history grow.new.history router }
{
    if let Begun::Ticket(ticket) = begin(grow, router) {
        let cut = compute(desk, &ticket, net);
        settle_known(grow, &cut);
    }
}

/// Commits each terminal but the root that isn't committed.
fn commit_all(desk: &mut FlowDesk, grow: &mut Growing, net: &Network)
    requires held { desk.old.net ≡ net.now }
    requires net { grow.old.net ≡ net.now }
    ensures net { grow.new.net ≡ grow.old.net }
    ensures all { AllEntered grow.new.net grow.new.history }
{
    let root = net.root();
    for router in 0..net.routers() {
        if net.is_terminal(router) && router != root {
            commit(desk, grow, net, router);
        }
    }
}

/// The finished tree of a growing one. What isn't committed yet is committed here, on the caller's thread.
pub fn finish(desk: FlowDesk, grow: Growing, net: &Network) -> Finished
    requires held { desk.net ≡ net.now }
    requires net { grow.net ≡ net.now }
    ensures { result.tree.net ≡ net.now }
{
    let mut desk = desk;
    let mut grow = grow;
    commit_all(&mut desk, &mut grow, net);
    match complete(grow) {
        Ok(tree) => tree,
        Err(_) => unreachable!(),
    }
}
