//! One worker of a build.
ghost use Rattle.std.specs.Prelude.{◌≡◌, ◌<◌, All, IfOk, length};
ghost use Rattle.worker_gate.specs.Building.{IsJob};

use crate::crew::Crew;
use crate::gate::Gate;
use crate::locked::Locked;
use commit_rule::{Begun, Settled};
use cut_model::Network;
use dinic_flow::FlowDesk;
use job_queue::{Jobs, Pass};
use std::sync::ledger::Share;
use std::sync::{Mutex, Wait};

/// A worker, whose desk holds the crew's network, and whose pass knows routers that are to be committed. It has one
/// part of the ledger, on which its commits are booked.
#[derive(Drop)]
pub struct Worker<L: Crew> {
    pub number: u32,
    pub desk: FlowDesk,
    pub pass: Pass,
    pub share: Share<L>,
    ghost a_part: { share.parts ≡ 1 },
    ghost held: { desk.net ≡ L.net },
    ghost jobs: { All (λ router. IsJob L.net router) pass.jobs },
}

/// Takes routers from the queue until there is none, and commits each.
pub fn work<L: Crew, R: Wait, G: Gate>(
    rt: &R,
    net: &Network,
    state: &Mutex<Locked<L>>,
    jobs: &Jobs,
    gate: &G,
    me: &mut Worker<L>,
)
    requires net { net.now ≡ L.net }
    requires queue { me.old.pass.queue ≡ jobs.now }
{
    for _ in rt.forever() {
        let Some(router) = jobs.take(rt, &mut me.pass) else {
            return;
        };
        commit(rt, net, state, gate, me, router);
    }
}

/// Begins a router, has it cut and settles the cut, again and again while it moves. No lock is held while it is cut.
fn commit<L: Crew, R: Wait, G: Gate>(
    rt: &R,
    net: &Network,
    state: &Mutex<Locked<L>>,
    gate: &G,
    me: &mut Worker<L>,
    router: u32,
)
    requires net { net.now ≡ L.net }
    requires job { IsJob L.net router }
    ensures pass { me.new.pass ≡ me.old.pass }
{
    for _ in rt.forever() {
        let begun = state.lock(rt).begin(router);
        let Begun::Ticket(ticket) = begun else {
            return;
        };
        let cut = gate.cut(me.number, &mut me.desk, &ticket, net);
        let settled = state.lock(rt).settle(&cut, &mut me.share);
        let Settled::Moved { .. } = settled else {
            return;
        };
    }
}
