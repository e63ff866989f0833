//! Workers that meet at a gate, on a network of six routers whose cuts were worked by hand.
use crate::{Gate, build_tree, compute};
use commit_rule::Ticket;
use cut_model::{LeastCut, Link, Network};
use dinic_flow::FlowDesk;
use path_minimum::{Ladder, least_on_path_uncounted};
use std::alloc::Global;
use std::process::Abort;
use std::sync::Arc;
use std::sync::atomic::{AtomicU64, Ordering};
use std::test::Fail;
use std::thread;
use tree_state::Finished;

/// How often a gate looks, before it notes a failure and lets go.
const LOOKS: u32 = 20_000_000;

/// After so many looks others may have the processor.
const LOOKS_BEFORE_OTHERS: u32 = 1_000;

/// The ends and the capacity of each link.
const LINKS: [(u32, u32, u64); 9] = [
    (0, 1, 1),
    (0, 2, 7),
    (1, 2, 1),
    (1, 3, 3),
    (1, 4, 2),
    (2, 4, 4),
    (3, 4, 1),
    (3, 5, 6),
    (4, 5, 2),
];

fn six_routers(alloc: Global) -> Result<Arc<Network>, Fail> {
    let mut links = Vec::new(alloc);
    for (a, b, cap) in LINKS {
        links.push(Link { a, b, cap })?;
    }
    let net = Network::make(6, links);
    Ok(Arc::new(alloc, net.ok().ok_or("no network")?)?)
}

/// What a gate counts: how often routers 2, 3 and 4 have come, and how often it waited in vain.
#[derive(Drop)]
struct Counts {
    twos: AtomicU64,
    threes: AtomicU64,
    fours: AtomicU64,
    failures: AtomicU64,
}

impl Counts {
    fn new() -> Counts {
        Counts {
            twos: AtomicU64::new(0),
            threes: AtomicU64::new(0),
            fours: AtomicU64::new(0),
            failures: AtomicU64::new(0),
        }
    }

    /// Waits until a router has come so many times.
    fn wait_for(&self, came: &AtomicU64, times: u64) {
        for look in 0..LOOKS {
            if came.load(Ordering::SeqCst) >= times {
                return;
            }
            if look % LOOKS_BEFORE_OTHERS == 0 {
                thread::yield_now();
            }
        }
        self.failures.fetch_add(1, Ordering::SeqCst);
    }
}

/// Holds router 1 back until router 2 has come.
#[derive(Drop)]
struct TwoAtOnce {
    counts: Counts,
}

impl Gate for TwoAtOnce {
    fn cut<'a>(
        &self,
        _worker: u32,
        desk: &mut FlowDesk,
        ticket: &Ticket,
        net: &'a Network,
    ) -> LeastCut<'a> {
        let counts = &self.counts;
        if ticket.router == 2 {
            counts.twos.fetch_add(1, Ordering::SeqCst);
        }
        if ticket.router == 1 {
            counts.wait_for(&counts.twos, 1);
        }
        compute(desk, ticket, net)
    }
}

/// Holds router 1 back until 2 and 3 have come, router 3 at first until 4 has come, and router 2 until 3 has come for
/// the second time. So router 1 is committed while 3 is cut from the router that is above it till then.
#[derive(Drop)]
struct Overtaking {
    counts: Counts,
}

impl Gate for Overtaking {
    fn cut<'a>(
        &self,
        _worker: u32,
        desk: &mut FlowDesk,
        ticket: &Ticket,
        net: &'a Network,
    ) -> LeastCut<'a> {
        let counts = &self.counts;
        if ticket.router == 1 {
            counts.wait_for(&counts.twos, 1);
            counts.wait_for(&counts.threes, 1);
        } else if ticket.router == 2 {
            counts.twos.fetch_add(1, Ordering::SeqCst);
            counts.wait_for(&counts.threes, 2);
        } else if ticket.router == 3 {
            if counts.threes.fetch_add(1, Ordering::SeqCst) == 0 {
                counts.wait_for(&counts.fours, 1);
            }
        } else if ticket.router == 4 {
            counts.fours.fetch_add(1, Ordering::SeqCst);
        }
        compute(desk, ticket, net)
    }
}

/// What a least cut of two routers costs, by the tree.
fn cut_value(rt: &impl Abort, alloc: Global, tree: &Finished, a: u32, b: u32) -> Result<u64, Fail> {
    let net = tree.net();
    assert!(rt; a < net.routers() && b < net.routers() && a != b);
    assert!(rt; net.is_terminal(a) && net.is_terminal(b));
    let ladder = Ladder::make(alloc, tree)?;
    Ok(least_on_path_uncounted(&ladder, tree, a, b).width)
}

#[test]
fn two_workers_meet_at_the_gate(rt: HostRuntime) -> Result<(), Fail> {
    let gate = TwoAtOnce {
        counts: Counts::new(),
    };
    let tree = build_tree(rt.alloc(), &rt, &six_routers(rt.alloc())?, 2, &gate)?;
    assert_eq!(rt; gate.counts.failures.load(Ordering::SeqCst), 0);
    assert!(rt; gate.counts.twos.load(Ordering::SeqCst) >= 1);
    assert_eq!(rt; cut_value(&rt, rt.alloc(), &tree, 0, 5)?, 6);
    Ok(())
}

#[test]
fn a_cut_that_comes_too_late_is_taken_again(rt: HostRuntime) -> Result<(), Fail> {
    let gate = Overtaking {
        counts: Counts::new(),
    };
    let tree = build_tree(rt.alloc(), &rt, &six_routers(rt.alloc())?, 3, &gate)?;
    assert_eq!(rt; gate.counts.failures.load(Ordering::SeqCst), 0);
    assert!(rt; tree.net().routers() == 6 && tree.retakes(3) >= 1);
    assert_eq!(rt; cut_value(&rt, rt.alloc(), &tree, 0, 5)?, 6);
    assert_eq!(rt; cut_value(&rt, rt.alloc(), &tree, 1, 4)?, 7);
    Ok(())
}
