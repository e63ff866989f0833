//! Networks that seeds make and what they are summed up by: the numbers are worked by hand.
ghost use Rattle.std.specs.Prelude.{◌≤◌, IfOk};
ghost use Rattle.cut_model.specs.declared.network.TheConstants.{MOST_LINKS, MOST_ROUTERS};
ghost use Rattle.made_networks.specs.Draws.{made_net};
ghost use Rattle.made_networks.specs.Summaries.{IsSummaryOf};
ghost use Rattle.made_networks.specs.declared.draws.TheConstants.{MOST_SEED};

use crate::{Summary, make_network, sum_up, write_summary};
use cut_model::{Link, Network, NoMemory};
use path_minimum::Ladder;
use std::alloc::Global;
use std::process::Abort;
use std::sync::{Arc, Wait};
use std::test::Fail;
use std::thread::Threads;
use wires::MemorySink;
use worker_gate::{OpenGate, build_tree};

/// A link of so much capacity.
fn link(a: u32, b: u32, cap: u64) -> Link {
    Link { a, b, cap }
}

/// Sees that a network has these links.
fn expect_links(rt: &impl Abort, net: &Network, links: &[Link]) {
    assert_eq!(rt; net.links(), links);
}

#[test]
fn networks_that_seeds_make(rt: HostRuntime) -> Result<(), Fail> {
    let seven = make_network(rt.alloc(), 7, 3, 3)?;
    assert_eq!(rt; seven.routers(), 3);
    expect_links(
        &rt,
        &seven,
        &[link(2, 2, 613), link(0, 2, 743), link(1, 0, 355)],
    );
    let nought = make_network(rt.alloc(), 0, 2, 1)?;
    assert_eq!(rt; nought.routers(), 2);
    expect_links(&rt, &nought, &[link(0, 0, 653)]);
    Ok(())
}

/// The summary of the network that a seed makes, by a tree that two workers build.
fn made_summary<R: Threads + Wait + Sync>(
    alloc: Global,
    rt: &R,
    seed: u32,
    routers: u32,
    links: u32,
) -> Result<Summary, NoMemory>
    requires seed { seed ≤ MOST_SEED }
    requires two { 2 ≤ routers }
    requires few_routers { routers ≤ MOST_ROUTERS }
    requires few_links { links ≤ MOST_LINKS }
    ensures { IfOk result (λ summary. IsSummaryOf (made_net seed routers links) summary) }
{
    let net = Arc::new(alloc, make_network(alloc, seed, routers, links)?)?;
    let tree = build_tree(alloc, rt, &net, 2, &OpenGate)?;
    let ladder = Ladder::make(alloc, &tree)?;
    Ok(sum_up(&tree, &ladder))
}

#[test]
fn summary_of_seed_seven(rt: HostRuntime) -> Result<(), Fail> {
    let summary = made_summary(rt.alloc(), &rt, 7, 3, 3)?;
    let mut sink = MemorySink::make(rt.alloc(), 64, Vec::new(rt.alloc()))?;
    assert!(&rt; write_summary(&summary, &mut sink).is_ok());
    let text = b"made routers 3 links 3\nleast 355\nsum 1098\n";
    assert_eq!(rt; sink.written(), text.as_slice());
    Ok(())
}
