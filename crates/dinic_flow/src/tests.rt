//! Least cuts of small networks, worked by hand, with ties among the least sides.
use crate::FlowDesk;
use cut_model::{Link, Network, Side};
use std::alloc::Global;
use std::process::Abort;
use std::test::Fail;

/// A network of links by their ends and capacities.
fn network(alloc: Global, routers: u32, links: &[(u32, u32, u64)]) -> Result<Network, Fail> {
    let mut list = Vec::new(alloc);
    for (a, b, cap) in links {
        list.push(Link {
            a: *a,
            b: *b,
            cap: *cap,
        })?;
    }
    let net = Network::make(routers, list).ok().ok_or("no network")?;
    Ok(net)
}

/// Compares the value and the side of a least cut. The side is that of these routers.
fn expect_cut(
    rt: &impl Abort,
    desk: &mut FlowDesk,
    net: &Network,
    ends: (u32, u32),
    value: u64,
    inside: &[u32],
) {
    let (s, t) = ends;
    assert!(rt; desk.fits(net) && s != t && s < net.routers() && t < net.routers());
    let mut side = Side::empty(net.routers());
    assert_eq!(rt; desk.least_cut_uncounted(net, s, t, &mut side), value);
    for router in 0..net.routers() {
        assert_eq!(rt; side.has(router), inside.contains(&router));
    }
}

#[test]
fn cuts_worked_by_hand(rt: HostRuntime) -> Result<(), Fail> {
    let alloc = rt.alloc();
    let mut desk = FlowDesk::with_room(alloc, 6, 9)?;
    let six = network(
        alloc,
        6,
        &[
            (0, 1, 1),
            (0, 2, 7),
            (1, 2, 1),
            (1, 3, 3),
            (1, 4, 2),
            (2, 4, 4),
            (3, 4, 1),
            (3, 5, 6),
            (4, 5, 2),
        ],
    )?;
    expect_cut(&rt, &mut desk, &six, (1, 4), 7, &[1]);
    expect_cut(&rt, &mut desk, &six, (4, 1), 7, &[0, 2, 4]);
    expect_cut(&rt, &mut desk, &six, (0, 5), 6, &[0, 2]);
    let apart = network(alloc, 4, &[(0, 1, 5), (2, 3, 5)])?;
    expect_cut(&rt, &mut desk, &apart, (0, 3), 0, &[0, 1]);
    let knots = network(
        alloc,
        3,
        &[(0, 1, 2), (0, 1, 3), (0, 0, 9), (1, 2, 0), (1, 2, 1)],
    )?;
    expect_cut(&rt, &mut desk, &knots, (0, 2), 1, &[0, 1]);
    let chain = network(alloc, 4, &[(0, 1, 1), (1, 2, 1), (2, 3, 1)])?;
    expect_cut(&rt, &mut desk, &chain, (1, 3), 1, &[0, 1]);
    let ring = network(alloc, 4, &[(0, 1, 1), (1, 2, 1), (2, 3, 1), (3, 0, 1)])?;
    expect_cut(&rt, &mut desk, &ring, (3, 1), 2, &[3]);
    Ok(())
}

#[test]
fn the_flow_of_a_cut_stays_on_the_desk(rt: HostRuntime) -> Result<(), Fail> {
    let net = network(rt.alloc(), 3, &[(0, 1, 2), (1, 2, 3)])?;
    let mut desk = FlowDesk::with_room(rt.alloc(), 3, 2)?;
    assert!(&rt; desk.fits(&net) && net.routers() == 3 && net.links().len() == 2);
    desk.load(&net);
    assert_eq!(rt; desk.flow_on(0), 0);
    let mut side = Side::empty(3);
    assert_eq!(rt; desk.least_cut_of_held_uncounted(1, 2, &mut side), 3);
    assert!(&rt; side.has(0) && side.has(1) && !side.has(2));
    assert_eq!(rt; desk.flow_on(1), 3);
    assert_eq!(rt; desk.least_cut_of_held_uncounted(2, 0, &mut side), 2);
    assert_eq!(rt; desk.flow_on(0), -2);
    Ok(())
}
