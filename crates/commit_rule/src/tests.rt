//! The rule by call, on six routers whose tree is worked by hand, and on trees without a commit.
ghost use Rattle.std.specs.Prelude.{◌≡◌, IfOk};
ghost use Rattle.commit_rule.specs.SixRouters.{six_routers, two_routers};

use crate::{Begun, Settled, Ticket, begin, complete, settle};
use cut_model::{LeastCut, Link, Network, Side};
use std::alloc::Global;
use std::sync::Arc;
use std::test::Fail;
use tree_state::{Finished, Growing, side_below};

/// A link of so much capacity.
fn link(a: u32, b: u32, cap: u64) -> Link
    ensures { result ≡ record { a = a; b = b; cap = cap } }
{
    Link { a, b, cap }
}

/// Six routers with nine links.
fn six_routers(alloc: Global) -> Result<Network, Fail>
    ensures { IfOk result (λ net. net ≡ six_routers) }
{
    let links = vec![in alloc;
        link(0, 1, 1),
        link(0, 2, 7),
        link(1, 2, 1),
        link(1, 3, 3),
        link(1, 4, 2),
        link(2, 4, 4),
        link(3, 4, 1),
        link(3, 5, 6),
        link(4, 5, 2),
    ]?;
    Ok(Network::make(6, links).map_err(|_| "refused")?)
}

/// Two routers with a link.
fn two_routers(alloc: Global) -> Result<Network, Fail>
    ensures { IfOk result (λ net. net ≡ two_routers) }
{
    let links = vec![in alloc; link(0, 1, 5)]?;
    Ok(Network::make(2, links).map_err(|_| "refused")?)
}

/// The side of those of the six routers that are marked.
fn side_of(members: [bool; 6]) -> Side
    ensures { result ≡ members }
{
    let mut side = Side::empty(6);
    for router in 0..6 {
        if members[router as usize] {
            side.put(router);
        }
    }
    side
}

/// A least cut of one of the six routers from another, the two of a ticket.
fn cut_of<'a>(net: &'a Network, router: u32, neighbour: u32) -> Option<LeastCut<'a>>
    requires { net.now ≡ six_routers }
{
    let (f, t) = (false, true);
    match (router, neighbour) {
        (1, 0) => Some(LeastCut::hold(net, 1, 0, side_of([f, t, f, t, t, t]), 6)),
        (2, 0) => Some(LeastCut::hold(net, 2, 0, side_of([f, t, t, t, t, t]), 8)),
        (3, 0) => Some(LeastCut::hold(net, 3, 0, side_of([f, f, f, t, f, t]), 6)),
        (3, 1) => Some(LeastCut::hold(net, 3, 1, side_of([f, f, f, t, f, t]), 6)),
        (4, 1) => Some(LeastCut::hold(net, 4, 1, side_of([t, f, t, f, t, f]), 7)),
        (5, 3) => Some(LeastCut::hold(net, 5, 3, side_of([f, f, f, f, f, t]), 8)),
        _ => None,
    }
}

/// A least cut of the two routers with a link.
fn cut_of_two(net: &Network) -> LeastCut<'_>
    requires { net.now ≡ two_routers }
{
    let mut side = Side::empty(2);
    side.put(1);
    LeastCut::hold(net, 1, 0, side, 5)
}

/// What begin answers for a router of the tree that may be begun.
fn begun(grow: &mut Growing, s: u32) -> Option<Begun> {
    let net = grow.net();
    if s < net.routers() && net.is_terminal(s) && s != net.root() {
        Some(begin(grow, s))
    } else {
        None
    }
}

/// What settle answers for a cut whose router may be begun in the tree.
fn settled(grow: &mut Growing, cut: &LeastCut) -> Option<Settled> {
    let s = cut.router();
    let net = grow.net();
    if s < net.routers() && net.is_terminal(s) && s != net.root() {
        Some(settle(grow, cut))
    } else {
        None
    }
}

/// What settle answers for the cut of a ticket for one of the six routers.
fn settled_six(grow: &mut Growing, net: &Network, router: u32, neighbour: u32) -> Option<Settled>
    requires { net.now ≡ six_routers }
{
    let cut = cut_of(net, router, neighbour)?;
    settled(grow, &cut)
}

/// The answer of begin that gives a ticket.
fn ticket(router: u32, neighbour: u32) -> Option<Begun> {
    Some(Begun::Ticket(Ticket { router, neighbour }))
}

/// What is above each of the six routers, and the width of the edge that leads to it.
fn is_tree(tree: &Finished, edges: [(u32, u64); 6]) -> bool
    requires { tree.now.tree.net ≡ six_routers }
{
    for router in 0..6 {
        let (up, width) = edges[router as usize];
        if tree.up(router) != up || tree.width(router) != width {
            return false;
        }
    }
    true
}

#[test]
fn a_cut_that_comes_too_late(rt: HostRuntime) -> Result<(), Fail> {
    let net = Arc::new(rt.alloc(), six_routers(rt.alloc())?)?;
    let pair = two_routers(rt.alloc())?;
    let mut grow = Growing::make(rt.alloc(), net.clone()?)?;
    assert_eq!(rt; begun(&mut grow, 1), ticket(1, 0));
    assert_eq!(rt; begun(&mut grow, 3), ticket(3, 0));
    assert_eq!(rt;
        settled_six(&mut grow, &net, 1, 0),
        Some(Settled::Committed)
    );
    assert_eq!(rt;
        settled_six(&mut grow, &net, 3, 0),
        Some(Settled::Moved { from: 0, to: 1 })
    );
    assert_eq!(rt; begun(&mut grow, 3), ticket(3, 1));
    assert_eq!(rt;
        settled_six(&mut grow, &net, 3, 1),
        Some(Settled::Committed)
    );
    assert_eq!(rt; begun(&mut grow, 1), Some(Begun::Already));
    assert_eq!(rt; settled_six(&mut grow, &net, 1, 0), Some(Settled::Already));
    assert_eq!(rt;
        settled(&mut grow, &cut_of_two(&pair)),
        Some(Settled::Stranger)
    );
    for (router, neighbour) in [(2, 0), (4, 1), (5, 3)] {
        assert_eq!(rt;
            settled_six(&mut grow, &net, router, neighbour),
            Some(Settled::Committed)
        );
    }
    let tree = complete(grow).ok().ok_or("all five are committed")?;
    assert!(rt; tree.net().same_as(&net));
    assert!(rt; is_tree(&tree, [(0, 0), (4, 7), (0, 8), (1, 6), (2, 6), (3, 8)]));
    assert_eq!(rt; tree.retakes(3), 1);
    assert_eq!(rt; tree.retakes(1), 0);
    Ok(())
}

/// The tree of so many routers without links, before any commit.
fn bare_tree(alloc: Global, routers: u32) -> Result<Growing, Fail> {
    let net = Network::make(routers, Vec::new(alloc));
    let net = Arc::new(alloc, net.ok().ok_or("no network")?)?;
    Ok(Growing::make(alloc, net)?)
}

#[test]
fn trees_without_a_commit(rt: HostRuntime) -> Result<(), Fail> {
    let lone = complete(bare_tree(rt.alloc(), 1)?);
    let lone = lone.ok().ok_or("the tree of one router is complete")?;
    assert_eq!(rt; lone.root(), 0);
    assert_eq!(rt; lone.up(lone.root()), 0);
    assert_eq!(rt; lone.commits(), 0);
    assert_eq!(rt; side_below(&lone, lone.root()).count(), 1);
    let two = complete(bare_tree(rt.alloc(), 2)?);
    let two = two.err().ok_or("router 1 wasn't committed")?;
    assert_eq!(rt; two.commits(), 0);
    Ok(())
}
