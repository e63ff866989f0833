//! Answers from a tree of six routers, worked by hand.
ghost use Rattle.std.specs.Prelude.{◌≡◌, ◌≤◌, [], length, IsTrue, OnOk};
ghost use Rattle.cut_model.specs.Terminals.{IsTerminal};
ghost use Rattle.cut_model.specs.declared.network.TheConstants.{MOST_ROUTERS};
ghost use Rattle.path_minimum.specs.Ladders.{IsLadderOf};

use crate::{
    Ladder, PathLeast, PathRoom, least_on_path_uncounted, path, side_by_ladder, side_holding,
};
use commit_rule::complete;
use cut_model::{LeastCut, Network, Side};
use std::alloc::Global;
use std::process::Abort;
use std::sync::Arc;
use std::test::Fail;
use tree_state::{Finished, Growing};

/// The side of these routers of so many.
fn side_of(routers: u32, members: &[u32]) -> Side
    requires { routers ≤ MOST_ROUTERS }
    ensures { length result ≡ routers }
{
    let mut side = Side::empty(routers);
    for &member in members {
        if member < routers {
            side.put(member);
        }
    }
    side
}

/// Commits a router by the side of these routers. The network has no links, so each side that holds the
/// router and lacks the one above it is a least cut of the two.
fn commit(rt: &impl Abort, grow: &mut Growing, router: u32, members: &[u32]) -> Result<(), Fail>
    requires { grow.old.net.links ≡ [] }
    ensures { OnOk result (grow.new.net ≡ grow.old.net) }
{
    let net = grow.net().clone()?;
    assert!(rt; router < net.routers());
    assert!(rt; net.is_terminal(router));
    assert!(rt; router != net.root());
    assert!(rt; !grow.is_done(router));
    let neighbour = grow.neighbour(router);
    let side = side_of(net.routers(), members);
    assert!(rt; side.has(router));
    assert!(rt; !side.has(neighbour));
    grow.apply(&LeastCut::hold(&net, router, neighbour, side, 0));
    Ok(())
}

/// A tree in which 2 hangs from the root 0, 4 from 2, 1 from 4, 3 from 1 and 5 from 3, each edge of
/// width 0.
fn row_of_six(rt: &impl Abort, alloc: Global) -> Result<Finished, Fail> {
    let net = Network::make(6, Vec::new(alloc));
    let net = Arc::new(alloc, net.ok().ok_or("no network")?)?;
    let mut grow = Growing::make(alloc, net)?;
    commit(rt, &mut grow, 1, &[1, 3, 4, 5])?;
    commit(rt, &mut grow, 2, &[1, 2, 3, 4, 5])?;
    commit(rt, &mut grow, 3, &[3, 5])?;
    commit(rt, &mut grow, 4, &[0, 2, 4])?;
    commit(rt, &mut grow, 5, &[5])?;
    Ok(complete(grow).ok().ok_or("a router wasn't committed")?)
}

/// Whether a number is that of a terminal.
fn has_terminal(tree: &Finished, router: u32) -> bool
    ensures { IsTrue result → IsTerminal tree.now.tree.net router }
{
    let net = tree.net();
    router < net.routers() && net.is_terminal(router)
}

/// Sees that the path between two terminals is this one.
fn expect_path(
    rt: &impl Abort,
    tree: &Finished,
    room: &mut PathRoom,
    a: u32,
    b: u32,
    children: &[u32],
) {
    assert!(rt; has_terminal(tree, a));
    assert!(rt; has_terminal(tree, b));
    assert!(rt; a != b);
    path(tree, a, b, room);
    assert_eq!(rt; room.children(), children);
}

/// Sees which edge of the path between two terminals is the least.
fn expect_least(rt: &impl Abort, tree: &Finished, ladder: &Ladder, a: u32, b: u32, least: PathLeast)
    requires { IsLadderOf tree.now.tree ladder.now }
{
    assert!(rt; has_terminal(tree, a));
    assert!(rt; has_terminal(tree, b));
    assert!(rt; a != b);
    assert_eq!(rt; least_on_path_uncounted(ladder, tree, a, b), least);
}

#[test]
fn answers_from_a_row_of_six(rt: HostRuntime) -> Result<(), Fail> {
    let tree = row_of_six(&rt, rt.alloc())?;
    let ladder = Ladder::make(rt.alloc(), &tree)?;
    let mut room = PathRoom::make(rt.alloc())?;
    expect_path(&rt, &tree, &mut room, 0, 5, &[2, 4, 1, 3, 5]);
    expect_path(&rt, &tree, &mut room, 5, 0, &[5, 3, 1, 4, 2]);
    expect_path(&rt, &tree, &mut room, 1, 2, &[1, 4]);
    let one = PathLeast { child: 1, width: 0 };
    expect_least(&rt, &tree, &ladder, 2, 3, one);
    assert!(&rt; tree.net().routers() == 6);
    assert_eq!(rt; side_holding(&tree, 3, 5).count(), 2);
    assert_eq!(rt; side_holding(&tree, 3, 0).count(), 4);
    assert_eq!(rt; side_by_ladder(&ladder, &tree, 3, 5).count(), 2);
    assert_eq!(rt; side_by_ladder(&ladder, &tree, 3, 0).count(), 4);
    let Some(weakest) = ladder.weakest(&tree) else {
        return Err("no weakest edge".into());
    };
    assert_eq!(rt; weakest.edge, one);
    assert_eq!(rt; weakest.side.count(), 3);
    Ok(())
}
