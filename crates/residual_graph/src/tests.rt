//! A network with parallel and self links, loaded, pushed and read.
ghost use Rattle.std.specs.Prelude.{◌≡◌, ◌<◌, ◌≤◌, IfOk, length};
ghost use Rattle.residual_graph.specs.Arcs.{arc_count};

use crate::{Place, Residual};
use cut_model::{Link, Network, Steps};
use std::alloc::Global;
use std::marker::Brand;
use std::sync::ledger::{Blank, Ledger};
use std::test::Fail;

fn link(a: u32, b: u32, cap: u64) -> Link {
    Link { a, b, cap }
}

/// Sends 2 along arc 2, and tells what is left on it and on its twin.
fn push_counted<L: Ledger>(graph: &mut Residual, blank: Blank) -> Option<(u64, u64)>
    requires name { blank.name ≡ L.name }
    requires parts { blank.parts ≡ L.parts }
    requires some { 0 < L.parts }
    requires arcs { 4 ≤ arc_count graph.old.net }
    ensures { graph.new ≡ record graph.old { flow = graph.new.flow } }
{
    let mut steps = Steps::<L>::zero(blank);
    if graph.left(2, &mut steps) < 2 {
        return None;
    }
    graph.push(2, 2, &mut steps);
    Some((
        graph.left(2, &mut steps),
        graph.left_along(2, true, &mut steps),
    ))
}

/// The same, for a caller that counts nothing.
fn push_two(graph: &mut Residual) -> Option<(u64, u64)>
    requires { 4 ≤ arc_count graph.old.net }
    ensures { graph.new ≡ record graph.old { flow = graph.new.flow } }
{
    push_counted::<Brand>(graph, Blank::new(1))
}

/// Four links between three routers, two of them parallel and one from a router to itself.
fn small_net(alloc: Global) -> Result<Network, Fail>
    ensures routers { IfOk result (λ net. net.routers ≡ 3) }
    ensures links { IfOk result (λ net. length net.links ≡ 4) }
{
    let links = vec![in alloc; link(0, 1, 2), link(0, 1, 3), link(1, 1, 9), link(2, 1, 4)]?;
    let net = Network::make(3, links).ok().ok_or("no network")?;
    Ok(net)
}

#[test]
fn what_a_push_leaves(rt: HostRuntime) -> Result<(), Fail> {
    let net = small_net(rt.alloc())?;
    let mut graph = Residual::with_room(rt.alloc(), 4, 6)?;
    graph.load(&net);
    assert_eq!(rt; push_two(&mut graph), Some((1, 5)));
    assert_eq!(rt; graph.flow_on(1), 2);
    graph.undo();
    assert_eq!(rt; graph.flow_on(1), 0);
    assert_eq!(rt; push_two(&mut graph), Some((1, 5)));
    graph.load(&net);
    assert_eq!(rt; push_two(&mut graph), Some((1, 5)));
    Ok(())
}

#[test]
fn where_arcs_stand(rt: HostRuntime) -> Result<(), Fail> {
    let net = small_net(rt.alloc())?;
    let mut graph = Residual::with_room(rt.alloc(), 4, 6)?;
    graph.load(&net);
    assert_eq!(rt; graph.head(7), 2);
    assert_eq!(rt; graph.arcs_of(1), 5);
    assert_eq!(rt; graph.arc(1, 4), 7);
    let places = graph.places_of(1);
    assert_eq!(rt; places.len(), 5);
    assert_eq!(rt; places[1], Place { head: 0, arc: 3 });
    assert_eq!(rt; graph.begin(1), 2);
    assert_eq!(rt; graph.begin(3), 8);
    assert_eq!(rt; graph.place(6), Place { head: 2, arc: 7 });
    assert_eq!(rt; graph.around(1), 27);
    let mut cursor = [9; 4];
    graph.copy_begins(&mut cursor);
    assert_eq!(rt; cursor, [0, 2, 7, 9]);
    Ok(())
}
