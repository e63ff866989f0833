//! Doors whose clients load networks, in ample memory, and two desks that wait for each other.
ghost use Rattle.std.specs.Prelude.{◌≡◌, ◌<◌, ◌≤◌, All, IfOk, None};
ghost use Rattle.tree_versions.specs.declared.opening.TheConstants.{MOST_DESKS};

use crate::{Opening, Served, serve_doors};
use commit_rule::Ticket;
use cut_model::{LeastCut, Network};
use dinic_flow::FlowDesk;
use std::alloc::Global;
use std::sync::Wait;
use std::sync::atomic::{AtomicU64, Ordering};
use std::test::Fail;
use std::thread::{self, Threads};
use tree_versions::MOST_DESKS;
use wires::{MemoryDoor, MemoryPeer, MemorySink, MemorySource};
use worker_gate::{Gate, OpenGate, compute};

/// How often a gate looks, before it notes that it waited in vain.
const LOOKS: u32 = 20_000_000;

/// More clients than any door has.
const MANY: u32 = 1_000_000;

/// One network.
const ONE: &[u8] = b"LOAD\nlink a b 5\nEND\n";

/// What four clients get who send `ONE`, by the versions of their networks.
const REPLIES: [&[u8]; 4] = [
    b"@1 LOADED routers 2 links 1\n",
    b"@2 LOADED routers 2 links 1\n",
    b"@3 LOADED routers 2 links 1\n",
    b"@4 LOADED routers 2 links 1\n",
];

/// A network of which nothing is cut, and then one of two routers.
const THEN_TWO: &[u8] = b"LOAD\nrouter a\nEND\nLOAD\nlink a b 5\nEND\n";

/// A network of which nothing is cut, and then one of three routers.
const THEN_THREE: &[u8] = b"LOAD\nrouter a\nEND\nLOAD\nlink a b 5\nlink b c 3\nEND\n";

/// A door with so many clients who send this text, of which this call for one fails, if they are so many.
fn door(alloc: Global, clients: u32, text: &[u8], failing: u32) -> Result<MemoryDoor, Fail>
    ensures { IfOk result (λ door. door.out ≡ None) }
{
    let mut all = Vec::new(alloc);
    for _number in 0..clients {
        let source = MemorySource::make(text.to_vec(alloc)?, 9, vec![in alloc; 0]?);
        let sink = MemorySink::make(alloc, 100, vec![in alloc; 0]?)?;
        all.push(MemoryPeer { source, sink })?;
    }
    Ok(MemoryDoor::make(alloc, all, vec![in alloc; failing]?)?)
}

/// Two doors.
fn two_doors(alloc: Global, one: MemoryDoor, other: MemoryDoor) -> Result<Vec<MemoryDoor>, Fail>
    requires one { one.out ≡ None }
    requires other { other.out ≡ None }
    ensures { IfOk result (λ doors. All (λ door. door.out ≡ None) doors.items) }
{
    Ok(vec![in alloc; one, other]?)
}

/// Serves doors at so many desks, each to its last client.
fn serve<R: Threads + Wait + Sync + AllocGlobal, G: Gate + Sync>(
    rt: &R,
    desks: u32,
    doors: &mut Vec<MemoryDoor>,
    gate: &G,
) -> Result<Served, Fail>
    requires some { 0 < desks }
    requires most { desks ≤ MOST_DESKS }
    requires nobody { All (λ door. door.out ≡ None) doors.old.items }
{
    let opening = Opening {
        desks,
        sessions: MANY,
        workers: 1,
    };
    Ok(serve_doors(rt.alloc(), rt, opening, doors, gate)?)
}

/// Whether a client came back through a door with this reply alone.
fn was_told(door: &MemoryDoor, reply: &[u8]) -> bool {
    for client in door.served() {
        if client.sink.written() == reply {
            return true;
        }
    }
    false
}

#[test]
fn the_clients_of_two_doors_load_into_one_list(rt: HostRuntime) -> Result<(), Fail> {
    let alloc = rt.alloc();
    let mut doors = two_doors(alloc, door(alloc, 2, ONE, 0)?, door(alloc, 2, ONE, 0)?)?;
    let served = serve(&rt, 2, &mut doors, &OpenGate)?;
    assert!(rt; !served.failed);
    assert_eq!(rt; (served.clients, served.records.len()), (4, 4));
    assert_eq!(rt; doors.len(), 2);
    for reply in REPLIES {
        assert!(rt; was_told(&doors[0], reply) || was_told(&doors[1], reply));
    }
    Ok(())
}

/// Whether at so many desks so many clients are served, who load as many networks.
fn serves<R: Threads + Wait + Sync + AllocGlobal>(
    rt: &R,
    desks: u32,
    doors: &mut Vec<MemoryDoor>,
    clients: usize,
    failed: bool,
) -> Result<bool, Fail>
    requires some { 0 < desks }
    requires most { desks ≤ MOST_DESKS }
    requires nobody { All (λ door. door.out ≡ None) doors.old.items }
{
    let served = serve(rt, desks, doors, &OpenGate)?;
    Ok(
        served.failed == failed
            && served.clients == clients as u64
            && served.records.len() == clients,
    )
}

#[test]
fn a_door_that_fails_is_told_and_not_asked_again(rt: HostRuntime) -> Result<(), Fail> {
    let alloc = rt.alloc();
    let mut doors = two_doors(alloc, door(alloc, 2, ONE, 2)?, door(alloc, 2, ONE, 0)?)?;
    assert!(rt; serves(&rt, 2, &mut doors, 3, true)?);
    assert_eq!(rt; doors.len(), 2);
    assert_eq!(rt; doors[0].served().len(), 1);
    assert_eq!(rt; doors[1].served().len(), 2);
    Ok(())
}

#[test]
fn a_door_for_which_there_is_no_desk_is_left_alone(rt: HostRuntime) -> Result<(), Fail> {
    // (the second one would fail)
    let alloc = rt.alloc();
    let mut doors = two_doors(alloc, door(alloc, 1, ONE, 0)?, door(alloc, 1, ONE, 1)?)?;
    assert!(rt; serves(&rt, 1, &mut doors, 1, false)?);
    assert_eq!(rt; doors.len(), 2);
    assert!(rt; doors[1].served().is_empty());
    Ok(())
}

#[test]
fn there_may_be_fewer_doors_and_clients_than_are_asked_for(rt: HostRuntime) -> Result<(), Fail> {
    let alloc = rt.alloc();
    let mut none = Vec::new(alloc);
    assert!(rt; serves(&rt, MOST_DESKS, &mut none, 0, false)?);
    let mut doors = two_doors(alloc, door(alloc, 3, ONE, 0)?, door(alloc, 0, ONE, 0)?)?;
    assert!(rt; serves(&rt, MOST_DESKS, &mut doors, 3, false)?);
    assert_eq!(rt; doors.len(), 2);
    assert_eq!(rt; doors[0].served().len(), 3);
    Ok(())
}

/// Holds a cut of two routers back until a cut of three has come, and the other way round. One who comes was given a
/// whole reply before.
#[derive(Drop)]
struct EachForTheOther {
    /// How often a cut of two routers has come.
    twos: AtomicU64,
    /// How often a cut of three routers has come.
    threes: AtomicU64,
    /// How often one waited in vain.
    failures: AtomicU64,
}

impl EachForTheOther {
    /// Notes that one has come, and waits until the other one has.
    fn come(&self, one: &AtomicU64, other: &AtomicU64) {
        one.fetch_add(1, Ordering::SeqCst);
        for _ in 0..LOOKS {
            if other.load(Ordering::SeqCst) > 0 {
                return;
            }
            thread::yield_now();
        }
        self.failures.fetch_add(1, Ordering::SeqCst);
    }
}

impl Gate for EachForTheOther {
    fn cut<'a>(
        &self,
        _worker: u32,
        desk: &mut FlowDesk,
        ticket: &Ticket,
        net: &'a Network,
    ) -> LeastCut<'a> {
        if net.routers() == 2 {
            self.come(&self.twos, &self.threes);
        } else {
            self.come(&self.threes, &self.twos);
        }
        compute(desk, ticket, net)
    }
}

#[test]
fn two_desks_are_at_work_at_once(rt: HostRuntime) -> Result<(), Fail> {
    let alloc = rt.alloc();
    let mut doors = two_doors(
        alloc,
        door(alloc, 1, THEN_TWO, 0)?,
        door(alloc, 1, THEN_THREE, 0)?,
    )?;
    let gate = EachForTheOther {
        twos: AtomicU64::new(0),
        threes: AtomicU64::new(0),
        failures: AtomicU64::new(0),
    };
    let served = serve(&rt, 2, &mut doors, &gate)?;
    assert_eq!(rt; (served.clients, served.records.len()), (2, 4));
    assert_eq!(rt; gate.twos.load(Ordering::SeqCst), 1);
    assert_eq!(rt; gate.threes.load(Ordering::SeqCst), 2);
    assert_eq!(rt; gate.failures.load(Ordering::SeqCst), 0);
    Ok(())
}
