//! Whole runs and sessions over sources and sinks in memory: pieces, reads and puts that fail, and workers that meet.
ghost use Rattle.std.specs.Prelude.{◌≡◌, ◌<◌, [], All, IfOk, None};

use crate::{Status, run};
use commit_rule::Ticket;
use cut_model::{LeastCut, Network};
use dinic_flow::FlowDesk;
use session::{Session, SessionEnd, serve_session};
use std::alloc::Global;
use std::io::{Read, Write};
use std::net::{Ipv4Addr, SocketAddr, TcpListener, TcpStream};
use std::sync::atomic::{AtomicU64, Ordering};
use std::sync::{Arc, Wait};
use std::test::Fail;
use std::thread::{self, Threads};
use tree_versions::{Record, SoloShelf};
use wires::{MemoryDoor, MemoryPeer, MemorySink, MemorySource, TcpDoor};
use worker_gate::{Gate, OpenGate, compute};

/// How often a gate looks, before it notes that it waited in vain.
const LOOKS: u32 = 20_000_000;

/// One network and a cut.
const FIRST: &[u8] = b"LOAD\nlink a b 5\nEND\nCUT a b\nBYE\n";

/// What `FIRST` gets by the rules of the protocol: replies of 28, 16 and 7 bytes.
const FIRST_REPLIES: &[u8] = b"@1 LOADED routers 2 links 1\n@1 CUT 5 side a\n@1 BYE\n";

/// A network of which two routers are to be cut from the third, and what it gets by whatever workers.
const TWO_CUTS: &[u8] = b"LOAD\nlink a b 5\nlink b c 3\nEND\nCUT a b\n";

const TWO_CUTS_REPLIES: &[u8] = b"@1 LOADED routers 3 links 2\n@1 CUT 5 side a\n";

/// The summary of the network with the links 2 to 2 of 613, 0 to 2 of 743 and 1 to 0 of 355.
const MADE_SUMMARY: &[u8] = b"made routers 3 links 3\nleast 355\nsum 1098\n";

/// What a second session gets, over the record of the first.
const SECOND_REPLIES: &[u8] = b"@2 LOADED routers 2 links 1\n@2 CUT 5 side a\n@2 BYE\n";

/// A certificate of three routers in a row: b sends its 5 to a, and c its 4 to b.
const CERTIFICATE: &[u8] = b"cut tree 1\nrouter a\nrouter b\nrouter c\nlink a b 5\nlink b c 4\n\
    END\nroot a\nedge b a 5\non -5\non 0\nedge c b 4\non 0\non -4\nDONE\n";

/// The same with a first edge that is wider than what its flow carries.
const SPOILT: &[u8] = b"cut tree 1\nrouter a\nrouter b\nrouter c\nlink a b 5\nlink b c 4\n\
    END\nroot a\nedge b a 6\non -5\non 0\nedge c b 4\non 0\non -4\nDONE\n";

/// A source of `FIRST` in pieces, and a sink with this room, which fail at these calls, if they are so many.
fn peer(
    alloc: Global,
    piece: usize,
    failing_read: u32,
    room: usize,
    failing_put: u32,
) -> Result<MemoryPeer, Fail>
    requires { 0 < piece }
{
    let reads = vec![in alloc; failing_read]?;
    let puts = vec![in alloc; failing_put]?;
    Ok(MemoryPeer {
        source: MemorySource::make(FIRST.to_vec(alloc)?, piece, reads),
        sink: MemorySink::make(alloc, room, puts)?,
    })
}

/// No doors.
fn no_doors(alloc: Global) -> Vec<MemoryDoor>
    ensures { result.items ≡ [] }
{
    Vec::new(alloc)
}

/// Whether a run of `plan` ends so, with the front of the replies that has this length.
fn ends<R: Threads + Wait + Sync + AllocGlobal>(
    rt: &R,
    mut peer: MemoryPeer,
    status: Status,
    written: usize,
) -> Result<bool, Fail> {
    let alloc = rt.alloc();
    let words = vec![in alloc; String::from_str(alloc, "plan")?]?;
    let outcome = run(
        alloc,
        rt,
        &words,
        &mut peer.source,
        &mut peer.sink,
        &mut no_doors(alloc),
        &OpenGate,
    );
    let text = peer.sink.written();
    Ok(outcome.status == status && text.len() == written && FIRST_REPLIES.starts_with(text))
}

#[test]
fn replies_are_the_same_in_whatever_pieces_the_input_comes(rt: HostRuntime) -> Result<(), Fail> {
    let alloc = rt.alloc();
    assert!(rt; ends(&rt, peer(alloc, 1, 0, 100, 0)?, Status::Done, 51)?);
    assert!(rt; ends(&rt, peer(alloc, 7, 0, 100, 0)?, Status::Done, 51)?);
    Ok(())
}

#[test]
fn a_read_that_fails_leaves_whole_replies(rt: HostRuntime) -> Result<(), Fail> {
    // In pieces of 8 bytes the third read has the line END, and the fourth the BYE.
    let alloc = rt.alloc();
    assert!(rt; ends(&rt, peer(alloc, 8, 3, 100, 0)?, Status::ReadFault, 0)?);
    assert!(rt; ends(&rt, peer(alloc, 8, 4, 100, 0)?, Status::ReadFault, 28)?);
    Ok(())
}

#[test]
fn a_put_that_fails_leaves_a_front_of_the_replies(rt: HostRuntime) -> Result<(), Fail> {
    let alloc = rt.alloc();
    assert!(rt; ends(&rt, peer(alloc, 99, 0, 100, 2)?, Status::WriteFault, 28)?);
    assert!(rt; ends(&rt, peer(alloc, 99, 0, 30, 0)?, Status::WriteFault, 30)?);
    Ok(())
}

/// Whether a session over the shelf is done, with these replies.
fn is_served<R: Threads + Wait + Sync + AllocGlobal>(
    rt: &R,
    session: &mut Session,
    shelf: &mut SoloShelf,
    replies: &[u8],
) -> Result<bool, Fail> {
    let mut peer = peer(rt.alloc(), 3, 0, 100, 0)?;
    let end = serve_session(rt.alloc(), rt, session, shelf, &mut peer, &OpenGate);
    Ok(end == SessionEnd::Done && peer.sink.written() == replies)
}

#[test]
fn a_session_begins_anew_over_the_records_of_the_one_before(rt: HostRuntime) -> Result<(), Fail> {
    let alloc = rt.alloc();
    let mut session = Session::make(alloc, 1)?;
    let mut shelf = SoloShelf::make(alloc)?;
    assert!(rt; is_served(&rt, &mut session, &mut shelf, FIRST_REPLIES)?);
    assert!(rt; is_served(&rt, &mut session, &mut shelf, SECOND_REPLIES)?);
    Ok(())
}

/// Whether a run of `check` over a text ends so, and writes this.
fn checks<R: Threads + Wait + Sync + AllocGlobal>(
    rt: &R,
    text: &[u8],
    status: Status,
    line: &[u8],
) -> Result<bool, Fail> {
    let alloc = rt.alloc();
    let words = vec![in alloc; String::from_str(alloc, "check")?]?;
    let mut source = MemorySource::make(text.to_vec(alloc)?, 7, vec![in alloc; 0]?);
    let mut sink = MemorySink::make(alloc, 100, vec![in alloc; 0]?)?;
    let outcome = run(
        alloc,
        rt,
        &words,
        &mut source,
        &mut sink,
        &mut no_doors(alloc),
        &OpenGate,
    );
    Ok(outcome.status == status && outcome.records.is_empty() && sink.written() == line)
}

#[test]
fn a_certificate_is_accepted_and_a_spoilt_one_is_not(rt: HostRuntime) -> Result<(), Fail> {
    let accepted = b"accepted routers 3 links 2\n";
    assert!(rt; checks(&rt, CERTIFICATE, Status::Done, accepted)?);
    assert!(rt; checks(&rt, SPOILT, Status::NotAccepted, b"refused 37 line 9\n")?);
    Ok(())
}

/// The words for a made network of three routers, with two workers.
fn made_words(alloc: Global) -> Result<Vec<String>, Fail> {
    Ok(vec![in alloc;
        String::from_str(alloc, "make")?,
        String::from_str(alloc, "--seed=7")?,
        String::from_str(alloc, "--routers=3")?,
        String::from_str(alloc, "--links=3")?,
        String::from_str(alloc, "--workers=2")?,
    ]?)
}

/// Whether this network is summed up over a sink with this room so, and writes this.
fn makes<R: Threads + Wait + Sync + AllocGlobal>(
    rt: &R,
    room: usize,
    status: Status,
    text: &[u8],
) -> Result<bool, Fail> {
    let alloc = rt.alloc();
    let words = made_words(alloc)?;
    let mut peer = peer(alloc, 7, 0, room, 0)?;
    let outcome = run(
        alloc,
        rt,
        &words,
        &mut peer.source,
        &mut peer.sink,
        &mut no_doors(alloc),
        &OpenGate,
    );
    Ok(outcome.status == status && outcome.records.is_empty() && peer.sink.written() == text)
}

#[test]
fn a_made_network_is_summed_up_as_far_as_there_is_room(rt: HostRuntime) -> Result<(), Fail> {
    assert!(rt; makes(&rt, 100, Status::Done, MADE_SUMMARY)?);
    assert!(rt;
        makes(
            &rt,
            30,
            Status::WriteFault,
            b"made routers 3 links 3\nleast 3"
        )?
    );
    Ok(())
}

/// Holds router 1 back until router 2 has come.
#[derive(Drop)]
struct TwoAtOnce {
    /// How often router 2 has come.
    twos: AtomicU64,
    /// How often router 1 waited in vain.
    failures: AtomicU64,
}

impl TwoAtOnce {
    fn wait_for_two(&self) {
        for _ in 0..LOOKS {
            if self.twos.load(Ordering::SeqCst) > 0 {
                return;
            }
            thread::yield_now();
        }
        self.failures.fetch_add(1, Ordering::SeqCst);
    }
}

impl Gate for TwoAtOnce {
    fn cut<'a>(
        &self,
        _worker: u32,
        desk: &mut FlowDesk,
        ticket: &Ticket,
        net: &'a Network,
    ) -> LeastCut<'a> {
        if ticket.router == 2 {
            self.twos.fetch_add(1, Ordering::SeqCst);
        } else if ticket.router == 1 {
            self.wait_for_two();
        }
        compute(desk, ticket, net)
    }
}

/// Whether in a run of these words over `TWO_CUTS`, and over a door with a client who sends it, two workers computed
/// cuts at once. The run is done and writes this.
fn two_meet<R: Threads + Wait + Sync + AllocGlobal>(
    rt: &R,
    words: &[String],
    text: &[u8],
) -> Result<bool, Fail> {
    let alloc = rt.alloc();
    let gate = TwoAtOnce {
        twos: AtomicU64::new(0),
        failures: AtomicU64::new(0),
    };
    let mut source = MemorySource::make(TWO_CUTS.to_vec(alloc)?, 99, vec![in alloc; 0]?);
    let mut sink = MemorySink::make(alloc, 100, vec![in alloc; 0]?)?;
    let clients = vec![in alloc; client(alloc, TWO_CUTS)?]?;
    let mut doors = vec![in alloc; door_of(alloc, clients)?]?;
    let outcome = run(alloc, rt, words, &mut source, &mut sink, &mut doors, &gate);
    let met = gate.twos.load(Ordering::SeqCst) > 0 && gate.failures.load(Ordering::SeqCst) == 0;
    Ok(met && outcome.status == Status::Done && sink.written() == text)
}

#[test]
fn as_many_workers_build_a_tree_as_the_words_ask_for(rt: HostRuntime) -> Result<(), Fail> {
    let alloc = rt.alloc();
    let words = vec![in alloc;
        String::from_str(alloc, "plan")?,
        String::from_str(alloc, "--workers=2")?,
    ]?;
    assert!(rt; two_meet(&rt, &words, TWO_CUTS_REPLIES)?);
    assert!(rt; two_meet(&rt, &made_words(alloc)?, MADE_SUMMARY)?);
    let mut words = serve_words(alloc, "--desks=1", "--sessions=1")?;
    words.push(String::from_str(alloc, "--workers=2")?)?;
    assert!(rt; two_meet(&rt, &words, b"served 1 versions 1\n")?);
    Ok(())
}

/// A client who sends a text, and has room for all replies to it.
fn client(alloc: Global, text: &[u8]) -> Result<MemoryPeer, Fail> {
    Ok(MemoryPeer {
        source: MemorySource::make(text.to_vec(alloc)?, 5, vec![in alloc; 0]?),
        sink: MemorySink::make(alloc, 10_000, vec![in alloc; 0]?)?,
    })
}

/// A door with these clients.
fn door_of(alloc: Global, clients: Vec<MemoryPeer>) -> Result<MemoryDoor, Fail>
    ensures { IfOk result (λ door. door.out ≡ None) }
{
    Ok(MemoryDoor::make(alloc, clients, vec![in alloc; 0]?)?)
}

/// A door with so many clients who load a network and ask nothing, since a reply might be that of what another one
/// loaded. This call for a client fails, if they are so many.
fn door(alloc: Global, clients: u32, failing: u32) -> Result<MemoryDoor, Fail>
    ensures { IfOk result (λ door. door.out ≡ None) }
{
    let mut all = Vec::new(alloc);
    for _number in 0..clients {
        all.push(client(alloc, b"LOAD\nlink a b 5\nEND\n")?)?;
    }
    Ok(MemoryDoor::make(alloc, all, vec![in alloc; failing]?)?)
}

/// Two doors.
fn two_doors(alloc: Global, one: MemoryDoor, other: MemoryDoor) -> Result<Vec<MemoryDoor>, Fail>
    requires one { one.out ≡ None }
    requires other { other.out ≡ None }
    ensures { IfOk result (λ doors. All (λ door. door.out ≡ None) doors.items) }
{
    Ok(vec![in alloc; one, other]?)
}

/// The words for a server with these options for its desks and sessions.
fn serve_words(alloc: Global, desks: &str, sessions: &str) -> Result<Vec<String>, Fail> {
    Ok(vec![in alloc;
        String::from_str(alloc, "serve")?,
        String::from_str(alloc, "--port=4000")?,
        String::from_str(alloc, desks)?,
        String::from_str(alloc, sessions)?,
    ]?)
}

/// The records of a run of these words, which serves these doors, and ends so with a last line; none where it ends
/// otherwise. A put may fail, and then it is the first.
fn records_served<R: Threads + Wait + Sync + AllocGlobal>(
    rt: &R,
    words: &[String],
    doors: &mut Vec<MemoryDoor>,
    failing_put: u32,
    status: Status,
    line: &[u8],
) -> Result<Option<Vec<Arc<Record>>>, Fail>
    requires { All (λ door. door.out ≡ None) doors.old.items }
{
    let alloc = rt.alloc();
    let mut peer = peer(alloc, 9, 0, 100, failing_put)?;
    let outcome = run(
        alloc,
        rt,
        words,
        &mut peer.source,
        &mut peer.sink,
        doors,
        &OpenGate,
    );
    if outcome.status != status || peer.sink.written() != line {
        return Ok(None);
    }
    Ok(Some(outcome.records))
}

/// Whether these doors are served so by a run of these words, with a last line. A put may fail, and then it is the
/// first.
fn is_served_by<R: Threads + Wait + Sync + AllocGlobal>(
    rt: &R,
    words: &[String],
    doors: &mut Vec<MemoryDoor>,
    failing_put: u32,
    status: Status,
    line: &[u8],
) -> Result<bool, Fail>
    requires { All (λ door. door.out ≡ None) doors.old.items }
{
    Ok(records_served(rt, words, doors, failing_put, status, line)?.is_some())
}

/// Whether these doors are served so, with a last line, by up to five sessions each. A put may fail, and then it is the
/// first.
fn serves<R: Threads + Wait + Sync + AllocGlobal>(
    rt: &R,
    doors: &mut Vec<MemoryDoor>,
    failing_put: u32,
    status: Status,
    line: &[u8],
) -> Result<bool, Fail>
    requires { All (λ door. door.out ≡ None) doors.old.items }
{
    let words = serve_words(rt.alloc(), "--desks=8", "--sessions=5")?;
    is_served_by(rt, &words, doors, failing_put, status, line)
}

/// What one of up to three clients gets who load a network.
const LOADED: [&[u8]; 3] = [
    b"@1 LOADED routers 2 links 1\n",
    b"@2 LOADED routers 2 links 1\n",
    b"@3 LOADED routers 2 links 1\n",
];

/// Whether so many clients came back through a door, each with the reply to what it loaded.
fn came_back(door: &MemoryDoor, clients: usize) -> bool {
    let served = door.served();
    let mut whole = served.len() == clients;
    for client in served {
        let text = client.sink.written();
        whole &= LOADED.contains(&text);
    }
    whole
}

#[test]
fn the_clients_of_two_doors_load_into_one_list(rt: HostRuntime) -> Result<(), Fail> {
    let alloc = rt.alloc();
    let mut doors = two_doors(alloc, door(alloc, 1, 0)?, door(alloc, 1, 0)?)?;
    assert!(rt; serves(&rt, &mut doors, 0, Status::Done, b"served 2 versions 2\n")?);
    for door in &doors {
        assert!(rt; came_back(door, 1));
    }
    Ok(())
}

#[test]
fn a_door_that_fails_is_not_asked_again(rt: HostRuntime) -> Result<(), Fail> {
    let alloc = rt.alloc();
    let mut doors = two_doors(alloc, door(alloc, 2, 2)?, door(alloc, 2, 0)?)?;
    let line = b"served 3 versions 3\n";
    assert!(rt; serves(&rt, &mut doors, 0, Status::DoorFault, line)?);
    assert_eq!(rt; doors.len(), 2);
    assert!(rt; came_back(&doors[0], 1));
    assert!(rt; came_back(&doors[1], 2));
    Ok(())
}

#[test]
fn a_failed_door_goes_before_a_failed_sink(rt: HostRuntime) -> Result<(), Fail> {
    let alloc = rt.alloc();
    let mut doors = two_doors(alloc, door(alloc, 1, 1)?, door(alloc, 1, 1)?)?;
    assert!(rt; serves(&rt, &mut doors, 1, Status::DoorFault, b"")?);
    let mut sound = two_doors(alloc, door(alloc, 0, 0)?, door(alloc, 0, 0)?)?;
    assert!(rt; serves(&rt, &mut sound, 1, Status::WriteFault, b"")?);
    Ok(())
}

#[test]
fn a_later_client_of_a_door_sees_what_an_earlier_one_loaded(rt: HostRuntime) -> Result<(), Fail> {
    let alloc = rt.alloc();
    let clients = vec![in alloc; client(alloc, FIRST)?, client(alloc, b"CUT a b\n")?]?;
    let mut doors = vec![in alloc; door_of(alloc, clients)?]?;
    let words = serve_words(alloc, "--desks=1", "--sessions=2")?;
    let line = b"served 2 versions 1\n";
    assert!(rt; is_served_by(&rt, &words, &mut doors, 0, Status::Done, line)?);
    assert_eq!(rt; doors.len(), 1);
    let served = doors[0].served();
    assert_eq!(rt; served.len(), 2);
    assert_eq!(rt; served[0].sink.written(), FIRST_REPLIES);
    assert_eq!(rt; served[1].sink.written(), b"@1 CUT 5 side a\n".as_slice());
    Ok(())
}

/// Three networks.
const NETWORKS: &[u8] =
    b"LOAD\nlink a b 5\nEND\nLOAD\nlink r0 r1 1\nlink r0 r2 7\nlink r1 r2 1\nlink r1 r3 3\n\
    link r1 r4 2\nlink r2 r4 4\nlink r3 r4 1\nlink r3 r5 6\nlink r4 r5 2\nEND\n\
    LOAD\nlink a b 2\nlink b c 9\nEND\n";

/// How many routers they have.
const NETWORK_ROUTERS: [u32; 3] = [2, 6, 3];

/// What the client gets who loads them, and nobody else loads.
const NETWORKS_REPLIES: &[u8] = b"@1 LOADED routers 2 links 1\n@2 LOADED routers 6 links 9\n\
    @3 LOADED routers 3 links 2\n";

/// What a client gets for `TREE` before `NETWORKS` are loaded, and at each of their versions.
const TREES: [&[u8]; 4] = [
    b"@0 NO 6\n",
    b"@1 TREE 1\nb a 5\n",
    b"@2 TREE 5\nr1 r4 7\nr2 r0 8\nr3 r1 6\nr4 r2 6\nr5 r3 8\n",
    b"@3 TREE 2\nb a 2\nc b 9\n",
];

/// How often a tree is asked for.
const TREES_ASKED: usize = 100;

/// How often a text begins with a reply, one at once behind the other, and what is behind.
fn strip_all<'a>(text: &'a [u8], reply: &[u8]) -> (usize, &'a [u8]) {
    let mut rest = text;
    for count in 0..TREES_ASKED {
        match rest.strip_prefix(reply) {
            Some(behind) => rest = behind,
            None => return (count, rest),
        }
    }
    (TREES_ASKED, rest)
}

/// Whether a text is the replies to `TREES_ASKED` requests, each that of its version, and no version falls.
fn are_trees_in_order(text: &[u8]) -> bool {
    let mut rest = text;
    let mut replies = 0usize;
    for tree in TREES {
        let (times, behind) = strip_all(rest, tree);
        replies = replies.saturating_add(times);
        rest = behind;
    }
    replies == TREES_ASKED && rest.is_empty()
}

/// Whether these are the records of `NETWORKS`, which differ in how many routers they have.
fn are_networks(records: &[Arc<Record>]) -> bool {
    let routers = records.iter().map(|record| record.sheet().net().routers());
    routers.eq(NETWORK_ROUTERS)
}

/// What the last client of the last door was written.
fn last_replies(doors: &[MemoryDoor]) -> &[u8] {
    let Some(door) = doors.last() else {
        return b"";
    };
    match door.served().last() {
        Some(client) => client.sink.written(),
        None => b"",
    }
}

#[test]
fn no_version_falls_while_another_desk_loads(rt: HostRuntime) -> Result<(), Fail> {
    let alloc = rt.alloc();
    let asking = b"TREE\n".repeat(alloc, TREES_ASKED)?;
    let loader = door_of(alloc, vec![in alloc; client(alloc, NETWORKS)?]?)?;
    let asker = door_of(alloc, vec![in alloc; client(alloc, &asking)?]?)?;
    let mut doors = two_doors(alloc, loader, asker)?;
    let words = serve_words(alloc, "--desks=2", "--sessions=1")?;
    let line = b"served 2 versions 3\n";
    let records = records_served(&rt, &words, &mut doors, 0, Status::Done, line)?;
    assert!(rt; records.is_some_and(|records| are_networks(&records)));
    assert!(rt; are_trees_in_order(last_replies(&doors)));
    assert_eq!(rt; doors.len(), 2);
    assert_eq!(rt; last_replies(&doors[..1]), NETWORKS_REPLIES);
    Ok(())
}

#[test]
fn a_server_takes_256_networks(rt: HostRuntime) -> Result<(), Fail> {
    let alloc = rt.alloc();
    let mut text = b"LOAD\nlink a b 5\nEND\n".repeat(alloc, 257)?;
    text.extend_from_slice(b"CUT a b\n")?;
    let loader = door_of(alloc, vec![in alloc; client(alloc, &text)?]?)?;
    let mut doors = vec![in alloc; loader]?;
    let words = serve_words(alloc, "--desks=1", "--sessions=1")?;
    let line = b"served 1 versions 256\n";
    assert!(rt; is_served_by(&rt, &words, &mut doors, 0, Status::Done, line)?);
    let end = b"@256 LOADED routers 2 links 1\n@256 NO 20\n@256 CUT 5 side a\n";
    assert!(rt; last_replies(&doors).ends_with(end));
    Ok(())
}

/// Sends the texts of `FIRST` one after another, each when the reply to the one before has come. It tells whether all
/// replies came, and nothing behind them.
fn converse(mut stream: TcpStream) -> Option<bool> {
    let mut loaded = [0u8; 28];
    let mut others = [0u8; 23];
    stream.write_all(b"LOAD\nlink a b 5\nEND\n").ok()?;
    stream.read_exact(&mut loaded).ok()?;
    stream.write_all(b"CUT a b\nBYE\n").ok()?;
    stream.read_exact(&mut others).ok()?;
    let behind = stream.read(&mut [0u8; 1]).ok()?;
    Some(FIRST_REPLIES.starts_with(&loaded) && FIRST_REPLIES.ends_with(&others) && behind == 0)
}

/// Whether a run of these words serves those who connect to a listener, and is done with this last line.
fn serves_over<R: Threads + Wait + Sync + AllocGlobal>(
    rt: &R,
    words: &[String],
    listener: TcpListener,
    line: &[u8],
) -> Option<bool> {
    let alloc = rt.alloc();
    let mut source = MemorySource::make(Vec::new(alloc), 1, Vec::new(alloc));
    let mut sink = MemorySink::make(alloc, 100, Vec::new(alloc)).ok()?;
    let mut doors = Vec::from_array(alloc, [TcpDoor::make(listener)]).ok()?;
    let outcome = run(
        alloc,
        rt,
        words,
        &mut source,
        &mut sink,
        &mut doors,
        &OpenGate,
    );
    Some(outcome.status == Status::Done && sink.written() == line)
}

#[test]
fn a_client_is_served_over_a_socket(rt: HostRuntime) -> Result<(), Fail> {
    let listener = TcpListener::bind(&rt, SocketAddr::from((Ipv4Addr::LOCALHOST, 0u16)))?;
    let stream = TcpStream::connect(&rt, listener.local_addr()?)?;
    let words = serve_words(rt.alloc(), "--desks=1", "--sessions=1")?;
    let line = b"served 1 versions 1\n";
    let both = thread::join(
        &rt,
        move || converse(stream),
        || serves_over(&rt, &words, listener, line),
    );
    assert_eq!(rt; both, (Some(true), Some(true)));
    Ok(())
}
