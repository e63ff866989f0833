//! The certificate of a row of three routers, where each edge of the tree has one flow alone.
ghost use Rattle.std.specs.Prelude.{◌≡◌, All, IfOk, IsTrue, OnOk};
ghost use Rattle.certifier.specs.Lines.{IsLowerEnd};

use crate::{
    FlowRoom, certificate_line_count, write_certificate, write_certificate_line, write_witness,
    write_witness_line,
};
use commit_rule::complete;
use cut_model::{LeastCut, Side};
use dinic_flow::FlowDesk;
use network_text::{Fed, Reader, Sheet};
use reply_lines::LineRun;
use std::alloc::Global;
use std::process::Abort;
use std::test::Fail;
use tree_state::{Finished, Growing};
use wires::Sink;

/// The certificate of the row.
const CERTIFICATE: &[u8] = b"cut tree 1\n\
router a\nrouter b\nrouter c\nlink a b 5\nlink b c 4\nEND\n\
root a\n\
edge b a 5\non -5\non 0\n\
edge c b 4\non 0\non -4\n\
DONE\n";

/// The witness of the way from c to a, and its first two lines again.
const WITNESS_AND_MORE: &[u8] = b"flow c b 4\non 0\non -4\n\
flow b a 5\non -5\non 0\n\
flow c b 4\non 0\n";

/// The sheet of the row.
fn row(rt: &impl Abort, alloc: Global) -> Result<Sheet, Fail> {
    let mut reader = Reader::begin(alloc)?;
    assert!(rt; reader.line(b"link a b 5") == Fed::More);
    assert!(rt; reader.line(b"link b c 4") == Fed::More);
    assert!(rt; reader.line(b"END") == Fed::Ended);
    Ok(reader.close()?)
}

/// Commits a router by a least cut of it from the router above it.
fn commit(rt: &impl Abort, desk: &mut FlowDesk, grow: &mut Growing, router: u32) -> Result<(), Fail>
    ensures { OnOk result (grow.new.net ≡ grow.old.net) }
{
    let net = grow.net().clone()?;
    assert!(rt; router < net.routers());
    assert!(rt; net.is_terminal(router));
    assert!(rt; router != net.root());
    assert!(rt; !grow.is_done(router));
    assert!(rt; desk.fits(&net));
    let neighbour = grow.neighbour(router);
    let mut side = Side::empty(net.routers());
    let value = desk.least_cut_uncounted(&net, router, neighbour, &mut side);
    grow.apply(&LeastCut::hold(&net, router, neighbour, side, value));
    Ok(())
}

/// The tree of the row.
fn tree_of(rt: &impl Abort, alloc: Global, sheet: &Sheet) -> Result<Finished, Fail>
    ensures { IfOk result (λ finished. finished.tree.net ≡ sheet.now.net) }
{
    let mut desk = FlowDesk::with_room(alloc, 3, 2)?;
    let mut grow = Growing::make(alloc, sheet.net().clone()?)?;
    commit(rt, &mut desk, &mut grow, 1)?;
    commit(rt, &mut desk, &mut grow, 2)?;
    Ok(complete(grow).ok().ok_or("a router wasn't committed")?)
}

/// Writes the certificate line by line, up to the place where it has no further one.
fn write_by_lines<K: Sink>(
    rt: &impl Abort,
    sheet: &Sheet,
    finished: &Finished,
    room: &mut FlowRoom,
    sink: &mut K,
) -> Result<(), Fail>
    requires { finished.now.tree.net ≡ sheet.now.net }
{
    let count = certificate_line_count(sheet);
    for place in 0..count {
        assert!(rt; write_certificate_line(sheet, finished, place, room, sink)?);
    }
    assert!(rt; !write_certificate_line(sheet, finished, count, room, sink)?);
    Ok(())
}

#[test]
fn the_certificate_of_a_row(rt: HostRuntime) -> Result<(), Fail> {
    let sheet = row(&rt, rt.alloc())?;
    let finished = tree_of(&rt, rt.alloc(), &sheet)?;
    let mut room = FlowRoom::make(rt.alloc())?;
    let mut run = LineRun::make(rt.alloc())?;
    write_certificate(&sheet, &finished, &mut room, &mut run)?;
    assert_eq!(rt; run.rest(), CERTIFICATE);
    run.clear();
    write_by_lines(&rt, &sheet, &finished, &mut room, &mut run)?;
    assert_eq!(rt; run.rest(), CERTIFICATE);
    Ok(())
}

/// Whether an edge leads up from a router.
fn is_lower_end(sheet: &Sheet, router: u32) -> bool
    ensures { IsTrue result → IsLowerEnd sheet.now.net router }
{
    let net = sheet.net();
    router < net.routers() && router != net.root()
}

/// Whether edges lead up from all of these.
fn are_lower_ends(sheet: &Sheet, children: &[u32]) -> bool
    ensures { IsTrue result → All (IsLowerEnd sheet.now.net) children.now }
{
    children.iter().all(|&child| is_lower_end(sheet, child))
}

/// Writes the witness of these routers, and behind it its first two lines again.
fn write_and_begin_again<K: Sink>(
    rt: &impl Abort,
    alloc: Global,
    sheet: &Sheet,
    finished: &Finished,
    children: &[u32],
    sink: &mut K,
) -> Result<(), Fail>
    requires { finished.now.tree.net ≡ sheet.now.net }
{
    assert!(rt; are_lower_ends(sheet, children));
    let mut room = FlowRoom::make(alloc)?;
    write_witness(sheet, finished, children, &mut room, sink)?;
    assert!(rt; write_witness_line(sheet, finished, children, 0, &mut room, sink)?);
    assert!(rt; write_witness_line(sheet, finished, children, 1, &mut room, sink)?);
    Ok(())
}

#[test]
fn the_witness_of_a_row(rt: HostRuntime) -> Result<(), Fail> {
    let sheet = row(&rt, rt.alloc())?;
    let finished = tree_of(&rt, rt.alloc(), &sheet)?;
    let mut run = LineRun::make(rt.alloc())?;
    write_and_begin_again(&rt, rt.alloc(), &sheet, &finished, &[2, 1], &mut run)?;
    assert_eq!(rt; run.rest(), WITNESS_AND_MORE);
    Ok(())
}
