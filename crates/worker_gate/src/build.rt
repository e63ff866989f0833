//! The tree of a network, built by workers.
ghost use Rattle.std.specs.Prelude.{◌≡◌, ◌<◌, ◌≤◌, IfOk};
ghost use Rattle.std.specs.Arc.{arc_value};
ghost use Rattle.job_queue.specs.declared.jobs.TheConstants.{MOST_WORKERS};

use crate::crew::Crew;
use crate::gate::Gate;
use crate::prepared::{Prepared, prepare};
use cut_model::{Network, NoMemory};
use job_queue::MOST_WORKERS;
use std::alloc::Global;
use std::marker::Brand;
use std::sync::ledger::Blank;
use std::sync::{Arc, Wait};
use std::thread::Threads;
use tree_state::Finished;

/// Prepares and builds, over the ledger of a blank.
fn build_with<L: Crew + Send + Sync, R: Threads + Wait + Sync, G: Gate + Sync>(
    alloc: Global,
    rt: &R,
    net: &Arc<Network>,
    workers: u32,
    gate: &G,
    blank: Blank,
) -> Result<Finished, NoMemory>
    requires name { blank.name ≡ L.name }
    requires parts { blank.parts ≡ L.parts }
    requires all { L.all ≡ L.parts }
    requires room { MOST_WORKERS < L.parts }
    requires net { arc_value net.now ≡ L.net }
    requires some { 0 < workers }
    requires most { workers ≤ MOST_WORKERS }
    ensures { IfOk result (λ tree. tree.tree.net ≡ arc_value net.now) }
{
    let prepared: Prepared<L> = prepare::<L, R>(alloc, rt, net.clone()?, workers, blank)?;
    Ok(prepared.build(rt, gate))
}

/// The finished tree of a network, by at most so many workers, from 1 to 16, whose cuts a gate computes. All memory
/// is taken before the first cut.
///
/// # Errors
/// [`NoMemory`] where that memory can't be had.
pub fn build_tree<R: Threads + Wait + Sync, G: Gate + Sync>(
    alloc: Global,
    rt: &R,
    net: &Arc<Network>,
    workers: u32,
    gate: &G,
) -> Result<Finished, NoMemory>
    requires some { 0 < workers }
    requires most { workers ≤ MOST_WORKERS }
    ensures { IfOk result (λ tree. tree.tree.net ≡ arc_value net.now) }
{
    build_with::<Brand, R, G>(
        alloc,
        rt,
        net,
        workers,
        gate,
        Blank::new(u64::from(MOST_WORKERS) + 1),
    )
}
