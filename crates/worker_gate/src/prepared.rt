//! A build with all that it needs.
ghost use Rattle.std.specs.Prelude.{◌≡◌, ℕ, ◌+◌, ◌<◌, ◌≤◌, List, All, IfOk, length, sum_by};
ghost use Rattle.std.specs.Arc.{arc_value};
ghost use Rattle.cut_model.specs.declared.network.TheConstants.{MOST_ROUTERS};
ghost use Rattle.job_queue.specs.Passes.{QueueId, new_pass};
ghost use Rattle.job_queue.specs.declared.jobs.TheConstants.{MOST_WORKERS};
ghost use Rattle.worker_gate.specs.Building.{IsJob};

use crate::crew::Crew;
use crate::finish::finish;
use crate::gate::Gate;
use crate::locked::Locked;
use crate::worker::{Worker, work};
use cut_model::{Network, NoMemory};
use dinic_flow::FlowDesk;
use job_queue::{Jobs, MOST_WORKERS, Pass};
use std::alloc::Global;
use std::sync::ledger::{Blank, Share};
use std::sync::{Arc, Mutex, Wait};
use std::thread::{self, Threads};
use tree_state::{Finished, Growing};

/// So many workers are always worth starting.
const FEW_WORKERS: u32 = 4;

/// One more is worth starting for each so many routers.
const ROUTERS_EACH: u32 = 16;

/// All that a build of one network needs: the tree before any commit, the queue of the routers that are to be
/// committed, and the workers with their desks.
#[derive(Drop)]
pub struct Prepared<L: Crew> {
    net: Arc<Network>,
    state: Mutex<Locked<L>>,
    jobs: Jobs,
    workers: Vec<Worker<L>>,
    rest: Share<L>,
    ghost some: { 0 < length workers.items },
    ghost whole: { rest.parts + length workers.items ≡ L.all },
    ghost same: { arc_value net ≡ L.net },
    ghost queue: { All (λ w. w.pass.queue ≡ jobs) workers.items },
}

/// The routers that are to be committed, in the order of their numbers.
fn jobs_of(alloc: Global, net: &Network) -> Result<Vec<u32>, NoMemory>
    ensures jobs { IfOk result (λ jobs. All (λ router. IsJob net.now router) jobs.items) }
    ensures few { IfOk result (λ jobs. length jobs.items < MOST_ROUTERS) }
{
    let root = net.root();
    let mut jobs = Vec::with_capacity(alloc, net.routers() as usize)?;
    for router in 0..net.routers() {
        if net.is_terminal(router) && router != root {
            jobs.push(router)?;
        }
    }
    Ok(jobs)
}

/// How many workers are worth starting for so many routers. Where there are few, starting a thread costs more time than
/// it saves.
fn crew_size(most: u32, routers: u32) -> u32
    requires { 0 < most }
    ensures some { 0 < result }
    ensures most { result ≤ most }
{
    let worth = FEW_WORKERS + routers / ROUTERS_EACH;
    most.min(routers).min(worth).max(1)
}

/// A worker with a pass of a queue, and a desk that holds the network.
fn make_worker<L: Crew>(
    alloc: Global,
    net: &Network,
    queue: &Jobs,
    number: u32,
    pass: Pass,
    share: Share<L>,
) -> Result<Worker<L>, NoMemory>
    requires net { net.now ≡ L.net }
    requires queue { pass.queue ≡ queue.now }
    requires jobs { All (λ router. IsJob L.net router) pass.jobs }
    requires part { share.parts ≡ 1 }
    ensures { IfOk result (λ worker. worker.pass.queue ≡ queue.now) }
{
    let _ = queue;
    let mut desk = FlowDesk::with_room(alloc, net.routers(), net.links().len() as u32)?;
    desk.load(net);
    Ok(Worker {
        number,
        desk,
        pass,
        share,
    })
}

/// A worker for each of these passes of a queue. Each gets one part of the ledger.
fn make_workers<L: Crew>(
    alloc: Global,
    net: &Network,
    queue: &Jobs,
    passes: Vec<Pass>,
    rest: &mut Share<L>,
) -> Result<Vec<Worker<L>>, NoMemory>
    requires net { net.now ≡ L.net }
    requires parts { length passes.items < rest.old.parts }
    requires few { length passes.items ≤ MOST_WORKERS }
    requires queue { All (λ p. p.queue ≡ queue.now) passes.items }
    requires jobs { All (λ p. All (λ router. IsJob L.net router) p.jobs) passes.items }
    ensures count { IfOk result (λ workers. length workers.items ≡ length passes.items) }
    ensures parts { IfOk result (λ workers. rest.new.parts + length workers.items ≡ rest.old.parts) }
    ensures queue { IfOk result (λ workers. All (λ w. w.pass.queue ≡ queue.now) workers.items) }
{
    let mut workers = Vec::with_capacity(alloc, passes.len())?;
    for pass in passes {
        let number = workers.len() as u32;
        let share = rest.split_off(1, 0);
        workers.push(make_worker(alloc, net, queue, number, pass, share)?)?;
    }
    Ok(workers)
}

/// Makes all that a build by at most so many workers needs, from 1 to 16, and takes all its memory: the
/// tables, the queue, and for each worker a desk of the network's own size. A small network gets fewer
/// workers: no more than there are routers to be committed, and no more than are worth starting.
///
/// # Errors
/// [`NoMemory`] where that memory can't be had.
pub fn prepare<L: Crew, R: Wait>(
    alloc: Global,
    rt: &R,
    net: Arc<Network>,
    workers: u32,
    blank: Blank,
) -> Result<Prepared<L>, NoMemory>
    requires name { blank.name ≡ L.name }
    requires parts { blank.parts ≡ L.parts }
    requires all { L.all ≡ L.parts }
    requires room { MOST_WORKERS < L.parts }
    requires net { arc_value net ≡ L.net }
    requires some { 0 < workers }
    requires most { workers ≤ MOST_WORKERS }
{
    let (commits, mut rest) = blank.open::<L>();
    let list = jobs_of(alloc, &net)?;
    let count = crew_size(workers, list.len() as u32);
    let (jobs, passes) = Jobs::make(alloc, rt, list, count)?;
    let workers = make_workers(alloc, &net, &jobs, passes, &mut rest)?;
    let grow = Growing::make(alloc, net.clone()?)?;
    Ok(Prepared {
        net,
        state: Mutex::new(Locked { grow, commits }),
        jobs,
        workers,
        rest,
    })
}

/// Puts the shares of the workers together. They add up to the commits.
fn gather<L: Crew>(locked: Locked<L>, workers: Vec<Worker<L>>, rest: Share<L>) -> Growing
    requires parts { rest.parts + length workers.items ≡ L.parts }
    ensures net { result.net ≡ L.net }
    ensures commits { length result.history
        ≡ rest.amount + sum_by (λ w. w.share.amount) workers.items }
{
    let mut rest = rest;
    for worker in workers {
        let Worker {
            number: _,
            desk: _,
            pass: _,
            share,
        } = worker;
        rest.merge(share);
    }
    let Locked { grow, mut commits } = locked;
    commits.audit(&mut rest);
    grow
}

impl<L: Crew + Send + Sync> Prepared<L> {
    /// Builds the tree: the workers commit each terminal but the root by a least cut from the router above it. Each
    /// works in a thread of its own where one can be made, and one of them in the caller's. The cuts are computed by
    /// the gate. It takes no memory and refuses nothing.
    pub fn build<R: Threads + Wait + Sync, G: Gate + Sync>(self, rt: &R, gate: &G) -> Finished
        requires { L.all ≡ L.parts }
        ensures { result.tree.net ≡ L.net }
    {
        let Prepared {
            net,
            state,
            jobs,
            mut workers,
            mut rest,
        } = self;
        let given: &Network = &net;
        thread::for_each_mut(
            rt,
            workers.as_mut_slice(),
            MOST_WORKERS as usize,
            &|_, me: &mut Worker<L>| work(rt, given, &state, &jobs, gate, me),
        );
        let Some(last) = workers.pop() else {
            unreachable!()
        };
        let Worker {
            number: _,
            desk,
            pass: _,
            share,
        } = last;
        rest.merge(share);
        finish(desk, gather(state.into_inner(), workers, rest), given)
    }
}
