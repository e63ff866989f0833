//! The queue.
ghost use Rattle.std.specs.Prelude.{◌≡◌, ℕ, ◌+◌, ◌≤◌, ◌<◌, List, [], true, false, length, sum_by, All, Contains};
ghost use Rattle.std.specs.Prelude.{IfNone, IfOk, IfSome, OnOk};
ghost use Rattle.std.specs.List.{list_any};
ghost use Rattle.cut_model.specs.declared.network.TheConstants.{MOST_ROUTERS};
ghost use Rattle.crossbeam_queue.specs.Passes.{view, IsPassOf};
ghost use Rattle.job_queue.specs.Counts.{IsAlone, IsDrained, IsGathered};
ghost use Rattle.job_queue.specs.Passes.{new_pass, with_job, at_end, AreTogether};
ghost use Rattle.job_queue.specs.Rule.{known, MayFollow, Puts};
ghost use Rattle.job_queue.specs.declared.jobs.TheConstants.{MOST_WORKERS};

use crate::item::Item;
use crate::pass::Pass;
use crate::rule::{Bench, Parting, Pop, PopRest, Push, RawPass};
use cut_model::NoMemory;
use std::alloc::Global;
use std::marker::Model;
use std::sync::Wait;

/// The greatest number of workers, and of passes of one queue.
pub const MOST_WORKERS: u32 = 16;

/// A queue of jobs, which workers share by reference. Contracts see which queue it is.
#[derive(Drop)]
pub struct Jobs {
    bench: Bench,
}

impl Model for Jobs {
    ghost use Rattle.job_queue.specs.Passes.{QueueId};

    ghost Value = { QueueId };

    ghost view = { λ j. j.bench.table.shared.table_id };
}

/// What became of the jobs of a queue: how many are left, and how many were taken.
#[derive(Clone, Copy, PartialEq, Eq, Debug)]
pub struct Closed {
    pub left: u32,
    pub taken: u32,
}

/// Pushes a job or a mark, by the one pass that there is.
fn push<R: Wait>(rt: &R, bench: &Bench, raw: &mut RawPass, item: Item) -> Result<(), NoMemory>
    requires queue { IsPassOf bench.now raw.old }
    requires alone { IsAlone (view raw.old) }
    requires unended { (view raw.old).ended ≡ false }
    requires order { MayFollow (view raw.old) item }
    ensures queue { IsPassOf bench.now raw.new }
    ensures put { OnOk result (Puts (view raw.old) item (view raw.new)) }
{
    if bench.push_as::<Push, R>(rt, raw, item).is_err() {
        return Err(NoMemory);
    }
    Ok(())
}

/// Pushes the jobs in their order.
fn push_jobs<R: Wait>(
    rt: &R,
    bench: &Bench,
    raw: &mut RawPass,
    jobs: &[u32],
) -> Result<(), NoMemory>
    requires queue { IsPassOf bench.now raw.old }
    requires first { view raw.old ≡ known 1 1 0 false [] [] }
    ensures queue { IsPassOf bench.now raw.new }
    ensures put { OnOk result (view raw.new ≡ known 1 1 0 false jobs.now []) }
{
    for job in jobs {
        push(rt, bench, raw, Item::Job(*job))?;
    }
    Ok(())
}

/// Pushes a mark for each worker.
fn push_marks<R: Wait>(
    rt: &R,
    bench: &Bench,
    raw: &mut RawPass,
    workers: u32,
) -> Result<(), NoMemory>
    requires queue { IsPassOf bench.now raw.old }
    requires first { view raw.old ≡ known 1 1 0 false (view raw.old).jobs [] }
    requires some { 0 < workers }
    ensures queue { IsPassOf bench.now raw.new }
    ensures put { OnOk result (view raw.new ≡ known workers workers workers false (view raw.old).jobs []) }
{
    push(rt, bench, raw, Item::End)?;
    for _worker in 1..workers {
        push(rt, bench, raw, Item::End)?;
    }
    Ok(())
}

/// The passes of the workers, of which each has one part and one mark to take.
fn split(alloc: Global, bench: &Bench, raw: RawPass, workers: u32) -> Result<Vec<Pass>, NoMemory>
    requires queue { IsPassOf bench.now raw }
    requires first { view raw ≡ known workers workers workers false (view raw).jobs [] }
    requires few { length (view raw).jobs < MOST_ROUTERS }
    requires some { 0 < workers }
    requires most { workers ≤ MOST_WORKERS }
    ensures count { IfOk result (λ passes. length passes.items ≡ workers) }
    ensures new { IfOk result (λ passes.
        All (λ p. p ≡ new_pass raw.table_id (view raw).jobs workers) passes.items) }
{
    let mut raw = raw;
    let mut passes = Vec::with_capacity(alloc, workers as usize)?;
    for _worker in 0..workers - 1 {
        let other = bench.another::<Parting>(&mut raw);
        passes.push(Pass {
            raw: other,
            count: 0,
            ended: false,
        })?;
    }
    passes.push(Pass {
        raw,
        count: 0,
        ended: false,
    })?;
    Ok(passes)
}

/// Puts a pass and all others together, and adds up how many jobs they took.
fn gather(bench: &Bench, raw: RawPass, count: u32, passes: Vec<Pass>) -> (RawPass, u32)
    requires queue { IsPassOf bench.now raw }
    requires part { (view raw).parts ≡ 1 }
    requires others { All (λ p. p.queue ≡ raw.table_id) passes.items }
    requires count { count < MOST_ROUTERS }
    requires few { length passes.items < MOST_WORKERS }
    ensures queue { IsPassOf bench.now result.0 }
    ensures gathered { IsGathered (view raw) passes.items (view result.0) }
    ensures taken { result.1 ≡ count + sum_by (λ p. length p.taken) passes.items }
{
    let mut raw = raw;
    let mut taken = count;
    for pass in passes {
        let Pass {
            raw: other,
            count,
            ended: _,
        } = pass;
        bench.absorb::<Parting>(&mut raw, other);
        taken += count;
    }
    (raw, taken)
}

/// Takes the jobs that are left, and tells how many they were.
fn drain<R: Wait>(rt: &R, bench: &Bench, raw: RawPass) -> u32
    requires queue { IsPassOf bench.now raw }
    requires alone { IsAlone (view raw) }
    requires few { length (view raw).jobs < MOST_ROUTERS }
    ensures { IsDrained (view raw) result }
{
    let mut raw = raw;
    let mut left = 0;
    for _ in rt.forever() {
        match bench.pop_as::<PopRest, R>(rt, &mut raw) {
            Some(Item::Job(_)) => left += 1,
            Some(Item::End) => {}
            None => return left,
        }
    }
    unreachable!()
}

impl Jobs {
    /// A queue of these jobs, in their order, and a pass for each of 1 to 16 workers. A number that is listed twice
    /// is taken twice. No other call takes memory.
    ///
    /// # Errors
    /// [`NoMemory`] where its memory can't be had, some 32 bytes for each job and worker.
    pub fn make<R: Wait>(
        alloc: Global,
        rt: &R,
        jobs: Vec<u32>,
        workers: u32,
    ) -> Result<(Jobs, Vec<Pass>), NoMemory>
        requires few { length jobs.items < MOST_ROUTERS }
        requires some { 0 < workers }
        requires most { workers ≤ MOST_WORKERS }
        ensures count { IfOk result (λ made. length made.1.items ≡ workers) }
        ensures new { IfOk result (λ made. All (λ p. p ≡ new_pass made.0 jobs.items workers) made.1.items) }
    {
        let (bench, mut raw) = Bench::ruled(alloc, jobs.len() + workers as usize)?;
        push_jobs(rt, &bench, &mut raw, &jobs)?;
        push_marks(rt, &bench, &mut raw, workers)?;
        let passes = split(alloc, &bench, raw, workers)?;
        Ok((Jobs { bench }, passes))
    }

    /// Takes the job at the front of the queue. None comes only where no job was left at some moment of the call;
    /// from then on the pass knows that none is left, and it gets no job any more.
    pub fn take<R: Wait>(&self, rt: &R, pass: &mut Pass) -> Option<u32>
        requires queue { pass.old.queue ≡ self.now }
        ensures taken { IfSome result (λ x. pass.new ≡ with_job pass.old x) }
        ensures job { IfSome result (λ x. Contains pass.old.jobs x) }
        ensures unended { IfSome result (λ x. pass.old.ended ≡ false) }
        ensures none { IfNone result (pass.new ≡ at_end pass.old) }
    {
        if pass.ended {
            return None;
        }
        match self.bench.pop_as::<Pop, R>(rt, &mut pass.raw) {
            Some(Item::Job(job)) => {
                pass.count += 1;
                Some(job)
            }
            Some(Item::End) => {
                pass.ended = true;
                None
            }
            None => unreachable!(),
        }
    }

    /// Takes back all passes, and tells how many jobs are left and how many were taken. What the passes took and what
    /// is left are together the jobs. Nothing is left where a pass found the queue empty.
    pub fn close<R: Wait>(self, rt: &R, passes: Vec<Pass>) -> Closed
        requires queue { All (λ p. p.queue ≡ self) passes.items }
        requires all { All (λ p. p.passes ≡ length passes.items) passes.items }
        requires some { 0 < length passes.items }
        ensures together { (jobs : List ℕ) → All (λ p. p.jobs ≡ jobs) passes.items →
            AreTogether jobs passes.items result.left }
        ensures taken { result.taken ≡ sum_by (λ p. length p.taken) passes.items }
        ensures ended { list_any (λ p. p.ended) passes.items ≡ true → result.left ≡ 0 }
    {
        let Jobs { bench } = self;
        let mut passes = passes;
        let Some(last) = passes.pop() else {
            unreachable!()
        };
        let Pass {
            raw,
            count,
            ended: _,
        } = last;
        let (raw, taken) = gather(&bench, raw, count, passes);
        let left = drain(rt, &bench, raw);
        Closed { left, taken }
    }
}
