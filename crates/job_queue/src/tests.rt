//! A full queue, which all workers empty at once, or none.
ghost use Rattle.std.specs.Prelude.{◌≡◌, ◌<◌, ◌≤◌, true, length, All, IfOk};
ghost use Rattle.cut_model.specs.declared.network.TheConstants.{MOST_ROUTERS};

use crate::{Closed, Jobs, MOST_WORKERS, Pass};
use cut_model::{MOST_ROUTERS, NoMemory};
use std::alloc::Global;
use std::sync::Wait;
use std::test::Fail;
use std::thread::{self, Threads};

/// As many jobs as a queue may have, 1 to 1,023.
fn most_jobs(alloc: Global) -> Result<Vec<u32>, NoMemory>
    ensures { IfOk result (λ jobs. length jobs.items < MOST_ROUTERS) }
{
    let mut jobs = Vec::new(alloc);
    for job in 1..MOST_ROUTERS {
        jobs.push(job)?;
    }
    Ok(jobs)
}

/// Takes jobs until there is none.
fn take_all<R: Wait>(rt: &R, jobs: &Jobs, pass: &mut Pass)
    requires { pass.old.queue ≡ jobs.now }
    ensures queue { pass.new.queue ≡ pass.old.queue }
    ensures passes { pass.new.passes ≡ pass.old.passes }
    ensures ended { pass.new.ended ≡ true }
{
    for _ in rt.forever() {
        if jobs.take(rt, pass).is_none() {
            return;
        }
    }
    unreachable!()
}

/// The workers of all passes take jobs at the same time.
fn all_take<R: Threads + Wait + Sync>(rt: &R, jobs: &Jobs, passes: &mut [Pass], workers: u32)
    requires some { 0 < workers }
    requires queue { All (λ p. p.queue ≡ jobs.now) passes.old }
    requires count { All (λ p. p.passes ≡ workers) passes.old }
    ensures length { length passes.new ≡ length passes.old }
    ensures queue { All (λ p. p.queue ≡ jobs.now) passes.new }
    ensures count { All (λ p. p.passes ≡ workers) passes.new }
{
    thread::for_each_mut(
        rt,
        passes,
        workers as usize,
        &|_, pass: &mut Pass| take_all(rt, jobs, pass),
    );
}

#[test]
fn all_jobs_are_taken(rt: HostRuntime) -> Result<(), Fail> {
    let (jobs, mut passes) = Jobs::make(rt.alloc(), &rt, most_jobs(rt.alloc())?, MOST_WORKERS)?;
    all_take(&rt, &jobs, passes.as_mut_slice(), MOST_WORKERS);
    assert_eq!(rt;
        jobs.close(&rt, passes),
        Closed {
            left: 0,
            taken: 1023
        }
    );
    Ok(())
}

#[test]
fn all_jobs_are_left(rt: HostRuntime) -> Result<(), Fail> {
    let (jobs, passes) = Jobs::make(rt.alloc(), &rt, most_jobs(rt.alloc())?, MOST_WORKERS)?;
    assert_eq!(rt;
        jobs.close(&rt, passes),
        Closed {
            left: 1023,
            taken: 0
        }
    );
    Ok(())
}
