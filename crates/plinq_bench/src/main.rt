//! `plinq_bench`: runs a workload over the library, and says how long it took beside a plain loop.
//!
//!     plinq_bench heavy 4 1000000 5  # a workload, workers, items and rounds, of which the last two may be left out
//!     plinq_bench check              # each workload with few items: the sums alone
//!     plinq_bench stop heavy 4       # how long a workload goes on when another thread sets a flag to stop it
//!
//! Of several rounds the first isn't counted, since its process is cold, and the best of the others is reported. A line has
//! the workload, what ran it, threads, seconds, items a second, the ratio to the plain loop and the sum of what came. That
//! sum depends on the order of what came; of `sum` it is the aggregate.
#![tactic(auto)]

mod bench_fault;
mod item_work;
mod job;
mod measuring;
mod seconds;
mod spinning;
mod stopping;
mod summed;
mod task;
mod total;
mod work;
mod workload;

use crate::bench_fault::BenchFault;
use crate::job::Job;
use crate::measuring::{Round, Seen, best_of, one_round};
use crate::seconds::{Seconds, micros};
use crate::stopping::stop_it;
use crate::task::{Task, task_of};
use crate::workload::Workload;
use std::alloc::Global;
use std::io::Print;
use std::process::ExitCode;
use std::sync::Wait;
use std::thread::Threads;
use std::time::{Clock, Duration};
use std::{env, io};

fn main(rt: HostRuntime) -> ExitCode {
    let ended = match words(&rt) {
        Ok(words) => bench(&rt, rt.alloc(), &words),
        Err(error) => Err(BenchFault::Io(error)),
    };
    match ended {
        Ok(()) => ExitCode::SUCCESS,
        Err(fault) => {
            let _ = eprintln!(rt; "plinq_bench: {fault}");
            ExitCode::FAILURE
        }
    }
}

fn words(rt: &HostRuntime) -> io::Result<Vec<String>> {
    Ok(env::args(rt)?.collect(rt.alloc())?)
}

fn bench<R: Threads + Wait + Sync + Clock + Print>(
    rt: &R,
    alloc: Global,
    words: &[String],
) -> Result<(), BenchFault> {
    match task_of(words) {
        Some(Task::Check) => check(rt, alloc),
        Some(Task::Stop(job)) => stop(rt, alloc, job),
        Some(Task::Measure(job, rounds)) => measure(rt, alloc, job, rounds),
        None => Err(BenchFault::Words),
    }
}

fn check<R: Threads + Wait + Sync + Clock + Print>(
    rt: &R,
    alloc: Global,
) -> Result<(), BenchFault> {
    for workload in Workload::ALL {
        let job = Job {
            workload,
            workers: 2,
            items: 3_000,
        };
        let Round { seen, .. } = one_round(rt, alloc, job)?;
        let name = workload.name();
        println!(rt; "{name} sum={:x}", seen.sum)?;
    }
    Ok(())
}

fn measure<R: Threads + Wait + Sync + Clock + Print>(
    rt: &R,
    alloc: Global,
    job: Job,
    rounds: i64,
) -> Result<(), BenchFault> {
    let Round { looped, seen } = best_of(rt, alloc, job, rounds)?;
    print(rt, job, "loop", 1, looped, looped.time)?;
    print(rt, job, "run", job.workers, seen, looped.time)
}

fn stop<R: Threads + Wait + Sync + Clock + Print>(
    rt: &R,
    alloc: Global,
    job: Job,
) -> Result<(), BenchFault> {
    let (name, workers) = (job.workload.name(), job.workers);
    match stop_it(rt, alloc, job)? {
        Some(time) => println!(rt; "{name} plinq:stop {workers} {}", Seconds(time))?,
        None => println!(rt; "{name} plinq:stop {workers} ended before the flag was set")?,
    }
    Ok(())
}

fn print<R: Print>(
    rt: &R,
    job: Job,
    what: &str,
    threads: u64,
    seen: Seen,
    plain: Duration,
) -> Result<(), BenchFault> {
    let name = job.workload.name();
    let took = micros(seen.time).max(1);
    let rate = job.items.unsigned_abs().saturating_mul(1_000_000) / took;
    let ratio = micros(plain).saturating_mul(100) / took;
    print!(rt;
        "{name} plinq:{what} {threads} {} {rate} x{}.{:02} sum={:x}",
        Seconds(seen.time),
        ratio / 100,
        ratio % 100,
        seen.sum
    )?;
    if let (true, Some(first)) = (job.workload.shows_first(), seen.first) {
        print!(rt; " first={}", Seconds(first))?;
    }
    if let (true, Some(pulled)) = (job.workload.shows_pulled(), seen.pulled) {
        print!(rt; " pulled={pulled}")?;
    }
    println!(rt)?;
    Ok(())
}
