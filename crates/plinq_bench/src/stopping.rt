use crate::bench_fault::BenchFault;
use crate::job::Job;
use crate::summed::Summed;
use plinq_merge::CancelFlag;
use plinq_run::{RunFault, run_with};
use std::alloc::Global;
use std::io;
use std::sync::Wait;
use std::thread::{Threads, join, sleep};
use std::time::{Clock, Duration, Instant};

/// How long a run goes on before its flag is set, in milliseconds.
const BEFORE: u64 = 200;

/// Has another thread set the flag of a workload's run, and returns how long the run went on then. It is `None` if the
/// run had ended before.
pub(crate) fn stop_it<R: Threads + Wait + Sync + Clock>(
    rt: &R,
    alloc: Global,
    job: Job,
) -> Result<Option<Duration>, BenchFault> {
    let flag = CancelFlag::new();
    let (set, stopped) = join(
        rt,
        || set_later(rt, &flag),
        || run_until(rt, alloc, job, &flag),
    );
    let (set, stopped) = (set?, stopped?);
    Ok(stopped.map(|stopped| stopped.saturating_duration_since(set)))
}

/// Sets the flag after a while, and answers when.
fn set_later<C: Clock>(clock: &C, flag: &CancelFlag) -> io::Result<Instant> {
    sleep(clock, Duration::from_millis(BEFORE));
    let set = Instant::now(clock);
    flag.cancel();
    set
}

/// Runs a workload, and answers when its flag has stopped it.
fn run_until<R: Threads + Wait + Sync + Clock>(
    rt: &R,
    alloc: Global,
    job: Job,
    flag: &CancelFlag,
) -> Result<Option<Instant>, BenchFault> {
    let source = job.source()?;
    let growth = job.workload.growth()?;
    let gate = job.workload.gate(rt);
    let mut sink = Summed::new(rt, Instant::now(rt)?);
    let query = job.workload.query(alloc, job.workers, job.items)?;
    let mut token = flag.token();
    let outcome = run_with(
        rt, alloc, &query, source, growth, &gate, &mut token, &mut sink,
    );
    match outcome {
        Err(RunFault::Cancelled) => Ok(Some(Instant::now(rt)?)),
        Err(fault) => Err(BenchFault::Run(fault)),
        Ok(_) => Ok(None),
    }
}
