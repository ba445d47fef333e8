ghost use Rattle.std.specs.Prelude.{◌≡◌};

use crate::bench_fault::BenchFault;
use crate::job::Job;
use crate::summed::Summed;
use crate::total::Total;
use crate::work::Work;
use crate::workload::Workload;
use plinq_enumerator::Growth;
use plinq_keyed::Record;
use plinq_ops::Query;
use plinq_run::{TimedGate, aggregate, run};
use plinq_source::{RangeSource, Source};
use std::alloc::Global;
use std::sync::Wait;
use std::thread::Threads;
use std::time::{Clock, Duration, Instant};

/// What was seen of a run, or of a plain loop.
#[derive(Clone, Copy)]
pub(crate) struct Seen {
    pub(crate) time: Duration,
    pub(crate) sum: u64,
    pub(crate) first: Option<Duration>,
    pub(crate) pulled: Option<u64>,
}

impl Seen {
    /// The shorter of the times of two runs that came to the same sum, and the more that was pulled.
    fn or_better(self, other: Seen) -> Seen {
        Seen {
            time: self.time.min(other.time),
            sum: self.sum,
            first: match (self.first, other.first) {
                (Some(one), Some(two)) => Some(one.min(two)),
                _ => None,
            },
            pulled: match (self.pulled, other.pulled) {
                (Some(one), Some(two)) => Some(one.max(two)),
                _ => None,
            },
        }
    }
}

/// What was seen of a plain loop and of a run after it, which came to the same sum.
#[derive(Clone, Copy)]
pub(crate) struct Round {
    pub(crate) looped: Seen,
    pub(crate) seen: Seen,
}

/// The best of several rounds, of which the first isn't counted, or the one that there is.
pub(crate) fn best_of<R: Threads + Wait + Sync + Clock>(
    rt: &R,
    alloc: Global,
    job: Job,
    rounds: i64,
) -> Result<Round, BenchFault> {
    let mut best = one_round(rt, alloc, job)?;
    for already in 1..rounds {
        let next = one_round(rt, alloc, job)?;
        best = if already == 1 {
            next
        } else {
            Round {
                looped: best.looped.or_better(next.looped),
                seen: best.seen.or_better(next.seen),
            }
        };
    }
    Ok(best)
}

/// A plain loop, and a run after it.
pub(crate) fn one_round<R: Threads + Wait + Sync + Clock>(
    rt: &R,
    alloc: Global,
    job: Job,
) -> Result<Round, BenchFault> {
    let looped = loop_it(rt, job)?;
    let seen = run_it(rt, alloc, job)?;
    if seen.sum != looped.sum {
        return Err(BenchFault::Sums);
    }
    Ok(Round { looped, seen })
}

fn loop_it<C: Clock>(clock: &C, job: Job) -> Result<Seen, BenchFault> {
    let start = Instant::now(clock)?;
    let sum = job.workload.looped(job.items);
    Ok(Seen {
        time: start.elapsed(clock)?,
        sum,
        first: None,
        pulled: None,
    })
}

/// Runs it by threads.
fn run_it<R: Threads + Wait + Sync + Clock>(
    rt: &R,
    alloc: Global,
    job: Job,
) -> Result<Seen, BenchFault> {
    let source = job.source()?;
    let growth = job.workload.growth()?;
    let gate = job.workload.gate(rt);
    let query = job.workload.query(alloc, job.workers, job.items)?;
    if job.workload == Workload::Sum {
        aggregated(rt, alloc, &query, source, growth, &gate)
    } else {
        delivered(rt, alloc, &query, source, growth, &gate)
    }
}

fn aggregated<R: Threads + Wait + Sync + Clock>(
    rt: &R,
    alloc: Global,
    query: &Query<Work>,
    source: RangeSource,
    growth: Growth,
    gate: &TimedGate<'_, R>,
) -> Result<Seen, BenchFault>
    requires { ⟦<RangeSource as Source>⟧.given source ≡ 0 }
{
    let start = Instant::now(rt)?;
    let sum = aggregate(rt, alloc, query, source, growth, gate, &Total)?;
    Ok(Seen {
        time: start.elapsed(rt)?,
        sum,
        first: None,
        pulled: None,
    })
}

fn delivered<R: Threads + Wait + Sync + Clock>(
    rt: &R,
    alloc: Global,
    query: &Query<Work>,
    source: RangeSource,
    growth: Growth,
    gate: &TimedGate<'_, R>,
) -> Result<Seen, BenchFault>
    requires { ⟦<RangeSource as Source>⟧.given source ≡ 0 }
{
    let start = Instant::now(rt)?;
    let mut sink = Summed::new(rt, start);
    let report = run(rt, alloc, query, source, growth, gate, &mut sink)?;
    Ok(Seen {
        time: start.elapsed(rt)?,
        sum: sink.sum,
        first: sink.first,
        pulled: Some(pulled(&report.records)),
    })
}

/// How many elements left the source.
fn pulled(records: &[Record]) -> u64 {
    match records.last() {
        Some(record) => record.first.saturating_add(record.count),
        None => 0,
    }
}
