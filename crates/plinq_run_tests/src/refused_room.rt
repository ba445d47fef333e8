//! Runs and aggregates that are refused an allocation, and the same once more. Each test is run with each allocation failing
//! in turn.
use plinq_aggregate::Sum;
use plinq_enumerator::Growth;
use plinq_lambda::Formula;
use plinq_ops::{BuildFault, MergeOption, Query};
use plinq_run::{AggregateFault, OpenGate, RunFault, aggregate, run};
use plinq_source::{Ending, RangeSource};
use plinq_testing::{Counted, built, unchanged};
use std::alloc::Global;
use std::sync::Wait;
use std::thread::Threads;

/// How a query is asked.
#[derive(Clone, Copy)]
struct Asked {
    workers: u64,
    option: MergeOption,
    is_by_key: bool,
}

impl Asked {
    /// How many items a batch has at most.
    fn most(&self) -> usize {
        match self.option {
            MergeOption::NotBuffered => 1,
            MergeOption::Default | MergeOption::AutoBuffered => 16,
            MergeOption::FullyBuffered => 17,
        }
    }

    /// Whether a sink may have taken such batches, by key of the first numbers from 1 on.
    fn allows(&self, sink: &Counted) -> bool {
        let is_in_order = sink.is_in_order || !self.is_by_key;
        is_in_order && 1 <= sink.fewest && sink.most <= self.most() && sink.count <= 17
    }
}

/// The numbers from 1 to 17 as they are.
fn numbers(alloc: Global, asked: Asked) -> Result<Query<Formula>, BuildFault> {
    let query = unchanged(alloc, asked.is_by_key, asked.option, asked.workers)?;
    built(query.select(Formula::Add(0)))
}

/// Runs the query. Returns whether it was refused, for lack of memory or of a thread alone, with a beginning delivered; nothing
/// if it answered otherwise.
fn is_refused<R: Threads + Wait + Sync>(
    rt: &R,
    alloc: Global,
    query: &Query<Formula>,
    asked: Asked,
) -> Option<bool> {
    let source = RangeSource::new(1, 17).ok()?;
    let mut sink = Counted::numbers_from(1);
    let told = run(rt, alloc, query, source, Growth::ONE, &OpenGate, &mut sink);
    if !asked.allows(&sink) {
        return None;
    }
    match told {
        Ok(report) => {
            let is_whole = report.ending == Ending::End && sink.count == 17 && sink.sum == 153;
            if is_whole { Some(false) } else { None }
        }
        Err(RunFault::Memory | RunFault::Thread) => Some(true),
        Err(_) => None,
    }
}

/// Sums the query's items. Returns whether that was refused, for lack of memory or of a thread alone.
fn is_sum_refused<R: Threads + Wait + Sync>(
    rt: &R,
    alloc: Global,
    query: &Query<Formula>,
) -> Option<bool> {
    let source = RangeSource::new(1, 17).ok()?;
    match aggregate(rt, alloc, query, source, Growth::ONE, &OpenGate, &Sum) {
        Ok(153) => Some(false),
        Err(AggregateFault::Run(RunFault::Memory | RunFault::Thread)) => Some(true),
        _ => None,
    }
}

/// Asks twice. Returns whether all was as it should be: of the two at most one is refused.
fn is_answered<R: Threads + Wait + Sync>(rt: &R, alloc: Global, asked: Asked) -> Option<bool> {
    let Ok(query) = numbers(alloc, asked) else {
        return Some(true);
    };
    let first = is_refused(rt, alloc, &query, asked)?;
    let second = is_refused(rt, alloc, &query, asked)?;
    let first_sum = is_sum_refused(rt, alloc, &query)?;
    let second_sum = is_sum_refused(rt, alloc, &query)?;
    Some(!(first && second) && !(first_sum && second_sum))
}

fn are_answered<R: Threads + Wait + Sync>(rt: &R, alloc: Global, workers: u64) -> bool {
    for option in [
        MergeOption::NotBuffered,
        MergeOption::AutoBuffered,
        MergeOption::FullyBuffered,
    ] {
        for is_by_key in [true, false] {
            let asked = Asked {
                workers,
                option,
                is_by_key,
            };
            if is_answered(rt, alloc, asked) != Some(true) {
                return false;
            }
        }
    }
    true
}

#[test]
fn one_worker_may_be_refused_room(rt: HostRuntime) {
    assert!(rt; are_answered(&rt, rt.alloc(), 1));
}

#[test]
fn two_workers_may_be_refused_room(rt: HostRuntime) {
    assert!(rt; are_answered(&rt, rt.alloc(), 2));
}

#[test]
fn eight_workers_may_be_refused_room(rt: HostRuntime) {
    assert!(rt; are_answered(&rt, rt.alloc(), 8));
}
