//! What a decided query asks of its source.
ghost use Rattle.std.specs.Prelude.{◌≡◌, IfSome};
ghost use Rattle.plinq_source.specs.Walked.{range_given};

use plinq_aggregate::Count;
use plinq_enumerator::Growth;
use plinq_lambda::Formula;
use plinq_ops::{MergeOption, Op, Query};
use plinq_run::{OpenGate, aggregate, run};
use plinq_source::{Ending, RangeSource};
use plinq_testing::{Asked, Taken, query_of};
use std::alloc::Global;
use std::sync::Wait;
use std::sync::atomic::{AtomicU64, Ordering};
use std::test::*;
use std::thread::Threads;

/// The numbers 0, 1 and 2.
fn from_zero(times: &AtomicU64) -> Option<Asked<'_, RangeSource>>
    ensures { IfSome result (λ s. range_given s.source ≡ 0) }
{
    let source = RangeSource::new(0, 3).ok()?;
    Some(Asked { source, times })
}

/// Whether a run asks its source, if it gives its query so many elements.
fn run_asks<R: Threads + Wait + Sync>(
    rt: &R,
    alloc: Global,
    query: &Query<Formula>,
    count: usize,
) -> Option<bool> {
    let times = AtomicU64::new(0);
    let source = from_zero(&times)?;
    let mut sink = Taken::new(alloc, usize::MAX);
    match run(rt, alloc, query, source, Growth::ONE, &OpenGate, &mut sink) {
        Ok(report) if report.ending == Ending::End && sink.batches.len() == count => {
            Some(times.load(Ordering::SeqCst) > 0)
        }
        _ => None,
    }
}

/// Whether its aggregate does.
fn aggregate_asks<R: Threads + Wait + Sync>(
    rt: &R,
    alloc: Global,
    query: &Query<Formula>,
    count: u64,
) -> Option<bool> {
    let times = AtomicU64::new(0);
    let source = from_zero(&times)?;
    if aggregate(rt, alloc, query, source, Growth::ONE, &OpenGate, &Count) != Ok(count) {
        return None;
    }
    Some(times.load(Ordering::SeqCst) > 0)
}

/// Whether both ask, if so many are taken.
fn ask<R: Threads + Wait + Sync>(rt: &R, alloc: Global, count: u8) -> Option<(bool, bool)> {
    let take = [Op::Take(i64::from(count))];
    let query = query_of(alloc, &take, MergeOption::NotBuffered, 2).ok()?;
    let run = run_asks(rt, alloc, &query, usize::from(count))?;
    Some((run, aggregate_asks(rt, alloc, &query, u64::from(count))?))
}

#[test]
fn a_decided_query_never_asks_its_source(rt: HostRuntime) {
    assert!(rt; ask(&rt, rt.alloc(), 0) == Some((false, false)));
    assert!(rt; ask(&rt, rt.alloc(), 1) == Some((true, true)));
}
