//! How many items leave a source whose first ones decide what is asked.
ghost use Rattle.std.specs.Prelude.{◌≡◌, IfOk};
ghost use Rattle.plinq_source.specs.Walked.{range_given};

use crate::ordered_queries::ordered;
use plinq_collect::{all, any, element_at, first};
use plinq_lambda::Formula;
use plinq_ops::Built;
use plinq_source::{RangeSource, SourceFault};
use plinq_testing::{Asked, CHUNK, most_ahead};
use std::alloc::Global;
use std::sync::Wait;
use std::sync::atomic::{AtomicU64, Ordering};
use std::thread::Threads;
use std::time::Clock;

/// How many items leave at most: those up to the chunk with the one that decides, and those that so many workers may be ahead of
/// it.
fn most(workers: u64) -> u64 {
    CHUNK.saturating_add(most_ahead(workers))
}

fn query_above(alloc: Global, workers: u64) -> Built<Formula> {
    ordered(alloc, workers)?.filter(Formula::Above(99))
}

/// The range of which the first hundred decide what is asked, of which none has left.
fn from_zero(left: &AtomicU64) -> Result<Asked<'_, RangeSource>, SourceFault>
    ensures { IfOk result (λ s. range_given s.source ≡ 0) }
{
    left.store(0, Ordering::SeqCst);
    match RangeSource::new(0, 10_000_000) {
        Ok(source) => Ok(Asked {
            source,
            times: left,
        }),
        Err(fault) => Err(fault),
    }
}

fn is_first_above<R: Clock + Threads + Wait + Sync>(
    rt: &R,
    alloc: Global,
    workers: u64,
    left: &AtomicU64,
) -> bool {
    let Ok(query) = query_above(alloc, workers) else {
        return false;
    };
    match from_zero(left) {
        Ok(source) => first(rt, alloc, query, source) == Ok(Some(100)),
        Err(_) => false,
    }
}

fn is_any_above<R: Clock + Threads + Wait + Sync>(
    rt: &R,
    alloc: Global,
    workers: u64,
    left: &AtomicU64,
) -> bool {
    let Ok(query) = ordered(alloc, workers) else {
        return false;
    };
    match from_zero(left) {
        Ok(source) => any(rt, alloc, query, source, Formula::Above(99)) == Ok(true),
        Err(_) => false,
    }
}

fn are_not_all_below<R: Clock + Threads + Wait + Sync>(
    rt: &R,
    alloc: Global,
    workers: u64,
    left: &AtomicU64,
) -> bool {
    let Ok(query) = ordered(alloc, workers) else {
        return false;
    };
    match from_zero(left) {
        Ok(source) => all(rt, alloc, query, source, Formula::Below(100)) == Ok(false),
        Err(_) => false,
    }
}

fn is_at_hundred<R: Clock + Threads + Wait + Sync>(
    rt: &R,
    alloc: Global,
    workers: u64,
    left: &AtomicU64,
) -> bool {
    let Ok(query) = ordered(alloc, workers) else {
        return false;
    };
    match from_zero(left) {
        Ok(source) => element_at(rt, alloc, query, source, 100) == Ok(Some(100)),
        Err(_) => false,
    }
}

fn are_few(left: &AtomicU64, workers: u64) -> bool {
    left.load(Ordering::SeqCst) <= most(workers)
}

/// Whether all is answered, and but few items have left for each answer.
fn ends_early<R: Clock + Threads + Wait + Sync>(
    rt: &R,
    alloc: Global,
    workers: u64,
    left: &AtomicU64,
) -> bool {
    is_first_above(rt, alloc, workers, left)
        && are_few(left, workers)
        && is_any_above(rt, alloc, workers, left)
        && are_few(left, workers)
        && are_not_all_below(rt, alloc, workers, left)
        && are_few(left, workers)
        && is_at_hundred(rt, alloc, workers, left)
        && are_few(left, workers)
}

#[test]
fn a_source_is_left_once_the_answer_is_known(rt: HostRuntime) {
    let left = AtomicU64::new(0);
    for workers in [1, 4] {
        let is_early = ends_early(&rt, rt.alloc(), workers, &left);
        let asked_for = left.load(Ordering::SeqCst);
        assert!(&rt; is_early, "{workers} {asked_for}");
    }
}
