//! In which chunks a query's source is asked, and that workers are as many as the query was asked for.
ghost use Rattle.std.specs.Prelude.{◌≡◌, true, IfSome};
ghost use Rattle.plinq_source.specs.Walked.{range_given};

use plinq_query::from;
use plinq_source::RangeSource;
use plinq_testing::{InChunks, Still, waits_for};
use std::alloc::Global;
use std::sync::Wait;
use std::sync::atomic::{AtomicU64, Ordering};
use std::thread::Threads;
use std::time::Clock;

/// How many numbers there are, and in how many chunks one worker takes them at most, none of which takes any time.
const NUMBERS: u64 = 10_000;

const CHUNKS: u64 = 50;

/// The numbers from 0 on, of which none has left.
fn numbers(chunks: &AtomicU64) -> Option<InChunks<'_, RangeSource>>
    ensures { IfSome result (λ s. range_given s.source ≡ 0) }
{
    chunks.store(0, Ordering::SeqCst);
    match RangeSource::new(0, NUMBERS) {
        Ok(source) => Some(InChunks { source, chunks }),
        Err(_) => None,
    }
}

/// How many chunks a query over all numbers asks for, by one worker, of at most so many items, or by time.
fn chunks_of<R: Clock + Threads + Wait + Sync>(
    rt: &R,
    alloc: Global,
    most: Option<u64>,
) -> Option<u64> {
    let chunks = AtomicU64::new(0);
    let query = from(numbers(&chunks)?)
        .select(
            |x: i64| -> (i64, bool)
                ensures { result ≡ (x, true) }
            { (x, true) },
        )
        .as_parallel()
        .with_degree(1);
    let made = match most {
        Some(most) => query.with_growth(1, 1, most).count(rt, alloc),
        None => query.count(rt, alloc),
    };
    if made != Ok(NUMBERS) {
        return None;
    }
    Some(chunks.load(Ordering::SeqCst))
}

#[test]
fn a_query_asks_in_chunks_as_its_growth_says(rt: HostRuntime) {
    let still = Still { rt: &rt };
    let by_time = chunks_of(&still, rt.alloc(), None);
    assert!(rt; by_time.is_some_and(|it| it <= CHUNKS));
    let by_one = chunks_of(&still, rt.alloc(), Some(1));
    assert!(rt; by_one.is_some_and(|it| it >= NUMBERS));
}

/// How many of two calls of a query's closure have met the other one.
fn meet<R: Clock + Threads + Wait + Sync>(rt: &R, alloc: Global, workers: u64) -> Option<u64> {
    let inside = AtomicU64::new(0);
    let met = AtomicU64::new(0);
    let Ok(source) = RangeSource::new(0, 2) else {
        return None;
    };
    let made = from(source)
        .as_parallel()
        .with_degree(workers)
        .select(
            |x: i64| -> (i64, i64)
                ensures { result ≡ (x, x) }
            {
                inside.fetch_add(1, Ordering::SeqCst);
                if waits_for(&inside, 2) {
                    met.fetch_add(1, Ordering::SeqCst);
                }
                (x, x)
            },
        )
        .count(rt, alloc);
    match made {
        Ok(2) => Some(met.load(Ordering::SeqCst)),
        _ => None,
    }
}

#[test]
fn a_query_has_the_workers_that_it_is_asked_for(rt: HostRuntime) {
    assert!(rt; meet(&rt, rt.alloc(), 2) == Some(2));
}
