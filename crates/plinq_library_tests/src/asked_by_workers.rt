//! In which chunks a query's source is asked, and that workers are as many as a chain was asked for.
ghost use Rattle.std.specs.Prelude.{◌≡◌, Ok, IfSome};
ghost use Rattle.plinq_source.specs.Walked.{range_given};

use crate::ordered_queries::ordered;
use plinq_closures::Chain;
use plinq_collect::{Collect, count, first, run_into};
use plinq_lambda::Formula;
use plinq_source::{Ending, RangeSource};
use plinq_testing::{InChunks, Still, waits_for};
use std::alloc::Global;
use std::sync::Wait;
use std::sync::atomic::{AtomicU64, Ordering};
use std::thread::Threads;
use std::time::Clock;

/// How many numbers there are, and in how many chunks one worker takes them at most, none of which takes any time.
const NUMBERS: u64 = 10_000;

const CHUNKS: u64 = 50;

/// The numbers from 0 on, of which none has left.
fn numbers(chunks: &AtomicU64) -> Option<InChunks<'_, RangeSource>>
    ensures { IfSome result (λ s. range_given s.source ≡ 0) }
{
    chunks.store(0, Ordering::SeqCst);
    match RangeSource::new(0, NUMBERS) {
        Ok(source) => Some(InChunks { source, chunks }),
        Err(_) => None,
    }
}

fn are_few(chunks: &AtomicU64) -> bool {
    let asked = chunks.load(Ordering::SeqCst);
    1 <= asked && asked <= CHUNKS
}

/// Whether a count, a list and a first item ask for few chunks of all numbers.
fn asks_in_chunks<R: Clock + Threads + Wait + Sync>(rt: &R, alloc: Global) -> bool {
    let chunks = AtomicU64::new(0);
    is_count(rt, alloc, &chunks)
        && are_few(&chunks)
        && are_in_a_list(rt, alloc, &chunks)
        && are_few(&chunks)
        && is_last(rt, alloc, &chunks)
        && are_few(&chunks)
}

fn is_count<R: Clock + Threads + Wait + Sync>(rt: &R, alloc: Global, chunks: &AtomicU64) -> bool {
    match (ordered(alloc, 1), numbers(chunks)) {
        (Ok(query), Some(source)) => count(rt, alloc, &query, source) == Ok(NUMBERS),
        _ => false,
    }
}

fn are_in_a_list<R: Clock + Threads + Wait + Sync>(
    rt: &R,
    alloc: Global,
    chunks: &AtomicU64,
) -> bool {
    let (Ok(query), Some(source)) = (ordered(alloc, 1), numbers(chunks)) else {
        return false;
    };
    let mut sink = Collect(Vec::new(alloc));
    match run_into(rt, alloc, &query, source, &mut sink) {
        Ok(report) => report.ending == Ending::End && sink.0.len() as u64 == NUMBERS,
        Err(_) => false,
    }
}

fn is_last<R: Clock + Threads + Wait + Sync>(rt: &R, alloc: Global, chunks: &AtomicU64) -> bool {
    let (Ok(query), Some(source)) = (ordered(alloc, 1), numbers(chunks)) else {
        return false;
    };
    match query.filter(Formula::Above(9_998)) {
        Ok(query) => first(rt, alloc, query, source) == Ok(Some(9_999)),
        Err(_) => false,
    }
}

#[test]
fn a_source_is_asked_in_chunks_that_grow(rt: HostRuntime) {
    let alloc = rt.alloc();
    let still = Still { rt: &rt };
    assert!(rt; asks_in_chunks(&still, alloc));
}

/// How many of two calls of a chain's closure have met the other one: each waits for it.
fn meet<R: Clock + Threads + Wait + Sync>(rt: &R, alloc: Global, workers: u64) -> Option<u64> {
    let inside = AtomicU64::new(0);
    let met = AtomicU64::new(0);
    let chain = Chain::new().select(
        |x: i64| -> Result<i64, u32>
            ensures { result ≡ Ok x }
        {
            inside.fetch_add(1, Ordering::SeqCst);
            if waits_for(&inside, 2) {
                met.fetch_add(1, Ordering::SeqCst);
            }
            Ok(x)
        },
    );
    let Ok(source) = RangeSource::new(0, 2) else {
        return None;
    };
    match chain.count(rt, alloc, workers, source) {
        Ok(2) => Some(met.load(Ordering::SeqCst)),
        _ => None,
    }
}

#[test]
fn a_chain_has_the_workers_that_it_is_asked_for(rt: HostRuntime) {
    assert!(rt; meet(&rt, rt.alloc(), 2) == Some(2));
}
