//! What a closure is called with, by threads and on one.
use crate::ordered_queries::ordered;
use plinq_collect::{for_each, sequentially};
use plinq_run::RunFault;
use plinq_source::{Ending, RangeSource};
use std::alloc::Global;
use std::sync::Wait;
use std::thread::Threads;
use std::time::Clock;

const WORKERS: [u64; 4] = [1, 2, 8, 64];

/// Counts the numbers from 0 on. One that isn't the next is answered by the code 1, and the number 20, in the second batch, by 7.
fn note(next: &mut i64, item: i64) -> Result<(), u32> {
    if item != *next {
        return Err(1);
    }
    *next = next.wrapping_add(1);
    if item == 20 { Err(7) } else { Ok(()) }
}

/// How many of the numbers below this one a closure is called with, and what is told of its calls.
fn noted<R: Clock + Threads + Wait + Sync>(
    rt: &R,
    alloc: Global,
    workers: u64,
    end: u64,
) -> Option<(i64, Result<Ending, RunFault>)> {
    let Ok(query) = ordered(alloc, workers) else {
        return None;
    };
    let Ok(source) = RangeSource::new(0, end) else {
        return None;
    };
    let mut next = 0i64;
    let told = for_each(
        rt,
        alloc,
        &query,
        source,
        &mut |item: i64| note(&mut next, item),
    );
    Some((next, told))
}

/// The same on one thread.
fn noted_by_one<R: Clock + Threads + Wait + Sync>(
    rt: &R,
    alloc: Global,
    workers: u64,
    end: u64,
) -> Option<(i64, Result<Ending, RunFault>)> {
    let Ok(query) = ordered(alloc, workers) else {
        return None;
    };
    let Ok(source) = RangeSource::new(0, end) else {
        return None;
    };
    let mut next = 0i64;
    let told = sequentially::for_each(
        rt,
        alloc,
        &query,
        source,
        &mut |item: i64| note(&mut next, item),
    );
    Some((next, told))
}

/// Whether it is called with so many, and this is told, both by threads and on one.
fn is_called<R: Clock + Threads + Wait + Sync>(
    rt: &R,
    alloc: Global,
    workers: u64,
    end: u64,
    wanted: (i64, Result<Ending, RunFault>),
) -> bool {
    noted(rt, alloc, workers, end) == Some(wanted)
        && noted_by_one(rt, alloc, workers, end) == Some(wanted)
}

#[test]
fn a_closure_is_called_with_each_item(rt: HostRuntime) {
    for workers in WORKERS {
        assert!(&rt; is_called(&rt, rt.alloc(), workers, 20, (20, Ok(Ending::End))));
    }
}

#[test]
fn a_code_in_the_second_batch_is_the_last_call(rt: HostRuntime) {
    for workers in WORKERS {
        assert!(&rt; is_called(&rt, rt.alloc(), workers, 100, (21, Err(RunFault::Sink(7)))));
    }
}
