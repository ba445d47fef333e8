//! That workers take nothing more once a result was made that decides the answer, however long its merging takes.
use crate::asking::{Numbers, ending_of};
use crate::items_ahead::WaitsForTaking;
use plinq_enumerator::Growth;
use plinq_lambda::Formula;
use plinq_ops::{BuildFault, MergeOption, Query};
use plinq_run::OpenGate;
use plinq_source::Ending;
use plinq_testing::{CHUNK, Counted, Counts, Passed, built, unchanged};
use std::alloc::Global;
use std::sync::Wait;
use std::test::*;
use std::thread::Threads;

/// A query that takes as many numbers as a chunk has, by key or by arrival: one result decides it.
fn taking_a_chunk(alloc: Global, workers: u64, by_key: bool) -> Result<Query<Formula>, BuildFault> {
    let query = unchanged(alloc, by_key, MergeOption::AutoBuffered, workers)?;
    built(query.take(CHUNK as i64))
}

/// Whether each worker takes two chunks at most of the longest range while the first batch is held.
fn are_few<R: Threads + Wait + Sync>(
    rt: &R,
    alloc: Global,
    workers: u64,
    by_key: bool,
    growth: Growth,
) -> bool {
    let passed = Passed::new();
    let gate = Counts {
        passed: &passed,
        gate: OpenGate,
    };
    let mut sink = WaitsForTaking {
        taken: &passed.taken,
        workers: 1,
        taken_by_then: 0,
        sink: Counted::copies(1),
    };
    let numbers = Numbers {
        first: 0,
        count: 1_099_511_627_776,
        growth,
    };
    let query = taking_a_chunk(alloc, workers, by_key);
    let told = ending_of(rt, alloc, query, numbers, &gate, &mut sink);
    let taken = sink.taken_by_then;
    told == Ok(Ending::End)
        && sink.sink.count == CHUNK as i64
        && 1 <= taken
        && taken <= workers.saturating_mul(2)
}

#[test]
fn workers_wait_once_a_result_decides_the_answer(rt: HostRuntime) -> Result<(), Fail> {
    let growth = Growth::new(CHUNK, 1, CHUNK)?;
    for workers in [1u64, 2, 8, 64] {
        for by_key in [true, false] {
            assert!(rt;
                are_few(&rt, rt.alloc(), workers, by_key, growth),
                "{workers} {by_key}"
            );
        }
    }
    Ok(())
}
