//! More results than the queue has room for.
use crate::asking::{Numbers, ending_of};
use plinq_enumerator::Growth;
use plinq_lambda::Formula;
use plinq_ops::MergeOption;
use plinq_source::Ending;
use plinq_testing::{Counted, Counts, Held, KeepsBack, Passed, Seen, Watched, ordered};
use std::alloc::Global;
use std::sync::Wait;
use std::test::*;
use std::thread::Threads;

/// Whether all numbers come, in order, to a sink that is held with its first batch. All keys but the first wait for that batch. It
/// is let go once the queue is full and each worker has taken one chunk more.
fn all_come<R: Threads + Wait + Sync>(rt: &R, alloc: Global, workers: u64, growth: Growth) -> bool {
    let (passed, seen) = (Passed::new(), Seen::new());
    let gate = Counts {
        passed: &passed,
        gate: KeepsBack::all_but_first(&seen.came, 1),
    };
    let numbers = Counted::numbers_from(0);
    let mut sink = Watched {
        sink: Held::at(0, &passed.taken, workers.wrapping_add(257), numbers),
        seen: &seen,
    };
    let query = ordered::<Formula>(alloc, MergeOption::NotBuffered, workers);
    let numbers = Numbers {
        growth,
        ..Numbers::below(2_000)
    };
    let told = ending_of(rt, alloc, query, numbers, &gate, &mut sink);
    let held = &sink.sink;
    told == Ok(Ending::End)
        && !held.gave_up
        && !gate.gate.gave_up()
        && held.sink.is_in_order
        && held.sink.count == 2_000
}

#[test]
fn workers_wait_while_the_queue_is_full(rt: HostRuntime) -> Result<(), Fail> {
    // (the first 64 chunks of a worker have one element; that later ones may have more lets each worker have more chunks waiting)
    let growth = Growth::new(1, 64, 4)?;
    for workers in [1u64, 2, 8, 64] {
        assert!(rt; all_come(&rt, rt.alloc(), workers, growth), "{workers}");
    }
    Ok(())
}
