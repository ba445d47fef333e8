use crate::asking::{Numbers, ending_of};
use plinq_lambda::Formula;
use plinq_merge::Sink;
use plinq_ops::{MergeOption, Op};
use plinq_source::Ending;
use plinq_testing::{Counted, KeepsBack, Seen, WORKERS, Watched, query_of};
use std::alloc::Global;
use std::sync::Wait;
use std::test::*;
use std::thread::Threads;

/// Whether one is added to each of three numbers, and the gate never gave up.
fn is_added<K: Sink<Item = i64>, R: Threads + Wait + Sync>(
    rt: &R,
    alloc: Global,
    workers: u64,
    gate: &KeepsBack<'_>,
    sink: &mut K,
) -> bool {
    let add_one = [Op::Select(Formula::Add(1))];
    let query = query_of(alloc, &add_one, MergeOption::NotBuffered, workers);
    ending_of(rt, alloc, query, Numbers::below(3), gate, sink) == Ok(Ending::End) && !gate.gave_up()
}

/// Whether the sink has taken 1, 2 and 3, each in a batch.
fn are_three(sink: &Counted) -> bool {
    sink.batches == 3 && sink.count == 3 && sink.most == 1 && sink.is_in_order
}

/// Whether three batches come, if key 1 waits for the first.
fn come_while_key_1_waits<R: Threads + Wait + Sync>(rt: &R, alloc: Global, workers: u64) -> bool {
    let seen = Seen::new();
    let gate = KeepsBack::at(1, &seen.taken, 1);
    let mut sink = Watched {
        sink: Counted::numbers_from(1),
        seen: &seen,
    };
    is_added(rt, alloc, workers, &gate, &mut sink) && are_three(&sink.sink)
}

#[test]
fn batches_come_while_a_worker_is_held_back(rt: HostRuntime) {
    for workers in WORKERS {
        assert!(rt;
            come_while_key_1_waits(&rt, rt.alloc(), workers),
            "{workers}"
        );
    }
}

/// Whether three batches come, if key 2 waits until the sink that has two is told that nothing comes.
fn come_while_key_2_waits<R: Threads + Wait + Sync>(rt: &R, alloc: Global, workers: u64) -> bool {
    let seen = Seen::new();
    let gate = KeepsBack::at(2, &seen.taken_by_rest, 2);
    let mut sink = Watched {
        sink: Counted::numbers_from(1),
        seen: &seen,
    };
    is_added(rt, alloc, workers, &gate, &mut sink) && are_three(&sink.sink)
}

#[test]
fn a_sink_is_told_when_nothing_comes(rt: HostRuntime) {
    for workers in WORKERS {
        assert!(rt;
            come_while_key_2_waits(&rt, rt.alloc(), workers),
            "{workers}"
        );
    }
}
