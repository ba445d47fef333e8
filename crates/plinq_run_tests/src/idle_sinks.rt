//! What a sink is told that has refused a batch.
use crate::asking::{Numbers, ending_of};
use plinq_lambda::Formula;
use plinq_ops::MergeOption;
use plinq_run::RunFault;
use plinq_testing::{Counted, KeepsBack, Seen, WORKERS, Watched, ordered};
use std::alloc::Global;
use std::sync::Wait;
use std::sync::atomic::Ordering;
use std::test::*;
use std::thread::Threads;

/// Whether a sink is told that nothing comes once it has refused a batch. Key 1 is held back until then, and for a while in which
/// nothing comes.
fn is_told<R: Threads + Wait + Sync>(rt: &R, alloc: Global, workers: u64) -> Option<bool> {
    let seen = Seen::new();
    let gate = KeepsBack::at(1, &seen.refused, 1);
    let mut sink = Watched {
        sink: Counted::refusing(0),
        seen: &seen,
    };
    let query = ordered::<Formula>(alloc, MergeOption::NotBuffered, workers);
    match ending_of(rt, alloc, query, Numbers::below(3), &gate, &mut sink) {
        Err(RunFault::Sink(9)) if !gate.gave_up() => Some(
            seen.late_rests.load(Ordering::SeqCst) > 0,
        ),
        _ => None,
    }
}

#[test]
fn a_sink_that_refused_is_told_nothing_more(rt: HostRuntime) {
    for workers in WORKERS {
        assert!(rt;
            is_told(&rt, rt.alloc(), workers) == Some(false),
            "{workers}"
        );
    }
}
