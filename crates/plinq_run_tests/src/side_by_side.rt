//! That workers go at once.
use crate::beside_one_thread::{Setting, ask_range};
use plinq_lambda::Formula;
use plinq_testing::{Counts, KeepsBack, Passed};
use std::alloc::Global;
use std::sync::Wait;
use std::test::*;
use std::thread::Threads;

/// Whether as many workers as chunks of items meet, each with one of these. Each stays with its own until all were taken, so no
/// worker takes a second one before all others have theirs.
fn meet<R: Threads + Wait + Sync>(rt: &R, alloc: Global, workers: u64) -> bool {
    let passed = Passed::counting_below(workers);
    let gate = Counts {
        passed: &passed,
        gate: KeepsBack::below(workers, &passed.taken_below, workers),
    };
    let setting = Setting::by(workers);
    match ask_range::<Formula, _, _>(rt, alloc, workers, &[], setting, &gate) {
        // The batches are those of one thread, and so the first of them is that of key 0.
        Some(answers) => {
            !gate.gate.gave_up() && answers.are_one() && answers.items.first() == Some(&0)
        }
        None => false,
    }
}

#[test]
fn workers_take_chunks_side_by_side(rt: HostRuntime) {
    for workers in [2u64, 8] {
        assert!(rt; meet(&rt, rt.alloc(), workers), "{workers}");
    }
}
