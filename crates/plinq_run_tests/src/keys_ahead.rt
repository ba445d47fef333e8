//! How far workers run ahead of what is merged.
use crate::beside_one_thread::{Setting, ask_range};
use plinq_aggregate::Count;
use plinq_enumerator::Growth;
use plinq_lambda::Formula;
use plinq_ops::{MergeOption, Op};
use plinq_run::aggregate;
use plinq_source::RangeSource;
use plinq_testing::{CHUNK, Counts, HoldsTheFirst, Passed, most_ahead, ordered};
use std::alloc::Global;
use std::sync::Wait;
use std::test::*;
use std::thread::Threads;

/// A gate that holds key 0 back until a worker has taken a later one than it may, or for a long time.
fn holding_back(passed: &Passed, workers: u64) -> Counts<'_, HoldsTheFirst<'_>> {
    let too_late = most_ahead(workers).saturating_add(1);
    Counts {
        passed,
        gate: HoldsTheFirst::until(&passed.last, too_late, 5_000_000),
    }
}

/// Whether a worker has taken a later key meanwhile, and none has taken one that is too late.
fn is_kept(gate: &Counts<'_, HoldsTheFirst<'_>>, workers: u64) -> bool {
    let last = gate.gate.by_then();
    1 <= last && last <= most_ahead(workers)
}

/// Whether workers wait while the first number of a range is held back, of which three even ones are taken.
fn wait<R: Threads + Wait + Sync>(rt: &R, alloc: Global, workers: u64, growth: Growth) -> bool {
    let passed = Passed::new();
    let gate = holding_back(&passed, workers);
    let setting = Setting {
        growth,
        ..Setting::by(workers)
    };
    let ops = [Op::Filter(Formula::Even), Op::Take(3)];
    match ask_range(rt, alloc, 1_099_511_627_776, &ops, setting, &gate) {
        Some(answers) => answers.are_one() && is_kept(&gate, workers),
        None => false,
    }
}

#[test]
fn workers_wait_for_the_first_key(rt: HostRuntime) -> Result<(), Fail> {
    let growth = Growth::new(CHUNK, 1, CHUNK)?;
    for workers in [2u64, 64] {
        assert!(rt; wait(&rt, rt.alloc(), workers, growth), "{workers}");
    }
    Ok(())
}

/// Whether workers wait while the first of so many numbers is held back, which are counted.
fn wait_with_a_count<R: Threads + Wait + Sync>(
    rt: &R,
    alloc: Global,
    workers: u64,
    growth: Growth,
    count: u64,
) -> bool {
    let passed = Passed::new();
    let gate = holding_back(&passed, workers);
    let Ok(source) = RangeSource::new(0, count) else {
        return false;
    };
    let Ok(query) = ordered::<Formula>(alloc, MergeOption::Default, workers) else {
        return false;
    };
    let told = aggregate(rt, alloc, &query, source, growth, &gate, &Count);
    told == Ok(count) && is_kept(&gate, workers)
}

#[test]
fn workers_that_fold_wait_for_the_first_key(rt: HostRuntime) -> Result<(), Fail> {
    let growth = Growth::new(CHUNK, 1, CHUNK)?;
    for workers in [2u64, 64] {
        assert!(rt;
            wait_with_a_count(&rt, rt.alloc(), workers, growth, 10_000_000),
            "{workers}"
        );
    }
    Ok(())
}
