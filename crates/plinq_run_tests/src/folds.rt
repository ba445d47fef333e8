//! That workers fold what they compute, and that a source is closed in time.
ghost use Rattle.plinq_aggregate.specs.Numbers.{counting};
ghost use Rattle.plinq_aggregate.specs.Lawful.{counting-lawful};

use plinq_aggregate::{Aggregator, Sum};
use plinq_enumerator::Growth;
use plinq_lambda::Formula;
use plinq_ops::{MergeOption, Op};
use plinq_run::{OpenGate, aggregate};
use plinq_source::RangeSource;
use plinq_testing::{Counts, HoldsTheFirst, Passed, WORKERS, ordered, query_of};
use std::alloc::Global;
use std::sync::Wait;
use std::sync::atomic::{AtomicU64, Ordering};
use std::test::*;
use std::thread::Threads;

/// Counts numbers, and notes how many were taken in by now.
#[derive(Drop)]
struct Noted<'a> {
    taken_in: &'a AtomicU64,
}

impl<'a> Aggregator for Noted<'a> {
    type Item = i64;

    type Acc = u64;

    type Out = u64;

    ghost folding = { λ _. counting };

    fn seed(&self) -> u64 {
        0
    }

    fn update(&self, acc: u64, _x: i64) -> u64 {
        self.taken_in.fetch_add(1, Ordering::SeqCst);
        acc.wrapping_add(1)
    }

    fn combine(&self, first: u64, second: u64) -> u64 {
        first.wrapping_add(second)
    }

    fn result(&self, acc: u64) -> u64 {
        acc
    }

    ghost lawful = { λ _. counting-lawful };
}

/// Whether all other numbers of a range are taken in while the first is held back.
fn are_taken_in<R: Threads + Wait + Sync>(rt: &R, alloc: Global, workers: u64, count: u64) -> bool {
    let taken_in = AtomicU64::new(0);
    let others = count.saturating_sub(1);
    let gate = HoldsTheFirst::until(&taken_in, others, 50_000_000);
    let counted = Noted {
        taken_in: &taken_in,
    };
    let Ok(source) = RangeSource::new(1, count) else {
        return false;
    };
    let Ok(query) = ordered::<Formula>(alloc, MergeOption::Default, workers) else {
        return false;
    };
    let told = aggregate(rt, alloc, &query, source, Growth::ONE, &gate, &counted);
    told == Ok(count) && gate.by_then() == others
}

#[test]
fn workers_fold_while_the_first_key_is_held_back(rt: HostRuntime) {
    for workers in [2u64, 4, 64] {
        assert!(rt; are_taken_in(&rt, rt.alloc(), workers, 40), "{workers}");
    }
}

/// Whether the numbers below a thousand are summed, of a range that goes on far beyond them, in chunks of four.
fn are_summed<R: Threads + Wait + Sync>(
    rt: &R,
    alloc: Global,
    workers: u64,
    growth: Growth,
) -> bool {
    let passed = Passed::new();
    let gate = Counts {
        passed: &passed,
        gate: OpenGate,
    };
    let Ok(source) = RangeSource::new(0, 1_099_511_627_776) else {
        return false;
    };
    let below = [Op::TakeWhile(Formula::Below(1_000))];
    let Ok(query) = query_of(alloc, &below, MergeOption::Default, workers) else {
        return false;
    };
    let sum = aggregate(rt, alloc, &query, source, growth, &gate, &Sum);
    sum == Ok(499_500)
        && passed.about.load(Ordering::SeqCst) > 250
        && passed.bits.load(Ordering::SeqCst) % 4 == 0
}

#[test]
fn an_aggregate_closes_a_long_range_long_before_its_end(rt: HostRuntime) -> Result<(), Fail> {
    let growth = Growth::new(4, 1, 4)?;
    for workers in WORKERS {
        assert!(rt; are_summed(&rt, rt.alloc(), workers, growth), "{workers}");
    }
    Ok(())
}
