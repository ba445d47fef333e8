ghost use Rattle.std.specs.Prelude.{refl};
ghost use Rattle.plinq_aggregate.specs.Numbers.{picking};
ghost use Rattle.plinq_aggregate.specs.Lawful.{picking-lawful};

use plinq_aggregate::Aggregator;
use plinq_enumerator::Growth;
use plinq_lambda::Formula;
use plinq_ops::{MergeOption, Op};
use plinq_run::{OpenGate, aggregate};
use plinq_source::RangeSource;
use plinq_testing::{OPTIONS, WORKERS, query_of};
use std::alloc::Global;
use std::sync::Wait;
use std::test::*;
use std::thread::Threads;

/// The last number; of none there is none.
#[derive(Drop)]
pub(crate) struct Last;

impl Aggregator for Last {
    type Item = i64;

    type Acc = Option<i64>;

    type Out = Option<i64>;

    ghost folding = { λ _. picking (λ a b. b) };

    fn seed(&self) -> Option<i64> {
        None
    }

    fn update(&self, _acc: Option<i64>, x: i64) -> Option<i64> {
        Some(x)
    }

    fn combine(&self, first: Option<i64>, second: Option<i64>) -> Option<i64> {
        match second {
            Some(last) => Some(last),
            None => first,
        }
    }

    fn result(&self, acc: Option<i64>) -> Option<i64> {
        acc
    }

    ghost lawful = { λ _. picking-lawful (λ a b. b) (λ a b c. refl) };
}

/// Whether the last number that these operators leave of those from 1 to `count` is `count`.
fn leaves_the_last<R: Threads + Wait + Sync>(
    rt: &R,
    alloc: Global,
    ops: &[Op<Formula>],
    option: MergeOption,
    workers: u64,
    count: u64,
) -> bool {
    let Ok(source) = RangeSource::new(1, count) else {
        return false;
    };
    let Ok(query) = query_of(alloc, ops, option, workers) else {
        return false;
    };
    let last = aggregate(rt, alloc, &query, source, Growth::ONE, &OpenGate, &Last);
    last == Ok(i64::try_from(count).ok())
}

#[test]
fn even_numbers_of_a_range_under_each_merge_option(rt: HostRuntime) {
    for option in OPTIONS {
        for workers in WORKERS {
            // (without an operator after the merge the workers fold)
            let even = [Op::Filter(Formula::Even)];
            assert!(rt; leaves_the_last(&rt, rt.alloc(), &even, option, workers, 1_000));
            let skipped = [Op::Filter(Formula::Even), Op::Skip(0)];
            assert!(rt; leaves_the_last(&rt, rt.alloc(), &skipped, option, workers, 10));
            assert!(rt; leaves_the_last(&rt, rt.alloc(), &skipped, option, workers, 1_000));
        }
    }
}
