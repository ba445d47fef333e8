//! When a token is asked, and what was delivered by then.
ghost use Rattle.std.specs.Prelude.{◌≡◌, ◌||◌, int_lt, pos};

use crate::each_call::is_cancelled;
use plinq_collect::Collect;
use plinq_merge::{Cancel, CancelAfter, NeverCancel};
use plinq_ops::MergeOption;
use plinq_query::{QueryFault, from};
use plinq_source::RangeSource;
use std::alloc::Global;
use std::sync::Wait;
use std::test::*;
use std::thread::Threads;
use std::time::Clock;

/// A source that no test sees the end of.
const ENDLESS: u64 = 1 << 40;

/// The token that returns `true` at its question of this number.
#[derive(Drop)]
struct AtQuestion {
    at: u64,
    asked: u64,
    told: bool,
}

impl AtQuestion {
    fn new(at: u64) -> AtQuestion {
        AtQuestion {
            at,
            asked: 0,
            told: false,
        }
    }
}

impl Cancel for AtQuestion {
    ghost asks = { λ t n answer t'. t'.told ≡ (t.told || answer) };

    ghost has_told = { λ t. t.told };

    fn cancelled(&mut self, _delivered: u64) -> bool {
        self.asked = self.asked.saturating_add(1);
        let answer = self.asked >= self.at;
        self.told = self.told || answer;
        answer
    }

    fn told(&self) -> bool {
        self.told
    }

    ghost keeps_told = { λ t n answer t' asked. asked };
}

/// How many of so many numbers from 0 on are below 0, unless the token's fifth question stops that.
fn count_of_none<R: Clock + Threads + Wait + Sync>(
    rt: &R,
    alloc: Global,
    count: u64,
    workers: u64,
) -> Option<Result<u64, QueryFault>> {
    let kept = from(RangeSource::new(0, count).ok()?)
        .as_parallel()
        .with_token(AtQuestion::new(5))
        .with_degree(workers)
        .filter(
            |x: i64| -> bool
                ensures { result ≡ int_lt x (pos 0) }
            { x < 0 },
        )
        .count(rt, alloc);
    Some(kept)
}

/// The first of them.
fn first_of_none<R: Clock + Threads + Wait + Sync>(
    rt: &R,
    alloc: Global,
    count: u64,
    workers: u64,
) -> Option<Result<Option<i64>, QueryFault>> {
    let first = from(RangeSource::new(0, count).ok()?)
        .as_parallel()
        .with_degree(workers)
        .with_token(AtQuestion::new(5))
        .filter(
            |x: i64| -> bool
                ensures { result ≡ int_lt x (pos 0) }
            { x < 0 },
        )
        .first(rt, alloc);
    Some(first)
}

/// All of them but the first ten.
fn none_after_ten<R: Clock + Threads + Wait + Sync>(
    rt: &R,
    alloc: Global,
    count: u64,
    workers: u64,
) -> Option<Result<Vec<i64>, QueryFault>> {
    let list = from(RangeSource::new(0, count).ok()?)
        .as_parallel()
        .with_token(AtQuestion::new(5))
        .with_degree(workers)
        .filter(
            |x: i64| -> bool
                ensures { result ≡ int_lt x (pos 0) }
            { x < 0 },
        )
        .skip(10)
        .to_vec(rt, alloc);
    Some(list)
}

#[test]
fn a_query_of_which_nothing_is_left_can_be_stopped(rt: HostRuntime) {
    for workers in [1, 2, 8, 64] {
        assert!(rt;
            is_cancelled(count_of_none(&rt, rt.alloc(), ENDLESS, workers)),
            "{workers}"
        );
        assert!(rt;
            is_cancelled(first_of_none(&rt, rt.alloc(), ENDLESS, workers)),
            "{workers}"
        );
        assert!(rt;
            is_cancelled(none_after_ten(&rt, rt.alloc(), ENDLESS, workers)),
            "{workers}"
        );
    }
}

/// Which of the numbers below 100 a sink has in batches so delivered, if a token stops that after so many, and how that ended.
fn delivered<R: Clock + Threads + Wait + Sync>(
    rt: &R,
    alloc: Global,
    workers: u64,
    option: MergeOption,
    most: u64,
) -> Option<(Vec<i64>, Result<(), QueryFault>)> {
    let mut sink = Collect(Vec::new(alloc));
    let outcome = from(RangeSource::new(0, 100).ok()?)
        .as_parallel()
        .with_growth(1, 1, 5)
        .with_token(CancelAfter::new(most))
        .with_degree(workers)
        .with_merge(option)
        .run_into(rt, alloc, &mut sink);
    Some((sink.0, outcome))
}

/// Whether these are the numbers from 0 on, so many, and the run ended so.
fn are_first(
    seen: Option<(Vec<i64>, Result<(), QueryFault>)>,
    count: usize,
    is_stopped: bool,
) -> bool {
    let Some((items, outcome)) = seen else {
        return false;
    };
    let mut next = 0i64;
    for it in items.as_slice() {
        if *it != next {
            return false;
        }
        next = next.wrapping_add(1);
    }
    items.len() == count && is_cancelled(Some(outcome)) == is_stopped
}

#[test]
fn so_many_batches_are_delivered_before_a_token_stops_a_run(rt: HostRuntime) {
    let alloc = rt.alloc();
    for workers in [1, 2, 8, 64] {
        let one_by_one = MergeOption::NotBuffered;
        assert!(rt; are_first(delivered(&rt, alloc, workers, one_by_one, 0), 0, true));
        assert!(rt; are_first(delivered(&rt, alloc, workers, one_by_one, 7), 7, true));
        assert!(rt; are_first(delivered(&rt, alloc, workers, one_by_one, 100), 100, true));
        assert!(rt; are_first(delivered(&rt, alloc, workers, one_by_one, 101), 100, false));
        let buffered = MergeOption::AutoBuffered;
        assert!(rt; are_first(delivered(&rt, alloc, workers, buffered, 2), 32, true));
        assert!(rt; are_first(delivered(&rt, alloc, workers, buffered, 8), 100, false));
        let at_once = MergeOption::FullyBuffered;
        assert!(rt; are_first(delivered(&rt, alloc, workers, at_once, 0), 0, true));
        assert!(rt; are_first(delivered(&rt, alloc, workers, at_once, 1), 100, true));
        assert!(rt; are_first(delivered(&rt, alloc, workers, at_once, 2), 100, false));
    }
}

/// The sum of the numbers that a closure is called with, of those below 100, by chunks of at most three, and how that ended.
fn called<C: Cancel + Drop, R: Clock + Threads + Wait + Sync>(
    rt: &R,
    alloc: Global,
    token: C,
) -> Option<(i64, Result<(), QueryFault>)> {
    let mut sum = 0i64;
    let outcome = from(RangeSource::new(0, 100).ok()?)
        .as_parallel()
        .with_token(token)
        .with_growth(1, 1, 3)
        .for_each(rt, alloc, &mut |x: i64| sum = sum.wrapping_add(x));
    Some((sum, outcome))
}

#[test]
fn a_token_that_never_stops_changes_nothing(rt: HostRuntime) {
    assert!(rt; called(&rt, rt.alloc(), NeverCancel) == Some((4_950, Ok(()))));
    assert!(rt; called(&rt, rt.alloc(), CancelAfter::new(1_000)) == Some((4_950, Ok(()))));
    assert!(rt; called(&rt, rt.alloc(), AtQuestion::new(10_000)) == Some((4_950, Ok(()))));
}
