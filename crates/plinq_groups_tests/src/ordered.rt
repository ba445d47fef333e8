//! Queries whose items are put in the order of their ranks, by several numbers of workers.
ghost use Rattle.std.specs.Prelude.{◌≡◌, bit_and, IfSome};
ghost use Rattle.std.specs.Int.{cast_unsigned, w64};

use plinq_groups::RankOf;
use plinq_lambda::Formula;
use plinq_ops::{Built, Query};
use plinq_run::AggregateFault;
use plinq_sorted::order_by;
use plinq_source::{Ending, ListSource, Source};
use std::alloc::Global;
use std::cmp::Reverse;
use std::sync::Wait;
use std::test::*;
use std::thread::Threads;
use std::time::Clock;

/// The last three bits of a number.
#[derive(Clone, Copy)]
pub(crate) struct LowBits;

impl RankOf for LowBits {
    type Item = i64;

    type Rank = u64;

    ghost ranks = { λ _ x. bit_and (cast_unsigned w64 x) 7 };

    fn rank_of(&self, x: i64) -> u64 {
        x.cast_unsigned() & 7
    }
}

/// The greatest of them first, and of equal ones the greatest number.
#[derive(Clone, Copy)]
struct Greatest;

impl RankOf for Greatest {
    type Item = i64;

    type Rank = (Reverse<u64>, Reverse<i64>);

    ghost ranks = { λ _ x. (record { 0 = bit_and (cast_unsigned w64 x) 7 }, record { 0 = x }) };

    fn rank_of(&self, x: i64) -> (Reverse<u64>, Reverse<i64>) {
        (Reverse(x.cast_unsigned() & 7), Reverse(x))
    }
}

const COUNT: u32 = 500;

/// A number whose place in the source stands above its last three bits.
fn number(at: u32) -> i64 {
    i64::from(at) * 8 + i64::from(at.wrapping_mul(77) % 31 & 7)
}

/// The numbers, and a refusal after them if it has a code.
fn source_of(alloc: Global, code: Option<u32>) -> Option<ListSource<i64>>
    ensures { IfSome result (λ source. ⟦<ListSource<i64> as Source>⟧.given source ≡ 0) }
{
    let mut numbers = Vec::new(alloc);
    for at in 0..COUNT {
        if numbers.push(number(at)).is_err() {
            return None;
        }
    }
    if numbers.len() > 1_000 {
        return None;
    }
    match code {
        Some(code) => Some(ListSource::refusing(alloc, numbers, code)),
        None => Some(ListSource::new(alloc, numbers)),
    }
}

fn with_workers(query: Query<Formula>, workers: u64) -> Built<Formula> {
    query.with_degree(workers)?.select(Formula::Add(0))
}

fn query_of(alloc: Global, workers: u64, is_ordered: bool) -> Built<Formula> {
    if is_ordered {
        return with_workers(Query::new(alloc).as_ordered()?, workers);
    }
    with_workers(Query::new(alloc), workers)
}

fn ordered<O: RankOf<Item = i64, Rank: Send>, R: Clock + Threads + Wait + Sync>(
    rt: &R,
    alloc: Global,
    workers: u64,
    is_ordered: bool,
    code: Option<u32>,
    rank: &O,
) -> Option<Result<Vec<i64>, AggregateFault>> {
    let Ok(query) = query_of(alloc, workers, is_ordered) else {
        return None;
    };
    let source = source_of(alloc, code)?;
    Some(order_by(rt, alloc, &query, source, rank))
}

/// Whether these are all numbers: there are as many, and none stands twice.
fn are_all(numbers: &[i64]) -> bool {
    let mut count = 0u32;
    for at in 0..COUNT {
        if numbers.contains(&number(at)) {
            count = count.saturating_add(1);
        }
    }
    count == COUNT && numbers.len() == COUNT as usize
}

/// Whether the bits ascend, and of equal ones, if the query is ordered, the places.
fn ascend(numbers: &[i64], is_ordered: bool) -> bool {
    let mut before = (0, -1);
    for it in numbers {
        let next = (*it & 7, *it);
        if next.0 < before.0 || is_ordered && next <= before {
            return false;
        }
        before = next;
    }
    true
}

fn are_ordered<R: Clock + Threads + Wait + Sync>(
    rt: &R,
    alloc: Global,
    workers: u64,
    is_ordered: bool,
) -> bool {
    match ordered(rt, alloc, workers, is_ordered, None, &LowBits) {
        Some(Ok(numbers)) => are_all(&numbers) && ascend(&numbers, is_ordered),
        _ => false,
    }
}

#[test]
fn equal_ones_stand_as_they_came(rt: HostRuntime) {
    for workers in [1, 2, 8, 64] {
        for is_ordered in [true, false] {
            assert!(rt;
                are_ordered(&rt, rt.alloc(), workers, is_ordered),
                "{workers}"
            );
        }
    }
}

/// Whether the bits descend, and of equal ones the numbers.
fn descend(numbers: &[i64]) -> bool {
    let mut before = (8, i64::MAX);
    for it in numbers {
        let next = (*it & 7, *it);
        if next >= before {
            return false;
        }
        before = next;
    }
    true
}

fn are_descending<R: Clock + Threads + Wait + Sync>(rt: &R, alloc: Global, workers: u64) -> bool {
    match ordered(rt, alloc, workers, false, None, &Greatest) {
        Some(Ok(numbers)) => are_all(&numbers) && descend(&numbers),
        _ => false,
    }
}

#[test]
fn a_pair_of_ranks_that_descend(rt: HostRuntime) {
    for workers in [1, 2, 8, 64] {
        assert!(rt; are_descending(&rt, rt.alloc(), workers), "{workers}");
    }
}

fn is_refused<R: Clock + Threads + Wait + Sync>(rt: &R, alloc: Global, workers: u64) -> bool {
    let refused = AggregateFault::Ended(Ending::Refused(7));
    match ordered(rt, alloc, workers, true, Some(7), &LowBits) {
        Some(Err(fault)) => fault == refused,
        _ => false,
    }
}

#[test]
fn an_answer_that_ends_in_a_refusal_has_no_order(rt: HostRuntime) {
    for workers in [1, 8] {
        assert!(rt; is_refused(&rt, rt.alloc(), workers), "{workers}");
    }
}
