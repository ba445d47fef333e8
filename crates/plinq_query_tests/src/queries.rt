//! Typed queries over numbers that are picked by chance, by threads and on one thread, beside a plain loop.
ghost use Rattle.std.specs.Prelude.{◌≡◌, ◌%◌, int_lt, int_rem, pos};
ghost use Rattle.std.specs.Int.{cast_unsigned, w64};
ghost use Rattle.std.specs.Ordering.{int_eq};

use plinq_aggregate::Sum;
use plinq_enumerator::GrowthFault;
use plinq_groups::Groups;
use plinq_query::{QueryFault, from};
use plinq_slice::SliceSource;
use plinq_source::{Ending, ListSource};
use plinq_testing::{numbers, says};
use std::alloc::{AllocError, Global};
use std::process::Abort;
use std::sync::Wait;
use std::test::*;
use std::thread::Threads;
use std::time::Clock;

pub(crate) const WORKERS: [u64; 4] = [1, 2, 8, 64];

/// A number, and whether 3 divides it.
#[derive(Clone, Copy, PartialEq, Eq, Debug)]
struct Marked {
    number: i64,
    is_third: bool,
}

/// Those that 3 divides and that are below a bound.
fn by_loop(alloc: Global, items: &[i64], bound: i64) -> Result<Vec<u64>, AllocError> {
    let mut left = Vec::new(alloc);
    for item in items {
        if *item % 3 == 0 && *item < bound {
            left.push(item.cast_unsigned())?;
        }
    }
    Ok(left)
}

fn by_threads<R: Clock + Threads + Wait + Sync>(
    rt: &R,
    alloc: Global,
    items: &[i64],
    bound: i64,
    workers: u64,
    most: u64,
) -> Result<Vec<u64>, QueryFault> {
    let Ok(source) = SliceSource::new(items) else {
        return Err(QueryFault::Degree);
    };
    from(source)
        .as_parallel()
        .with_degree(workers)
        .with_growth(1, 3, most)
        .select(
            |x: i64| -> Marked
                ensures { result ≡ record { number = x; is_third = int_eq (int_rem x (pos 3)) (pos 0) } }
            {
                Marked {
                    number: x,
                    is_third: x % 3 == 0,
                }
            },
        )
        .filter(
            |m: Marked| -> bool
                ensures { result ≡ m.is_third }
            { m.is_third },
        )
        .filter(
            |m: Marked| -> bool
                ensures { result ≡ int_lt m.number bound }
            { m.number < bound },
        )
        .select(
            |m: Marked| -> u64
                ensures { result ≡ cast_unsigned w64 m.number }
            { m.number.cast_unsigned() },
        )
        .to_vec(rt, alloc)
}

fn by_the_clock<R: Clock + Threads + Wait + Sync>(
    rt: &R,
    alloc: Global,
    items: &[i64],
    bound: i64,
    workers: u64,
) -> Result<Vec<u64>, QueryFault> {
    let Ok(source) = SliceSource::new(items) else {
        return Err(QueryFault::Degree);
    };
    from(source)
        .select(
            |x: i64| -> (i64, bool)
                ensures { result ≡ (x, int_eq (int_rem x (pos 3)) (pos 0)) }
            { (x, x % 3 == 0) },
        )
        .filter(
            |p: (i64, bool)| -> bool
                ensures { result ≡ p.1 }
            { p.1 },
        )
        .as_parallel()
        .filter(
            |p: (i64, bool)| -> bool
                ensures { result ≡ int_lt p.0 bound }
            { p.0 < bound },
        )
        .select(
            |p: (i64, bool)| -> u64
                ensures { result ≡ cast_unsigned w64 p.0 }
            { p.0.cast_unsigned() },
        )
        .with_degree(workers)
        .to_vec(rt, alloc)
}

fn on_one_thread(alloc: Global, items: &[i64], bound: i64) -> Result<Vec<u64>, QueryFault> {
    let Ok(source) = SliceSource::new(items) else {
        return Err(QueryFault::Degree);
    };
    from(source)
        .filter(
            |x: i64| -> bool
                ensures { result ≡ int_eq (int_rem x (pos 3)) (pos 0) }
            { x % 3 == 0 },
        )
        .filter(
            |x: i64| -> bool
                ensures { result ≡ int_lt x bound }
            { x < bound },
        )
        .select(
            |x: i64| -> u64
                ensures { result ≡ cast_unsigned w64 x }
            { x.cast_unsigned() },
        )
        .to_vec(alloc)
}

/// The sum of those that a query with two types between keeps.
fn sum_by_threads<R: Clock + Threads + Wait + Sync>(
    rt: &R,
    alloc: Global,
    items: &[i64],
    bound: i64,
    workers: u64,
) -> Result<i128, QueryFault> {
    let Ok(source) = SliceSource::new(items) else {
        return Err(QueryFault::Degree);
    };
    from(source)
        .as_parallel()
        .with_degree(workers)
        .select(
            |x: i64| -> (bool, i64)
                ensures { result ≡ (int_lt x bound, x) }
            { (x < bound, x) },
        )
        .filter(
            |p: (bool, i64)| -> bool
                ensures { result ≡ p.0 }
            { p.0 },
        )
        .select(
            |p: (bool, i64)| -> i64
                ensures { result ≡ p.1 }
            { p.1 },
        )
        .aggregate(rt, alloc, Sum)
}

fn sum_by_loop(items: &[i64], bound: i64) -> i128 {
    let mut sum = 0i128;
    for item in items {
        if *item < bound {
            sum = sum.wrapping_add(i128::from(*item));
        }
    }
    sum
}

/// The sum of the numbers of each remainder by 7, by threads.
fn groups_by_threads<R: Clock + Threads + Wait + Sync>(
    rt: &R,
    alloc: Global,
    items: &[i64],
    workers: u64,
) -> Result<Groups<u64, i128>, QueryFault> {
    let Ok(source) = SliceSource::new(items) else {
        return Err(QueryFault::Degree);
    };
    from(source)
        .as_parallel()
        .with_degree(workers)
        .select(
            |x: i64| -> (u64, i64)
                ensures { result ≡ (cast_unsigned w64 x % 7, x) }
            { (x.cast_unsigned() % 7, x) },
        )
        .group_by(rt, alloc, Sum)
}

/// The same on one thread.
fn groups_on_one_thread(alloc: Global, items: &[i64]) -> Result<Groups<u64, i128>, QueryFault> {
    let Ok(source) = SliceSource::new(items) else {
        return Err(QueryFault::Degree);
    };
    from(source)
        .select(
            |x: i64| -> (u64, i64)
                ensures { result ≡ (cast_unsigned w64 x % 7, x) }
            { (x.cast_unsigned() % 7, x) },
        )
        .group_by(alloc, Sum)
}

/// What the numbers of this remainder sum up to.
fn sum_of(items: &[i64], key: u64) -> i128 {
    let mut sum = 0i128;
    for item in items {
        if item.cast_unsigned() % 7 == key {
            sum = sum.wrapping_add(i128::from(*item));
        }
    }
    sum
}

/// The place of the first number of this remainder.
fn first_of(items: &[i64], key: u64) -> Option<usize> {
    for (at, item) in items.iter().enumerate() {
        if item.cast_unsigned() % 7 == key {
            return Some(at);
        }
    }
    None
}

/// How many remainders there are.
fn keys_in(items: &[i64]) -> usize {
    let mut keys = 0usize;
    for key in 0..7u64 {
        if first_of(items, key).is_some() {
            keys = keys.wrapping_add(1);
        }
    }
    keys
}

/// Whether these are the groups of the numbers, in the order of the first number of each.
fn are_groups(found: &Result<Groups<u64, i128>, QueryFault>, items: &[i64]) -> bool {
    let Ok(groups) = found else {
        return false;
    };
    let mut count = 0usize;
    let mut least = 0usize;
    for (key, sum) in groups.as_map() {
        match first_of(items, *key) {
            Some(at) => {
                if at < least || *sum != sum_of(items, *key) {
                    return false;
                }
                least = at;
            }
            None => return false,
        }
        count = count.wrapping_add(1);
    }
    count == keys_in(items)
}

fn is_list(found: &Result<Vec<u64>, QueryFault>, wanted: &[u64]) -> bool {
    match found {
        Ok(found) => found.as_slice() == wanted,
        Err(_) => false,
    }
}

/// Whether the queries over so many numbers have the answer of a loop.
fn are_as_by_loop<R: Clock + Threads + Wait + Sync>(
    rt: &R,
    alloc: Global,
    seed: u64,
    workers: u64,
) -> bool {
    let Ok(items) = numbers(alloc, seed, seed % 3000) else {
        return false;
    };
    let bound = ((seed >> 8) % 1100) as i64;
    let Ok(wanted) = by_loop(alloc, &items, bound) else {
        return false;
    };
    is_list(&by_threads(rt, alloc, &items, bound, workers, 512), &wanted)
        && is_list(&by_the_clock(rt, alloc, &items, bound, workers), &wanted)
        && is_list(&on_one_thread(alloc, &items, bound), &wanted)
        && sum_by_threads(rt, alloc, &items, bound, workers) == Ok(sum_by_loop(&items, bound))
}

/// Whether the groups of so many numbers are those of a loop.
fn are_grouped_as_by_loop<R: Clock + Threads + Wait + Sync>(
    rt: &R,
    alloc: Global,
    seed: u64,
    workers: u64,
) -> bool {
    let Ok(items) = numbers(alloc, seed, seed % 3000) else {
        return false;
    };
    are_groups(&groups_by_threads(rt, alloc, &items, workers), &items)
        && are_groups(&groups_on_one_thread(alloc, &items), &items)
}

#[test]
fn queries_by_chance_have_the_answer_of_a_loop(rt: HostRuntime) {
    for seed in 1..=12u64 {
        let number = seed.wrapping_mul(0x9E37_79B9_7F4A_7C15);
        for workers in WORKERS {
            assert!(&rt; are_as_by_loop(&rt, rt.alloc(), number, workers));
            assert!(&rt; are_grouped_as_by_loop(&rt, rt.alloc(), number, workers));
        }
    }
}

/// What is made of a source that gives two numbers and then refuses with 7.
fn of_a_refusal<R: Clock + Threads + Wait + Sync>(
    rt: &R,
    alloc: Global,
    workers: u64,
) -> Option<QueryFault> {
    let mut items = Vec::new(alloc);
    items.push(4i64).ok()?;
    items.push(5i64).ok()?;
    let source = ListSource::refusing(alloc, items, 7);
    from(source)
        .select(
            |x: i64| -> (i64, i64)
                ensures { result ≡ (x, x) }
            { (x, x) },
        )
        .as_parallel()
        .with_degree(workers)
        .count(rt, alloc)
        .err()
}

#[test]
fn a_refusal_is_the_error_and_has_its_code(rt: HostRuntime) {
    for workers in WORKERS {
        let fault = of_a_refusal(&rt, rt.alloc(), workers);
        assert!(&rt; fault == Some(QueryFault::Ended(Ending::Refused(7))));
    }
    assert!(&rt;
        says(
            rt.alloc(),
            &QueryFault::Ended(Ending::Refused(7)),
            "the query ended with Refused(7)"
        )
    );
}

#[test]
fn no_workers_or_too_many_are_refused(rt: HostRuntime) {
    for workers in [0, 65, 1 << 40] {
        assert!(&rt; of_a_refusal(&rt, rt.alloc(), workers) == Some(QueryFault::Degree));
    }
}

/// Why a query by chunks that grow so has no answer.
fn of_a_growth<R: Clock + Threads + Wait + Sync>(
    rt: &R,
    alloc: Global,
    first: u64,
    repeat: u64,
    max: u64,
) -> Option<QueryFault> {
    let source = SliceSource::new(&[1, 2]).ok()?;
    from(source)
        .as_parallel()
        .with_growth(first, repeat, max)
        .count(rt, alloc)
        .err()
}

#[test]
fn numbers_that_make_no_growth_are_refused(rt: HostRuntime) {
    let alloc = rt.alloc();
    assert!(&rt; of_a_growth(&rt, alloc, 1, 3, 512).is_none());
    assert!(&rt; of_a_growth(&rt, alloc, 0, 3, 512) == Some(QueryFault::Growth(GrowthFault::Zero)));
    assert!(&rt;
        of_a_growth(&rt, alloc, 9, 3, 8) == Some(QueryFault::Growth(GrowthFault::FirstAboveMax))
    );
    assert!(&rt;
        of_a_growth(&rt, alloc, 1, 1, 65_537) == Some(QueryFault::Growth(GrowthFault::MaxTooLarge))
    );
}
