//! How many items are asked of a source, if it is known before one comes how many are enough.
ghost use Rattle.std.specs.Prelude.{◌≡◌, int_lt, int_rem, pos};
ghost use Rattle.std.specs.Ordering.{int_eq};

use crate::positions::{WORKERS, from_zero};
use plinq_query::from;
use std::alloc::Global;
use std::sync::Wait;
use std::sync::atomic::{AtomicU64, Ordering};
use std::test::*;
use std::thread::Threads;
use std::time::Clock;

/// The first of pairs of a number and its double, of so many, and how many numbers were asked for.
fn taken<R: Clock + Threads + Wait + Sync>(
    rt: &R,
    alloc: Global,
    count: u64,
    workers: u64,
) -> Option<(Vec<(i64, i64)>, u64)> {
    let left = AtomicU64::new(0);
    let made = from(from_zero(&left).ok()?)
        .as_parallel()
        .with_degree(workers)
        .select(
            |x: i64| -> (i64, i64)
                ensures { result ≡ (x, x) }
            { (x, x) },
        )
        .take(count)
        .to_vec(rt, alloc)
        .ok()?;
    Some((made, left.load(Ordering::SeqCst)))
}

/// The same after some were skipped, of those that are counted.
fn taken_behind<R: Clock + Threads + Wait + Sync>(
    rt: &R,
    alloc: Global,
    skipped: u64,
    count: u64,
    workers: u64,
) -> Option<(u64, u64)> {
    let left = AtomicU64::new(0);
    let made = from(from_zero(&left).ok()?)
        .as_parallel()
        .with_degree(workers)
        .with_growth(1, 3, 64)
        .skip(skipped)
        .take(count)
        .select(
            |x: i64| -> (i64, i64)
                ensures { result ≡ (x, x) }
            { (x, x) },
        )
        .count(rt, alloc)
        .ok()?;
    Some((made, left.load(Ordering::SeqCst)))
}

/// The numbers that a closure is called with, of the first ones that pass another test, and how many were asked for.
fn called_of<R: Clock + Threads + Wait + Sync>(
    rt: &R,
    alloc: Global,
    count: u64,
    workers: u64,
) -> Option<(i64, u64)> {
    let left = AtomicU64::new(0);
    let mut sum = 0i64;
    from(from_zero(&left).ok()?)
        .as_parallel()
        .with_degree(workers)
        .take(count)
        .take_while(
            |x: i64| -> bool
                ensures { result ≡ int_lt x (pos 1000) }
            { x < 1000 },
        )
        .filter(
            |x: i64| -> bool
                ensures { result ≡ int_lt (pos 2) x }
            { x > 2 },
        )
        .for_each(rt, alloc, &mut |x: i64| sum = sum.wrapping_add(x))
        .ok()?;
    Some((sum, left.load(Ordering::SeqCst)))
}

#[test]
fn a_take_behind_selects_asks_for_no_more_than_it_takes(rt: HostRuntime) {
    for workers in WORKERS {
        match taken(&rt, rt.alloc(), 3, workers) {
            Some((made, asked)) => {
                assert!(&rt; made.as_slice() == [(0, 0), (1, 1), (2, 2)].as_slice() && asked == 3);
            }
            None => panic!(rt; "no list"),
        }
        assert!(&rt; taken_behind(&rt, rt.alloc(), 100, 50, workers) == Some((50, 150)));
        assert!(&rt; called_of(&rt, rt.alloc(), 5, workers) == Some((7, 5)));
    }
}

#[test]
fn a_take_of_no_item_asks_for_none(rt: HostRuntime) {
    for workers in WORKERS {
        match taken(&rt, rt.alloc(), 0, workers) {
            Some((made, asked)) => assert!(&rt; made.is_empty() && asked == 0),
            None => panic!(rt; "no list"),
        }
    }
}

/// How many of the even numbers, of so many, come after a filter, and how many numbers were asked for.
fn taken_of_some<R: Clock + Threads + Wait + Sync>(
    rt: &R,
    alloc: Global,
    count: u64,
    workers: u64,
) -> Option<(u64, u64)> {
    let left = AtomicU64::new(0);
    let made = from(from_zero(&left).ok()?)
        .as_parallel()
        .with_degree(workers)
        .filter(
            |x: i64| -> bool
                ensures { result ≡ int_eq (int_rem x (pos 2)) (pos 0) }
            { x % 2 == 0 },
        )
        .take(count)
        .count(rt, alloc)
        .ok()?;
    Some((made, left.load(Ordering::SeqCst)))
}

#[test]
fn a_take_behind_a_filter_gets_all_that_it_takes(rt: HostRuntime) {
    for workers in WORKERS {
        let seen = taken_of_some(&rt, rt.alloc(), 100, workers);
        assert!(&rt; seen.is_some_and(|it| it.0 == 100 && it.1 >= 199));
    }
}
