//! The greatest of what a query makes, by threads and on one thread, beside a list that is kept in order.
ghost use Rattle.std.specs.Prelude.{◌≡◌, int_rem, pos};

use crate::queries::WORKERS;
use plinq_query::{QueryFault, from};
use plinq_slice::SliceSource;
use plinq_testing::numbers;
use std::alloc::{AllocError, Global};
use std::sync::Wait;
use std::test::*;
use std::thread::Threads;
use std::time::Clock;

/// The numbers with the greatest last digits, so many, each behind its digit.
fn greatest_by_threads<R: Clock + Threads + Wait + Sync>(
    rt: &R,
    alloc: Global,
    items: &[i64],
    count: usize,
    workers: u64,
) -> Result<Vec<(i64, i64)>, QueryFault> {
    let Ok(source) = SliceSource::new(items) else {
        return Err(QueryFault::Degree);
    };
    from(source)
        .as_parallel()
        .with_degree(workers)
        .with_growth(1, 3, 64)
        .select(
            |x: i64| -> (i64, i64)
                ensures { result ≡ (int_rem x (pos 10), x) }
            { (x % 10, x) },
        )
        .top(rt, alloc, count)
}

/// The same on one thread.
fn greatest_alone(
    alloc: Global,
    items: &[i64],
    count: usize,
) -> Result<Vec<(i64, i64)>, QueryFault> {
    let Ok(source) = SliceSource::new(items) else {
        return Err(QueryFault::Degree);
    };
    from(source)
        .select(
            |x: i64| -> (i64, i64)
                ensures { result ≡ (int_rem x (pos 10), x) }
            { (x % 10, x) },
        )
        .top(alloc, count)
}

/// The same of all but the first numbers, so many, by threads.
fn greatest_after<R: Clock + Threads + Wait + Sync>(
    rt: &R,
    alloc: Global,
    items: &[i64],
    skipped: u64,
    count: usize,
    workers: u64,
) -> Result<Vec<(i64, i64)>, QueryFault> {
    let Ok(source) = SliceSource::new(items) else {
        return Err(QueryFault::Degree);
    };
    from(source)
        .as_parallel()
        .with_degree(workers)
        .select(
            |x: i64| -> (i64, i64)
                ensures { result ≡ (int_rem x (pos 10), x) }
            { (x % 10, x) },
        )
        .skip(skipped)
        .top(rt, alloc, count)
}

/// The same on one thread.
fn greatest_after_alone(
    alloc: Global,
    items: &[i64],
    skipped: u64,
    count: usize,
) -> Result<Vec<(i64, i64)>, QueryFault> {
    let Ok(source) = SliceSource::new(items) else {
        return Err(QueryFault::Degree);
    };
    from(source)
        .select(
            |x: i64| -> (i64, i64)
                ensures { result ≡ (int_rem x (pos 10), x) }
            { (x % 10, x) },
        )
        .skip(skipped)
        .top(alloc, count)
}

/// The numbers after the first ones by falling last digit, of equal digits in their order, but no more than so many.
fn greatest_by_loop(
    alloc: Global,
    items: &[i64],
    skipped: u64,
    count: usize,
) -> Result<Vec<(i64, i64)>, AllocError> {
    let mut greatest = Vec::new(alloc);
    for back in 0..10i64 {
        let mut position = 0u64;
        for item in items {
            let digit = *item % 10;
            if position >= skipped && digit == 9i64.wrapping_sub(back) && greatest.len() < count {
                greatest.push((digit, *item))?;
            }
            position = position.wrapping_add(1);
        }
    }
    Ok(greatest)
}

fn is_list(found: &Result<Vec<(i64, i64)>, QueryFault>, wanted: &[(i64, i64)]) -> bool {
    match found {
        Ok(list) => list.as_slice() == wanted,
        Err(_) => false,
    }
}

/// Whether all these are as a loop has them.
fn are_as_by_loop<R: Clock + Threads + Wait + Sync>(
    rt: &R,
    alloc: Global,
    seed: u64,
    workers: u64,
) -> bool {
    let count = ((seed >> 16) % 12) as usize;
    let skipped = (seed >> 24) % 300;
    let Ok(items) = numbers(alloc, seed, seed % 700) else {
        return false;
    };
    let Ok(all) = greatest_by_loop(alloc, &items, 0, count) else {
        return false;
    };
    let Ok(left) = greatest_by_loop(alloc, &items, skipped, count) else {
        return false;
    };
    is_list(
        &greatest_by_threads(rt, alloc, &items, count, workers),
        &all,
    ) && is_list(&greatest_alone(alloc, &items, count), &all)
        && is_list(
            &greatest_after(rt, alloc, &items, skipped, count, workers),
            &left,
        )
        && is_list(&greatest_after_alone(alloc, &items, skipped, count), &left)
}

#[test]
fn the_greatest_are_as_a_loop_has_them(rt: HostRuntime) {
    for seed in 1..=24u64 {
        let number = seed.wrapping_mul(0x9E37_79B9_7F4A_7C15);
        for workers in WORKERS {
            assert!(&rt;
                are_as_by_loop(&rt, rt.alloc(), number, workers),
                "{seed} {workers}"
            );
        }
    }
}
