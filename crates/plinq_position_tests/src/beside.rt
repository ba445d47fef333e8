//! Items beside their positions, and beside those of a list, by threads and on one thread, beside a plain loop.
ghost use Rattle.std.specs.Prelude.{◌≡◌, int_rem, nat_lt, pos};
ghost use Rattle.std.specs.Ordering.{int_eq};

use crate::positions::{WORKERS, from_zero, refusing};
use plinq_query::{QueryFault, from};
use plinq_slice::SliceSource;
use plinq_source::Ending;
use plinq_testing::numbers;
use std::alloc::{AllocError, Global};
use std::sync::Wait;
use std::sync::atomic::{AtomicU64, Ordering};
use std::test::*;
use std::thread::Threads;
use std::time::Clock;

/// The even numbers, each beside its position among them, but those of the first positions.
fn numbered_by_threads<R: Clock + Threads + Wait + Sync>(
    rt: &R,
    alloc: Global,
    items: &[i64],
    from_position: u64,
    workers: u64,
) -> Option<Vec<(u64, i64)>> {
    from(SliceSource::new(items).ok()?)
        .as_parallel()
        .with_degree(workers)
        .with_growth(1, 3, 64)
        .filter(
            |x: i64| -> bool
                ensures { result ≡ int_eq (int_rem x (pos 2)) (pos 0) }
            { x % 2 == 0 },
        )
        .index()
        .filter(
            |p: (u64, i64)| -> bool
                ensures { result ≡ nat_lt from_position p.0 }
            { p.0 > from_position },
        )
        .to_vec(rt, alloc)
        .ok()
}

/// The same on one thread.
fn numbered_on_one_thread(
    alloc: Global,
    items: &[i64],
    from_position: u64,
) -> Option<Vec<(u64, i64)>> {
    from(SliceSource::new(items).ok()?)
        .as_parallel()
        .with_degree(64)
        .as_sequential()
        .filter(
            |x: i64| -> bool
                ensures { result ≡ int_eq (int_rem x (pos 2)) (pos 0) }
            { x % 2 == 0 },
        )
        .index()
        .filter(
            |p: (u64, i64)| -> bool
                ensures { result ≡ nat_lt from_position p.0 }
            { p.0 > from_position },
        )
        .to_vec(alloc)
        .ok()
}

fn numbered_by_loop(
    alloc: Global,
    items: &[i64],
    from_position: u64,
) -> Result<Vec<(u64, i64)>, AllocError> {
    let mut left = Vec::new(alloc);
    let mut position = 0u64;
    for item in items {
        if *item % 2 == 0 {
            if position > from_position {
                left.push((position, *item))?;
            }
            position = position.wrapping_add(1);
        }
    }
    Ok(left)
}

/// Numbers beside other ones, after some were skipped.
fn zipped_by_threads<R: Clock + Threads + Wait + Sync>(
    rt: &R,
    alloc: Global,
    items: &[i64],
    with: &[u8],
    skipped: u64,
    workers: u64,
) -> Option<Vec<(i64, u8)>> {
    from(SliceSource::new(items).ok()?)
        .as_parallel()
        .with_degree(workers)
        .skip(skipped)
        .zip(with)
        .to_vec(rt, alloc)
        .ok()
}

/// The same on one thread.
fn zipped_on_one_thread(
    alloc: Global,
    items: &[i64],
    with: &[u8],
    skipped: u64,
) -> Option<Vec<(i64, u8)>> {
    from(SliceSource::new(items).ok()?)
        .skip(skipped)
        .zip(with)
        .to_vec(alloc)
        .ok()
}

fn zipped_by_loop(
    alloc: Global,
    items: &[i64],
    with: &[u8],
    skipped: usize,
) -> Result<Vec<(i64, u8)>, AllocError> {
    let mut pairs = Vec::new(alloc);
    let mut others = with.iter();
    for item in items.iter().skip(skipped) {
        match others.next() {
            Some(other) => pairs.push((*item, *other))?,
            None => return Ok(pairs),
        }
    }
    Ok(pairs)
}

#[test]
fn items_stand_beside_their_positions(rt: HostRuntime) {
    for count in [0u64, 1, 2, 300] {
        let Ok(items) = numbers(rt.alloc(), 77, count) else {
            panic!(rt; "no numbers");
        };
        for from_position in [0u64, 5, 1_000] {
            let Ok(wanted) = numbered_by_loop(rt.alloc(), items.as_slice(), from_position) else {
                panic!(rt; "no list");
            };
            let alone = numbered_on_one_thread(rt.alloc(), items.as_slice(), from_position);
            assert!(&rt; alone.is_some_and(|it| it == wanted));
            for workers in WORKERS {
                let by_threads = numbered_by_threads(
                    &rt,
                    rt.alloc(),
                    items.as_slice(),
                    from_position,
                    workers,
                );
                assert!(&rt; by_threads.is_some_and(|it| it == wanted));
            }
        }
    }
}

#[test]
fn items_stand_beside_those_of_a_list(rt: HostRuntime) {
    let letters = [7u8, 1, 9, 9, 4];
    for count in [0u64, 1, 5, 300] {
        let Ok(items) = numbers(rt.alloc(), 99, count) else {
            panic!(rt; "no numbers");
        };
        for skipped in [0usize, 2, 298] {
            for with in [&letters[..0], &letters[..1], &letters[..]] {
                let Ok(wanted) = zipped_by_loop(rt.alloc(), items.as_slice(), with, skipped) else {
                    panic!(rt; "no list");
                };
                let alone = zipped_on_one_thread(
                    rt.alloc(),
                    items.as_slice(),
                    with,
                    skipped as u64,
                );
                assert!(&rt; alone.is_some_and(|it| it == wanted));
                for workers in WORKERS {
                    let by_threads = zipped_by_threads(
                        &rt,
                        rt.alloc(),
                        items.as_slice(),
                        with,
                        skipped as u64,
                        workers,
                    );
                    assert!(&rt; by_threads.is_some_and(|it| it == wanted));
                }
            }
        }
    }
}

/// How many of some numbers stand beside those of a list, and how many were asked for.
fn asked_beside<R: Clock + Threads + Wait + Sync>(
    rt: &R,
    alloc: Global,
    with: &[u8],
    workers: u64,
) -> Option<(u64, u64)> {
    let left = AtomicU64::new(0);
    let made = from(from_zero(&left).ok()?)
        .as_parallel()
        .with_degree(workers)
        .index()
        .zip(with)
        .count(rt, alloc)
        .ok()?;
    Some((made, left.load(Ordering::SeqCst)))
}

/// How a source that refuses ends beside a list: two numbers come before it does.
fn refused_beside<R: Clock + Threads + Wait + Sync>(
    rt: &R,
    alloc: Global,
    with: &[u8],
    workers: u64,
) -> Option<Result<u64, QueryFault>> {
    Some(
        from(refusing(alloc)?)
            .as_parallel()
            .with_degree(workers)
            .zip(with)
            .count(rt, alloc),
    )
}

#[test]
fn a_source_is_asked_for_as_many_items_as_a_list_has(rt: HostRuntime) {
    let letters = [7u8, 1, 9];
    for workers in WORKERS {
        assert!(&rt; asked_beside(&rt, rt.alloc(), &letters, workers) == Some((3, 3)));
        assert!(&rt; asked_beside(&rt, rt.alloc(), &letters[..0], workers) == Some((0, 0)));
        let two = refused_beside(&rt, rt.alloc(), &letters[..2], workers);
        assert!(&rt; two == Some(Ok(2)));
        let three = refused_beside(&rt, rt.alloc(), &letters, workers);
        assert!(&rt; three == Some(Err(QueryFault::Ended(Ending::Refused(7)))));
    }
}
