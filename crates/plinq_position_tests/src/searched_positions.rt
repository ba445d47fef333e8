//! Searches of what steps by position leave, by threads and on one thread, beside a plain loop.
ghost use Rattle.std.specs.Prelude.{◌≡◌, int_lt};

use crate::positions::{WORKERS, from_zero, most, refusing};
use plinq_query::{QueryFault, from};
use plinq_slice::SliceSource;
use plinq_source::Ending;
use plinq_testing::numbers;
use std::alloc::Global;
use std::sync::Wait;
use std::sync::atomic::{AtomicU64, Ordering};
use std::test::*;
use std::thread::Threads;
use std::time::Clock;

/// What is looked for after the first items, so many of them.
#[derive(Clone, Copy)]
struct Wanted {
    skipped: u64,
    position: u64,
    item: i64,
    bound: i64,
}

/// The item at the position, whether the item is there, and whether some are below the bound, and all.
#[derive(Clone, Copy, PartialEq, Eq, Debug)]
struct Found {
    at: Option<i64>,
    is_there: bool,
    are_some: bool,
    are_all: bool,
}

fn found_by_threads<R: Clock + Threads + Wait + Sync>(
    rt: &R,
    alloc: Global,
    items: &[i64],
    wanted: Wanted,
    workers: u64,
) -> Option<Found> {
    let bound = wanted.bound;
    let at = from(SliceSource::new(items).ok()?)
        .as_parallel()
        .with_degree(workers)
        .skip(wanted.skipped)
        .element_at(rt, alloc, wanted.position)
        .ok()?;
    let is_there = from(SliceSource::new(items).ok()?)
        .as_parallel()
        .with_degree(workers)
        .skip(wanted.skipped)
        .contains(rt, alloc, wanted.item)
        .ok()?;
    let are_some = from(SliceSource::new(items).ok()?)
        .as_parallel()
        .with_degree(workers)
        .skip(wanted.skipped)
        .any(
            rt,
            alloc,
            |x: i64| -> bool
                ensures { result ≡ int_lt x bound }
            { x < bound },
        )
        .ok()?;
    let are_all = from(SliceSource::new(items).ok()?)
        .as_parallel()
        .with_degree(workers)
        .skip(wanted.skipped)
        .all(
            rt,
            alloc,
            |x: i64| -> bool
                ensures { result ≡ int_lt x bound }
            { x < bound },
        )
        .ok()?;
    Some(Found {
        at,
        is_there,
        are_some,
        are_all,
    })
}

/// The same on one thread.
fn found_on_one_thread(items: &[i64], wanted: Wanted) -> Option<Found> {
    let bound = wanted.bound;
    let at = from(SliceSource::new(items).ok()?)
        .skip(wanted.skipped)
        .element_at(wanted.position)
        .ok()?;
    let is_there = from(SliceSource::new(items).ok()?)
        .skip(wanted.skipped)
        .contains(wanted.item)
        .ok()?;
    let are_some = from(SliceSource::new(items).ok()?)
        .skip(wanted.skipped)
        .any(
            |x: i64| -> bool
                ensures { result ≡ int_lt x bound }
            { x < bound },
        )
        .ok()?;
    let are_all = from(SliceSource::new(items).ok()?)
        .skip(wanted.skipped)
        .all(
            |x: i64| -> bool
                ensures { result ≡ int_lt x bound }
            { x < bound },
        )
        .ok()?;
    Some(Found {
        at,
        is_there,
        are_some,
        are_all,
    })
}

fn found_by_loop(items: &[i64], wanted: Wanted) -> Found {
    let mut found = Found {
        at: None,
        is_there: false,
        are_some: false,
        are_all: true,
    };
    let mut position = 0u64;
    for item in items {
        if wanted.skipped <= position {
            if position - wanted.skipped == wanted.position {
                found.at = Some(*item);
            }
            found.is_there = found.is_there || *item == wanted.item;
            found.are_some = found.are_some || *item < wanted.bound;
            found.are_all = found.are_all && *item < wanted.bound;
        }
        position = position.wrapping_add(1);
    }
    found
}

/// Whether all these are as a loop has them. One of three bounds is above all numbers, and one below.
fn are_as_by_loop<R: Clock + Threads + Wait + Sync>(
    rt: &R,
    alloc: Global,
    seed: u64,
    workers: u64,
) -> bool {
    let Ok(items) = numbers(alloc, seed, seed % 700) else {
        return false;
    };
    let wanted = Wanted {
        skipped: (seed >> 16) % 300,
        position: (seed >> 24) % 300,
        item: ((seed >> 32) % 1_000) as i64,
        bound: ((seed >> 8) % 3 * 1_000) as i64 - 500,
    };
    let found = Some(found_by_loop(&items, wanted));
    found_by_threads(rt, alloc, &items, wanted, workers) == found
        && found_on_one_thread(&items, wanted) == found
}

#[test]
fn what_is_left_is_searched_as_by_a_loop(rt: HostRuntime) {
    for seed in 1..=24u64 {
        let number = seed.wrapping_mul(0x9E37_79B9_7F4A_7C15);
        for workers in WORKERS {
            assert!(&rt;
                are_as_by_loop(&rt, rt.alloc(), number, workers),
                "{seed} {workers}"
            );
        }
    }
}

/// Whether an item that comes early is found before the source is asked for many more: on one thread for none after it.
fn is_early<R: Clock + Threads + Wait + Sync>(
    rt: &R,
    alloc: Global,
    workers: u64,
    left: &AtomicU64,
) -> bool {
    let Ok(source) = from_zero(left) else {
        return false;
    };
    let found = from(source)
        .as_parallel()
        .with_degree(workers)
        .with_growth(1, 3, 512)
        .skip(90)
        .contains(rt, alloc, 92);
    if found != Ok(true) || left.load(Ordering::SeqCst) > most(workers) {
        return false;
    }
    let Ok(source) = from_zero(left) else {
        return false;
    };
    from(source).skip(90).contains(92) == Ok(true) && left.load(Ordering::SeqCst) == 93
}

#[test]
fn a_search_of_what_is_left_leaves_the_source_early(rt: HostRuntime) {
    let left = AtomicU64::new(0);
    for workers in [1, 4] {
        let is_early = is_early(&rt, rt.alloc(), workers, &left);
        let asked_for = left.load(Ordering::SeqCst);
        assert!(&rt; is_early, "{workers} {asked_for}");
    }
}

/// Whether an item is among the first so many but the first one, of 4 and 5 before a refusal, by threads and on one thread.
fn is_second<R: Clock + Threads + Wait + Sync>(
    rt: &R,
    alloc: Global,
    taken: u64,
    item: i64,
    workers: u64,
) -> Option<(Result<bool, QueryFault>, Result<bool, QueryFault>)> {
    let by_threads = from(refusing(alloc)?)
        .as_parallel()
        .with_degree(workers)
        .take(taken)
        .skip(1)
        .contains(rt, alloc, item);
    let alone = from(refusing(alloc)?).take(taken).skip(1).contains(item);
    Some((by_threads, alone))
}

#[test]
fn a_search_meets_a_refusal_if_it_is_undecided(rt: HostRuntime) {
    let refused = QueryFault::Ended(Ending::Refused(7));
    for workers in WORKERS {
        let found = is_second(&rt, rt.alloc(), 3, 5, workers);
        assert!(&rt; found == Some((Ok(true), Ok(true))));
        let skipped = is_second(&rt, rt.alloc(), 2, 4, workers);
        assert!(&rt; skipped == Some((Ok(false), Ok(false))));
        let undecided = is_second(&rt, rt.alloc(), 3, 4, workers);
        assert!(&rt; undecided == Some((Err(refused), Err(refused))));
    }
}
