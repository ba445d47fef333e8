//! Steps of typed queries that go by an item's position, by threads and on one thread, beside a plain loop.
ghost use Rattle.std.specs.Prelude.{◌≡◌, int_lt, int_rem, pos, IfOk, IfSome};
ghost use Rattle.std.specs.Ordering.{int_eq};
ghost use Rattle.plinq_source.specs.Walked.{list_given, range_given};

use plinq_aggregate::Sum;
use plinq_groups::Groups;
use plinq_query::{QueryFault, from};
use plinq_slice::SliceSource;
use plinq_source::{Ending, ListSource, RangeSource, SourceFault};
use plinq_testing::{Asked, CHUNK, most_ahead, numbers};
use std::alloc::{AllocError, Global};
use std::sync::Wait;
use std::sync::atomic::{AtomicU64, Ordering};
use std::test::*;
use std::thread::Threads;
use std::time::Clock;

pub(crate) const WORKERS: [u64; 4] = [1, 2, 8, 64];

/// What is asked: how many are skipped, and how many taken of the rest, of the even numbers; and from which number on, and up to
/// which, of all.
#[derive(Clone, Copy)]
struct Wanted {
    skipped: u64,
    taken: u64,
    from: i64,
    to: i64,
}

/// The even numbers but the first ones, and of the rest the first ones.
fn window_by_threads<R: Clock + Threads + Wait + Sync>(
    rt: &R,
    alloc: Global,
    items: &[i64],
    wanted: Wanted,
    workers: u64,
) -> Result<Vec<i64>, QueryFault> {
    let Ok(source) = SliceSource::new(items) else {
        return Err(QueryFault::Degree);
    };
    from(source)
        .as_parallel()
        .with_degree(workers)
        .with_growth(1, 3, 64)
        .filter(
            |x: i64| -> bool
                ensures { result ≡ int_eq (int_rem x (pos 2)) (pos 0) }
            { x % 2 == 0 },
        )
        .skip(wanted.skipped)
        .take(wanted.taken)
        .to_vec(rt, alloc)
}

/// The same on one thread.
fn window_on_one_thread(
    alloc: Global,
    items: &[i64],
    wanted: Wanted,
) -> Result<Vec<i64>, QueryFault> {
    let Ok(source) = SliceSource::new(items) else {
        return Err(QueryFault::Degree);
    };
    from(source)
        .filter(
            |x: i64| -> bool
                ensures { result ≡ int_eq (int_rem x (pos 2)) (pos 0) }
            { x % 2 == 0 },
        )
        .skip(wanted.skipped)
        .take(wanted.taken)
        .to_vec(alloc)
}

fn window_by_loop(alloc: Global, items: &[i64], wanted: Wanted) -> Result<Vec<i64>, AllocError> {
    let mut left = Vec::new(alloc);
    let mut position = 0u64;
    for item in items {
        if *item % 2 == 0 {
            if wanted.skipped <= position && position - wanted.skipped < wanted.taken {
                left.push(*item)?;
            }
            position = position.wrapping_add(1);
        }
    }
    Ok(left)
}

/// The even number at a position, by threads and on one thread.
fn at_position<R: Clock + Threads + Wait + Sync>(
    rt: &R,
    alloc: Global,
    items: &[i64],
    position: u64,
    workers: u64,
) -> Option<(Option<i64>, Option<i64>)> {
    let by_threads = from(SliceSource::new(items).ok()?)
        .as_parallel()
        .with_degree(workers)
        .filter(
            |x: i64| -> bool
                ensures { result ≡ int_eq (int_rem x (pos 2)) (pos 0) }
            { x % 2 == 0 },
        )
        .element_at(rt, alloc, position)
        .ok()?;
    let alone = from(SliceSource::new(items).ok()?)
        .filter(
            |x: i64| -> bool
                ensures { result ≡ int_eq (int_rem x (pos 2)) (pos 0) }
            { x % 2 == 0 },
        )
        .element_at(position)
        .ok()?;
    Some((by_threads, alone))
}

/// Of the numbers from the first that isn't below a bound on: how many end in 3 up to the first that isn't below another bound,
/// and the first one; and the sum of a window of all, by threads.
fn stretch_by_threads<R: Clock + Threads + Wait + Sync>(
    rt: &R,
    alloc: Global,
    items: &[i64],
    wanted: Wanted,
    workers: u64,
) -> Option<(u64, Option<i64>, i128)> {
    let (low, high) = (wanted.from, wanted.to);
    let count = from(SliceSource::new(items).ok()?)
        .as_parallel()
        .with_degree(workers)
        .skip_while(
            |x: i64| -> bool
                ensures { result ≡ int_lt x low }
            { x < low },
        )
        .take_while(
            |x: i64| -> bool
                ensures { result ≡ int_lt x high }
            { x < high },
        )
        .filter(
            |x: i64| -> bool
                ensures { result ≡ int_eq (int_rem x (pos 10)) (pos 3) }
            { x % 10 == 3 },
        )
        .count(rt, alloc)
        .ok()?;
    let first = from(SliceSource::new(items).ok()?)
        .as_parallel()
        .with_degree(workers)
        .skip_while(
            |x: i64| -> bool
                ensures { result ≡ int_lt x low }
            { x < low },
        )
        .first(rt, alloc)
        .ok()?;
    let sum = from(SliceSource::new(items).ok()?)
        .as_parallel()
        .with_degree(workers)
        .skip(wanted.skipped)
        .take(wanted.taken)
        .aggregate(rt, alloc, Sum)
        .ok()?;
    Some((count, first, sum))
}

/// The same on one thread.
fn stretch_on_one_thread(
    alloc: Global,
    items: &[i64],
    wanted: Wanted,
) -> Option<(u64, Option<i64>, i128)> {
    let (low, high) = (wanted.from, wanted.to);
    let count = from(SliceSource::new(items).ok()?)
        .skip_while(
            |x: i64| -> bool
                ensures { result ≡ int_lt x low }
            { x < low },
        )
        .take_while(
            |x: i64| -> bool
                ensures { result ≡ int_lt x high }
            { x < high },
        )
        .filter(
            |x: i64| -> bool
                ensures { result ≡ int_eq (int_rem x (pos 10)) (pos 3) }
            { x % 10 == 3 },
        )
        .count(alloc)
        .ok()?;
    let first = from(SliceSource::new(items).ok()?)
        .skip_while(
            |x: i64| -> bool
                ensures { result ≡ int_lt x low }
            { x < low },
        )
        .first()
        .ok()?;
    let sum = from(SliceSource::new(items).ok()?)
        .skip(wanted.skipped)
        .take(wanted.taken)
        .aggregate(alloc, Sum)
        .ok()?;
    Some((count, first, sum))
}

fn stretch_by_loop(items: &[i64], wanted: Wanted) -> (u64, Option<i64>, i128) {
    let mut is_past = false;
    let mut is_over = false;
    let mut count = 0u64;
    let mut first = None;
    let mut sum = 0i128;
    let mut position = 0u64;
    for item in items {
        if !is_past && *item >= wanted.from {
            is_past = true;
            first = Some(*item);
        }
        is_over = is_over || (is_past && *item >= wanted.to);
        if is_past && !is_over && *item % 10 == 3 {
            count = count.wrapping_add(1);
        }
        if wanted.skipped <= position && position - wanted.skipped < wanted.taken {
            sum = sum.wrapping_add(i128::from(*item));
        }
        position = position.wrapping_add(1);
    }
    (count, first, sum)
}

fn is_list(found: &Result<Vec<i64>, QueryFault>, wanted: &[i64]) -> bool {
    match found {
        Ok(list) => list.as_slice() == wanted,
        Err(_) => false,
    }
}

/// Whether all these are as a loop has them.
fn are_as_by_loop<R: Clock + Threads + Wait + Sync>(
    rt: &R,
    alloc: Global,
    seed: u64,
    workers: u64,
) -> bool {
    let Ok(items) = numbers(alloc, seed, seed % 700) else {
        return false;
    };
    let low = ((seed >> 8) % 1_000) as i64;
    let wanted = Wanted {
        skipped: (seed >> 16) % 300,
        taken: (seed >> 24) % 300,
        from: low,
        to: low + ((seed >> 32) % 1_000) as i64,
    };
    let Ok(window) = window_by_loop(alloc, &items, wanted) else {
        return false;
    };
    let one = Wanted { taken: 1, ..wanted };
    let Ok(one) = window_by_loop(alloc, &items, one) else {
        return false;
    };
    let at = one.first().copied();
    let stretch = Some(stretch_by_loop(&items, wanted));
    is_list(
        &window_by_threads(rt, alloc, &items, wanted, workers),
        &window,
    ) && is_list(&window_on_one_thread(alloc, &items, wanted), &window)
        && at_position(rt, alloc, &items, wanted.skipped, workers) == Some((at, at))
        && stretch_by_threads(rt, alloc, &items, wanted, workers) == stretch
        && stretch_on_one_thread(alloc, &items, wanted) == stretch
}

#[test]
fn steps_by_position_leave_what_a_loop_does(rt: HostRuntime) {
    for seed in 1..=24u64 {
        let number = seed.wrapping_mul(0x9E37_79B9_7F4A_7C15);
        for workers in WORKERS {
            assert!(&rt; are_as_by_loop(&rt, rt.alloc(), number, workers));
        }
    }
}

/// Whether these are the groups by last digit of the numbers from 10 to 34, in the order of their first, with their sums.
fn are_by_digit(groups: &Groups<i64, i128>) -> bool {
    let mut digit = 0i64;
    for (key, sum) in groups.as_map() {
        // (those that end in 0 to 4 are three)
        let wanted = if digit < 5 {
            digit.wrapping_mul(3).wrapping_add(60)
        } else {
            digit.wrapping_mul(2).wrapping_add(30)
        };
        if *key != digit || *sum != i128::from(wanted) {
            return false;
        }
        digit = digit.wrapping_add(1);
    }
    digit == 10
}

/// Whether the groups of what is left of numbers are right, by threads and on one thread.
fn are_groups_right<R: Clock + Threads + Wait + Sync>(
    rt: &R,
    alloc: Global,
    workers: u64,
) -> Option<bool> {
    let groups = from(RangeSource::new(0, 100).ok()?)
        .as_parallel()
        .with_degree(workers)
        .skip(10)
        .take(25)
        .select(
            |x: i64| -> (i64, i64)
                ensures { result ≡ (int_rem x (pos 10), x) }
            { (x % 10, x) },
        )
        .group_by(rt, alloc, Sum)
        .ok()?;
    let alone = from(RangeSource::new(0, 100).ok()?)
        .skip(10)
        .take(25)
        .select(
            |x: i64| -> (i64, i64)
                ensures { result ≡ (int_rem x (pos 10), x) }
            { (x % 10, x) },
        )
        .group_by(alloc, Sum)
        .ok()?;
    Some(are_by_digit(&groups) && are_by_digit(&alone))
}

#[test]
fn groups_are_of_what_is_left(rt: HostRuntime) {
    for workers in WORKERS {
        let are_right = are_groups_right(&rt, rt.alloc(), workers);
        assert!(&rt; are_right == Some(true));
    }
}

/// How many items leave at most: those up to the chunk with the one that decides, and those that so many workers may be ahead of
/// it.
pub(crate) fn most(workers: u64) -> u64 {
    CHUNK.saturating_add(most_ahead(workers))
}

/// A range of which none has left.
pub(crate) fn from_zero(left: &AtomicU64) -> Result<Asked<'_, RangeSource>, SourceFault>
    ensures { IfOk result (λ s. range_given s.source ≡ 0) }
{
    left.store(0, Ordering::SeqCst);
    match RangeSource::new(0, 10_000_000) {
        Ok(source) => Ok(Asked {
            source,
            times: left,
        }),
        Err(fault) => Err(fault),
    }
}

/// Whether a window of numbers, and those below a bound, are there before the source is asked for many more.
fn is_early<R: Clock + Threads + Wait + Sync>(
    rt: &R,
    alloc: Global,
    workers: u64,
    left: &AtomicU64,
) -> bool {
    let Ok(source) = from_zero(left) else {
        return false;
    };
    let window = from(source)
        .as_parallel()
        .with_degree(workers)
        .with_growth(1, 3, 512)
        .skip(90)
        .take(3)
        .to_vec(rt, alloc);
    if !is_list(&window, &[90, 91, 92]) || left.load(Ordering::SeqCst) > most(workers) {
        return false;
    }
    let Ok(source) = from_zero(left) else {
        return false;
    };
    let count = from(source)
        .as_parallel()
        .with_degree(workers)
        .with_growth(1, 3, 512)
        .take_while(
            |x: i64| -> bool
                ensures { result ≡ int_lt x (pos 100) }
            { x < 100 },
        )
        .count(rt, alloc);
    count == Ok(100) && left.load(Ordering::SeqCst) <= most(workers)
}

/// Whether on one thread no item after the one that decides is asked for, and none at all if none is wanted.
fn is_left_at_once(alloc: Global, left: &AtomicU64) -> bool {
    let Ok(source) = from_zero(left) else {
        return false;
    };
    let window = from(source).skip(90).take(3).to_vec(alloc);
    if !is_list(&window, &[90, 91, 92]) || left.load(Ordering::SeqCst) != 93 {
        return false;
    }
    let Ok(source) = from_zero(left) else {
        return false;
    };
    let count = from(source)
        .take_while(
            |x: i64| -> bool
                ensures { result ≡ int_lt x (pos 100) }
            { x < 100 },
        )
        .count(alloc);
    if count != Ok(100) || left.load(Ordering::SeqCst) != 101 {
        return false;
    }
    let Ok(source) = from_zero(left) else {
        return false;
    };
    from(source).skip(1).take(0).count(alloc) == Ok(0) && left.load(Ordering::SeqCst) == 0
}

#[test]
fn steps_by_position_leave_the_source_once_they_are_decided(rt: HostRuntime) {
    let left = AtomicU64::new(0);
    for workers in [1, 4] {
        let is_early = is_early(&rt, rt.alloc(), workers, &left);
        let asked_for = left.load(Ordering::SeqCst);
        assert!(&rt; is_early, "{workers} {asked_for}");
    }
    assert!(&rt; is_left_at_once(rt.alloc(), &left));
}

/// A source that gives 4 and 5 and then refuses with 7.
pub(crate) fn refusing(alloc: Global) -> Option<ListSource<i64>>
    ensures { IfSome result (λ s. list_given s ≡ 0) }
{
    let mut items = Vec::new(alloc);
    items.push(4i64).ok()?;
    items.push(5i64).ok()?;
    Some(ListSource::refusing(alloc, items, 7))
}

/// What is counted before a refusal: of the first so many, and of those below a bound.
fn counts_before_a_refusal<R: Clock + Threads + Wait + Sync>(
    rt: &R,
    alloc: Global,
    taken: u64,
    bound: i64,
    workers: u64,
) -> Option<(Result<u64, QueryFault>, Result<u64, QueryFault>)> {
    let first = from(refusing(alloc)?)
        .as_parallel()
        .with_degree(workers)
        .take(taken)
        .count(rt, alloc);
    let below = from(refusing(alloc)?)
        .as_parallel()
        .with_degree(workers)
        .take_while(
            |x: i64| -> bool
                ensures { result ≡ int_lt x bound }
            { x < bound },
        )
        .count(rt, alloc);
    Some((first, below))
}

/// The same on one thread.
fn counts_alone(
    alloc: Global,
    taken: u64,
    bound: i64,
) -> Option<(Result<u64, QueryFault>, Result<u64, QueryFault>)> {
    let first = from(refusing(alloc)?).take(taken).count(alloc);
    let below = from(refusing(alloc)?)
        .take_while(
            |x: i64| -> bool
                ensures { result ≡ int_lt x bound }
            { x < bound },
        )
        .count(alloc);
    Some((first, below))
}

/// The first after the first one, and after the first two, of which the second is refused.
fn firsts_alone(
    alloc: Global,
) -> Option<
    (
        Result<Option<i64>, QueryFault>,
        Result<Option<i64>, QueryFault>,
    ),
> {
    let second = from(refusing(alloc)?).skip(1).first();
    let third = from(refusing(alloc)?).skip(2).first();
    Some((second, third))
}

#[test]
fn a_refusal_is_met_unless_all_is_decided_before(rt: HostRuntime) {
    let refused = QueryFault::Ended(Ending::Refused(7));
    let alloc = rt.alloc();
    for workers in WORKERS {
        let decided = counts_before_a_refusal(&rt, alloc, 2, 5, workers);
        assert!(&rt; decided == Some((Ok(2), Ok(1))));
        let undecided = counts_before_a_refusal(&rt, alloc, 3, 6, workers);
        assert!(&rt; undecided == Some((Err(refused), Err(refused))));
    }
    let decided = counts_alone(alloc, 2, 5);
    assert!(&rt; decided == Some((Ok(2), Ok(1))));
    let undecided = counts_alone(alloc, 3, 6);
    assert!(&rt; undecided == Some((Err(refused), Err(refused))));
    let firsts = firsts_alone(alloc);
    assert!(&rt; firsts == Some((Ok(Some(5)), Err(refused))));
}

/// What a number of workers that can't be had gives, though none is wanted.
fn by_none<R: Clock + Threads + Wait + Sync>(rt: &R, alloc: Global) -> Option<QueryFault> {
    from(RangeSource::new(0, 9).ok()?)
        .as_parallel()
        .with_degree(0)
        .take(0)
        .count(rt, alloc)
        .err()
}

#[test]
fn a_wrong_number_of_workers_is_refused_though_nothing_is_wanted(rt: HostRuntime) {
    let fault = by_none(&rt, rt.alloc());
    assert!(&rt; fault == Some(QueryFault::Degree));
}
