//! Searches of typed queries, and what sinks and closures get of them, by threads and on one thread, beside a plain loop.
ghost use Rattle.std.specs.Prelude.{◌≡◌, int_lt, int_rem, nat_lt, pos, IfOk, IfSome};
ghost use Rattle.std.specs.Int.{cast_unsigned, w64};
ghost use Rattle.std.specs.Ordering.{int_eq};
ghost use Rattle.plinq_source.specs.Walked.{list_given, range_given};

use crate::queries::WORKERS;
use plinq_collect::Collect;
use plinq_enumerator::GrowthFault;
use plinq_ops::MergeOption;
use plinq_query::{QueryFault, from};
use plinq_run::RunFault;
use plinq_slice::SliceSource;
use plinq_source::{Ending, ListSource, RangeSource, SourceFault};
use plinq_testing::{Asked, CHUNK, Sizes, are_sizes, most_ahead, note, numbers};
use std::alloc::Global;
use std::sync::Wait;
use std::sync::atomic::{AtomicU64, Ordering};
use std::test::*;
use std::thread::Threads;
use std::time::Clock;

/// The first of the numbers that 3 divides, and its double.
fn first_by_threads<R: Clock + Threads + Wait + Sync>(
    rt: &R,
    alloc: Global,
    items: &[i64],
    workers: u64,
) -> Result<Option<(i64, u64)>, QueryFault> {
    let Ok(source) = SliceSource::new(items) else {
        return Err(QueryFault::Degree);
    };
    from(source)
        .as_parallel()
        .with_degree(workers)
        .filter(
            |x: i64| -> bool
                ensures { result ≡ int_eq (int_rem x (pos 3)) (pos 0) }
            { x % 3 == 0 },
        )
        .select(
            |x: i64| -> (i64, u64)
                ensures { result ≡ (x, cast_unsigned w64 x) }
            { (x, x.cast_unsigned()) },
        )
        .first(rt, alloc)
}

/// The same on one thread.
fn first_on_one_thread(items: &[i64]) -> Result<Option<(i64, u64)>, QueryFault> {
    let Ok(source) = SliceSource::new(items) else {
        return Err(QueryFault::Degree);
    };
    from(source)
        .filter(
            |x: i64| -> bool
                ensures { result ≡ int_eq (int_rem x (pos 3)) (pos 0) }
            { x % 3 == 0 },
        )
        .select(
            |x: i64| -> (i64, u64)
                ensures { result ≡ (x, cast_unsigned w64 x) }
            { (x, x.cast_unsigned()) },
        )
        .first()
}

/// Whether the doubled numbers have this one, whether some is below it, and whether all are.
fn found_by_threads<R: Clock + Threads + Wait + Sync>(
    rt: &R,
    alloc: Global,
    items: &[i64],
    bound: u64,
    workers: u64,
) -> Option<(bool, bool, bool)> {
    let at_bound = from(SliceSource::new(items).ok()?)
        .as_parallel()
        .with_degree(workers)
        .select(
            |x: i64| -> u64
                ensures { result ≡ cast_unsigned w64 x }
            { x.cast_unsigned() },
        )
        .contains(rt, alloc, bound)
        .ok()?;
    let below = from(SliceSource::new(items).ok()?)
        .as_parallel()
        .with_degree(workers)
        .with_growth(1, 1, 7)
        .select(
            |x: i64| -> u64
                ensures { result ≡ cast_unsigned w64 x }
            { x.cast_unsigned() },
        )
        .any(
            rt,
            alloc,
            |y: u64| -> bool
                ensures { result ≡ nat_lt y bound }
            { y < bound },
        )
        .ok()?;
    let all_below = from(SliceSource::new(items).ok()?)
        .as_parallel()
        .with_degree(workers)
        .select(
            |x: i64| -> u64
                ensures { result ≡ cast_unsigned w64 x }
            { x.cast_unsigned() },
        )
        .all(
            rt,
            alloc,
            |y: u64| -> bool
                ensures { result ≡ nat_lt y bound }
            { y < bound },
        )
        .ok()?;
    Some((at_bound, below, all_below))
}

/// The same on one thread.
fn found_on_one_thread(items: &[i64], bound: u64) -> Option<(bool, bool, bool)> {
    let at_bound = from(SliceSource::new(items).ok()?)
        .select(
            |x: i64| -> u64
                ensures { result ≡ cast_unsigned w64 x }
            { x.cast_unsigned() },
        )
        .contains(bound)
        .ok()?;
    let below = from(SliceSource::new(items).ok()?)
        .select(
            |x: i64| -> u64
                ensures { result ≡ cast_unsigned w64 x }
            { x.cast_unsigned() },
        )
        .any(
            |y: u64| -> bool
                ensures { result ≡ nat_lt y bound }
            { y < bound },
        )
        .ok()?;
    let all_below = from(SliceSource::new(items).ok()?)
        .select(
            |x: i64| -> u64
                ensures { result ≡ cast_unsigned w64 x }
            { x.cast_unsigned() },
        )
        .all(
            |y: u64| -> bool
                ensures { result ≡ nat_lt y bound }
            { y < bound },
        )
        .ok()?;
    Some((at_bound, below, all_below))
}

fn first_by_loop(items: &[i64]) -> Option<(i64, u64)> {
    for item in items {
        if *item % 3 == 0 {
            return Some((*item, item.cast_unsigned()));
        }
    }
    None
}

fn found_by_loop(items: &[i64], bound: u64) -> (bool, bool, bool) {
    let mut found = (false, false, true);
    for item in items {
        let item = item.cast_unsigned();
        found = (
            found.0 || item == bound,
            found.1 || item < bound,
            found.2 && item < bound,
        );
    }
    found
}

fn are_found<R: Clock + Threads + Wait + Sync>(
    rt: &R,
    alloc: Global,
    seed: u64,
    workers: u64,
) -> bool {
    let Ok(items) = numbers(alloc, seed, seed % 700) else {
        return false;
    };
    // (some bounds are met, some are below and some above all numbers)
    let bound = (seed >> 8) % 1_100;
    first_by_threads(rt, alloc, &items, workers) == Ok(first_by_loop(&items))
        && first_on_one_thread(&items) == Ok(first_by_loop(&items))
        && found_by_threads(rt, alloc, &items, bound, workers) == Some(found_by_loop(&items, bound))
        && found_on_one_thread(&items, bound) == Some(found_by_loop(&items, bound))
}

#[test]
fn searches_by_chance_find_what_a_loop_does(rt: HostRuntime) {
    for seed in 1..=24u64 {
        let number = seed.wrapping_mul(0x9E37_79B9_7F4A_7C15);
        for workers in WORKERS {
            assert!(&rt; are_found(&rt, rt.alloc(), number, workers));
        }
    }
}

/// How many items leave at most: those up to the chunk with the one that decides, and those that so many workers may be ahead of
/// it.
fn most(workers: u64) -> u64 {
    CHUNK.saturating_add(most_ahead(workers))
}

/// The range of which the first hundred decide what is asked, of which none has left.
fn from_zero(left: &AtomicU64) -> Result<Asked<'_, RangeSource>, SourceFault>
    ensures { IfOk result (λ s. range_given s.source ≡ 0) }
{
    left.store(0, Ordering::SeqCst);
    match RangeSource::new(0, 10_000_000) {
        Ok(source) => Ok(Asked {
            source,
            times: left,
        }),
        Err(fault) => Err(fault),
    }
}

/// Whether a search by threads finds the hundredth number, and leaves its source then.
fn is_early<R: Clock + Threads + Wait + Sync>(
    rt: &R,
    alloc: Global,
    workers: u64,
    left: &AtomicU64,
) -> bool {
    let Ok(source) = from_zero(left) else {
        return false;
    };
    let first = from(source)
        .as_parallel()
        .with_degree(workers)
        .with_growth(1, 3, 512)
        .filter(
            |x: i64| -> bool
                ensures { result ≡ int_lt (pos 99) x }
            { x > 99 },
        )
        .first(rt, alloc);
    if first != Ok(Some(100)) || left.load(Ordering::SeqCst) > most(workers) {
        return false;
    }
    let Ok(source) = from_zero(left) else {
        return false;
    };
    let all = from(source)
        .as_parallel()
        .with_degree(workers)
        .with_growth(1, 3, 512)
        .all(
            rt,
            alloc,
            |x: i64| -> bool
                ensures { result ≡ int_lt x (pos 100) }
            { x < 100 },
        );
    all == Ok(false) && left.load(Ordering::SeqCst) <= most(workers)
}

/// Whether a search on one thread asks for no item after the one that decides.
fn is_left_at_once(left: &AtomicU64) -> bool {
    let Ok(source) = from_zero(left) else {
        return false;
    };
    let first = from(source)
        .filter(
            |x: i64| -> bool
                ensures { result ≡ int_lt (pos 99) x }
            { x > 99 },
        )
        .first();
    if first != Ok(Some(100)) || left.load(Ordering::SeqCst) != 101 {
        return false;
    }
    let Ok(source) = from_zero(left) else {
        return false;
    };
    from(source).contains(7) == Ok(true) && left.load(Ordering::SeqCst) == 8
}

#[test]
fn a_search_leaves_its_source_once_the_answer_is_known(rt: HostRuntime) {
    let left = AtomicU64::new(0);
    for workers in [1, 4] {
        let is_early = is_early(&rt, rt.alloc(), workers, &left);
        let asked_for = left.load(Ordering::SeqCst);
        assert!(&rt; is_early, "{workers} {asked_for}");
    }
    assert!(&rt; is_left_at_once(&left));
}

/// A source that gives 4 and 5 and then refuses with 7.
fn refusing(alloc: Global) -> Option<ListSource<i64>>
    ensures { IfSome result (λ s. list_given s ≡ 0) }
{
    let mut items = Vec::new(alloc);
    items.push(4i64).ok()?;
    items.push(5i64).ok()?;
    Some(ListSource::refusing(alloc, items, 7))
}

/// What a search for a number above this one finds before a refusal.
fn above_before_a_refusal<R: Clock + Threads + Wait + Sync>(
    rt: &R,
    alloc: Global,
    bound: i64,
    workers: u64,
) -> Option<(Result<Option<i64>, QueryFault>, Result<bool, QueryFault>)> {
    let first = from(refusing(alloc)?)
        .as_parallel()
        .with_degree(workers)
        .filter(
            |x: i64| -> bool
                ensures { result ≡ int_lt bound x }
            { x > bound },
        )
        .first(rt, alloc);
    let any = from(refusing(alloc)?).any(
        |x: i64| -> bool
            ensures { result ≡ int_lt bound x }
        { x > bound },
    );
    Some((first, any))
}

#[test]
fn a_search_meets_a_refusal_only_if_it_has_found_nothing_before(rt: HostRuntime) {
    let refused = QueryFault::Ended(Ending::Refused(7));
    for workers in WORKERS {
        let found = above_before_a_refusal(&rt, rt.alloc(), 4, workers);
        assert!(&rt; found == Some((Ok(Some(5)), Ok(true))));
        let none = above_before_a_refusal(&rt, rt.alloc(), 5, workers);
        assert!(&rt; none == Some((Err(refused), Err(refused))));
    }
}

/// The sizes of the batches of the numbers below this one, of which a sink refuses one, and how the run ended.
fn sizes_of<R: Clock + Threads + Wait + Sync>(
    rt: &R,
    alloc: Global,
    count: u64,
    option: Option<MergeOption>,
    refused: i64,
) -> Option<(Vec<usize>, Result<(), QueryFault>)> {
    let mut sink = Sizes {
        sizes: Vec::new(alloc),
        refused,
    };
    let query = from(RangeSource::new(0, count).ok()?)
        .select(
            |x: i64| -> i64
                ensures { result ≡ x }
            { x },
        )
        .as_parallel();
    let outcome = match option {
        Some(option) => query
            .with_merge(option)
            .with_growth(1, 1, 5)
            .with_degree(3)
            .run_into(rt, alloc, &mut sink),
        None => query.run_into(rt, alloc, &mut sink),
    };
    Some((sink.sizes, outcome))
}

#[test]
fn a_sink_gets_batches_as_the_merge_option_says(rt: HostRuntime) {
    let alloc = rt.alloc();
    let by_default = sizes_of(&rt, alloc, 35, None, -1);
    assert!(&rt; are_sizes(&by_default, &[16, 16, 3], Ok(())));
    let buffered = sizes_of(&rt, alloc, 17, Some(MergeOption::AutoBuffered), -1);
    assert!(&rt; are_sizes(&buffered, &[16, 1], Ok(())));
    let one_by_one = sizes_of(&rt, alloc, 4, Some(MergeOption::NotBuffered), -1);
    assert!(&rt; are_sizes(&one_by_one, &[1, 1, 1, 1], Ok(())));
    let at_once = sizes_of(&rt, alloc, 35, Some(MergeOption::FullyBuffered), -1);
    assert!(&rt; are_sizes(&at_once, &[35], Ok(())));
}

#[test]
fn a_sink_that_refuses_ends_the_run_with_its_code(rt: HostRuntime) {
    let alloc = rt.alloc();
    let refused = Err(QueryFault::Run(RunFault::Sink(9)));
    let second = sizes_of(&rt, alloc, 1_000, None, 20);
    assert!(&rt; are_sizes(&second, &[16], refused));
}

/// What a sink has of a source that refuses, and how the run ended.
fn before_a_refusal<R: Clock + Threads + Wait + Sync>(
    rt: &R,
    alloc: Global,
    option: MergeOption,
) -> Option<(Vec<i64>, Result<(), QueryFault>)> {
    let mut sink = Collect(Vec::new(alloc));
    let outcome = from(refusing(alloc)?)
        .as_parallel()
        .with_merge(option)
        .run_into(rt, alloc, &mut sink);
    Some((sink.0, outcome))
}

#[test]
fn a_sink_gets_what_comes_before_a_refusal_unless_it_waits_for_all(rt: HostRuntime) {
    let alloc = rt.alloc();
    let refused = Err(QueryFault::Ended(Ending::Refused(7)));
    match before_a_refusal(&rt, alloc, MergeOption::Default) {
        Some((items, outcome)) => {
            assert!(&rt; items.as_slice() == [4, 5].as_slice() && outcome == refused);
        }
        None => panic!(rt; "no source"),
    }
    match before_a_refusal(&rt, alloc, MergeOption::FullyBuffered) {
        Some((items, outcome)) => assert!(&rt; items.is_empty() && outcome == refused),
        None => panic!(rt; "no source"),
    }
}

/// How many numbers a closure is called with, each the next, of those below this one, and how the run ended. It returns 7 for the
/// number 20.
fn called_by_threads<R: Clock + Threads + Wait + Sync>(
    rt: &R,
    alloc: Global,
    workers: u64,
    count: u64,
) -> Option<(i64, Result<(), QueryFault>)> {
    let mut next = 0i64;
    let outcome = from(RangeSource::new(0, count).ok()?)
        .as_parallel()
        .with_degree(workers)
        .select(
            |x: i64| -> (i64, bool)
                ensures { result ≡ (x, int_eq x (pos 20)) }
            { (x, x == 20) },
        )
        .try_for_each(rt, alloc, &mut |it: (i64, bool)| note(&mut next, it));
    Some((next, outcome))
}

/// The same on one thread.
fn called_on_one_thread(count: u64) -> Option<(i64, Result<(), QueryFault>)> {
    let mut next = 0i64;
    let outcome = from(RangeSource::new(0, count).ok()?)
        .select(
            |x: i64| -> (i64, bool)
                ensures { result ≡ (x, int_eq x (pos 20)) }
            { (x, x == 20) },
        )
        .try_for_each(&mut |it: (i64, bool)| note(&mut next, it));
    Some((next, outcome))
}

#[test]
fn a_closure_is_called_with_each_up_to_its_code(rt: HostRuntime) {
    let refused = Err(QueryFault::Run(RunFault::Sink(7)));
    for workers in WORKERS {
        assert!(&rt; called_by_threads(&rt, rt.alloc(), workers, 20) == Some((20, Ok(()))));
        assert!(&rt; called_by_threads(&rt, rt.alloc(), workers, 5_000) == Some((21, refused)));
    }
    assert!(&rt; called_on_one_thread(20) == Some((20, Ok(()))));
    assert!(&rt; called_on_one_thread(5_000) == Some((21, refused)));
}

/// The sum of what a closure is called with of a source that refuses, and how the run ended, by threads and on one thread.
fn summed<R: Clock + Threads + Wait + Sync>(
    rt: &R,
    alloc: Global,
) -> Option<((i64, Result<(), QueryFault>), (i64, Result<(), QueryFault>))> {
    let mut by_threads = 0i64;
    let first = from(refusing(alloc)?).as_parallel().for_each(
        rt,
        alloc,
        &mut |x: i64| by_threads = by_threads.wrapping_mul(10).wrapping_add(x),
    );
    let mut alone = 0i64;
    let second = from(refusing(alloc)?).for_each(&mut |x: i64| alone = alone
        .wrapping_mul(10)
        .wrapping_add(x));
    Some(((by_threads, first), (alone, second)))
}

#[test]
fn a_closure_is_called_with_what_comes_before_a_refusal(rt: HostRuntime) {
    let refused = Err(QueryFault::Ended(Ending::Refused(7)));
    assert!(&rt; summed(&rt, rt.alloc()) == Some(((45, refused), (45, refused))));
}

/// The first numbers that 3 divides, by threads.
fn taken_by_threads<R: Clock + Threads + Wait + Sync>(
    rt: &R,
    alloc: Global,
    items: &[i64],
    count: u64,
    workers: u64,
) -> Result<Vec<i64>, QueryFault> {
    let Ok(source) = SliceSource::new(items) else {
        return Err(QueryFault::Growth(GrowthFault::Zero));
    };
    from(source)
        .as_parallel()
        .with_degree(workers)
        .filter(
            |x: i64| -> bool
                ensures { result ≡ int_eq (int_rem x (pos 3)) (pos 0) }
            { x % 3 == 0 },
        )
        .take(count)
        .to_vec(rt, alloc)
}

/// The same on one thread.
fn taken_on_one_thread(alloc: Global, items: &[i64], count: u64) -> Result<Vec<i64>, QueryFault> {
    let Ok(source) = SliceSource::new(items) else {
        return Err(QueryFault::Growth(GrowthFault::Zero));
    };
    from(source)
        .filter(
            |x: i64| -> bool
                ensures { result ≡ int_eq (int_rem x (pos 3)) (pos 0) }
            { x % 3 == 0 },
        )
        .take(count)
        .to_vec(alloc)
}

fn are_the_first(found: &Result<Vec<i64>, QueryFault>, items: &[i64], count: u64) -> bool {
    let Ok(found) = found else {
        return false;
    };
    let mut rest = found.as_slice();
    let mut left = count;
    for item in items {
        if *item % 3 == 0 && left != 0 {
            match rest.split_first() {
                Some((first, others)) => {
                    if *first != *item {
                        return false;
                    }
                    rest = others;
                }
                None => return false,
            }
            left = left.wrapping_sub(1);
        }
    }
    rest.is_empty()
}

fn are_taken<R: Clock + Threads + Wait + Sync>(
    rt: &R,
    alloc: Global,
    seed: u64,
    count: u64,
) -> bool {
    let Ok(items) = numbers(alloc, seed, seed % 300) else {
        return false;
    };
    for workers in WORKERS {
        if !are_the_first(
            &taken_by_threads(rt, alloc, &items, count, workers),
            &items,
            count,
        ) {
            return false;
        }
    }
    are_the_first(&taken_on_one_thread(alloc, &items, count), &items, count)
}

#[test]
fn as_many_are_taken_as_are_wanted(rt: HostRuntime) {
    for seed in 1..=6u64 {
        let number = seed.wrapping_mul(0x9E37_79B9_7F4A_7C15);
        for count in [0, 1, 7, 1 << 20] {
            assert!(&rt; are_taken(&rt, rt.alloc(), number, count));
        }
    }
}

/// Whether ten of ten million are taken of few elements, by threads, and of ten on one thread.
fn are_taken_early<R: Clock + Threads + Wait + Sync>(
    rt: &R,
    alloc: Global,
    workers: u64,
    left: &AtomicU64,
) -> bool {
    let Ok(source) = from_zero(left) else {
        return false;
    };
    let taken = from(source)
        .as_parallel()
        .with_degree(workers)
        .with_growth(1, 3, 512)
        .take(10)
        .to_vec(rt, alloc);
    if !are_ten(&taken) || left.load(Ordering::SeqCst) > most(workers) {
        return false;
    }
    let Ok(source) = from_zero(left) else {
        return false;
    };
    let taken = from(source).take(10).to_vec(alloc);
    are_ten(&taken) && left.load(Ordering::SeqCst) == 10
}

fn are_ten(found: &Result<Vec<i64>, QueryFault>) -> bool {
    match found {
        Ok(list) => list.len() == 10,
        Err(_) => false,
    }
}

#[test]
fn a_source_is_left_once_enough_is_taken(rt: HostRuntime) {
    let left = AtomicU64::new(0);
    for workers in [1, 4] {
        assert!(&rt; are_taken_early(&rt, rt.alloc(), workers, &left));
    }
}

#[test]
fn no_workers_take_nothing_and_that_is_refused(rt: HostRuntime) {
    for count in [0, 1] {
        let taken = taken_by_threads(&rt, rt.alloc(), &[3], count, 0);
        assert!(&rt; matches!(taken, Err(QueryFault::Degree)));
    }
}
