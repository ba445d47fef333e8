//! What sinks and closures get of what steps by position leave, by threads and on one thread.
ghost use Rattle.std.specs.Prelude.{◌≡◌, int_lt, pos};

use crate::positions::{WORKERS, from_zero, most, refusing};
use plinq_collect::Collect;
use plinq_ops::MergeOption;
use plinq_query::{QueryFault, from};
use plinq_run::RunFault;
use plinq_source::{Ending, RangeSource};
use plinq_testing::{Sizes, are_sizes, note};
use std::alloc::Global;
use std::sync::Wait;
use std::sync::atomic::{AtomicU64, Ordering};
use std::test::*;
use std::thread::Threads;
use std::time::Clock;

/// The sizes of the batches of so many numbers that are left after the first ten, of which a sink refuses one, and how the run
/// ended.
fn sizes_of<R: Clock + Threads + Wait + Sync>(
    rt: &R,
    alloc: Global,
    count: u64,
    option: Option<MergeOption>,
    refused: i64,
) -> Option<(Vec<usize>, Result<(), QueryFault>)> {
    let mut sink = Sizes {
        sizes: Vec::new(alloc),
        refused,
    };
    let query = from(RangeSource::new(0, 10_000).ok()?)
        .as_parallel()
        .with_growth(1, 1, 5);
    let outcome = match option {
        Some(option) => query
            .with_merge(option)
            .with_degree(3)
            .skip(10)
            .take(count)
            .run_into(rt, alloc, &mut sink),
        None => query.skip(10).take(count).run_into(rt, alloc, &mut sink),
    };
    Some((sink.sizes, outcome))
}

#[test]
fn what_is_left_comes_in_batches_as_the_merge_option_says(rt: HostRuntime) {
    let alloc = rt.alloc();
    let by_default = sizes_of(&rt, alloc, 35, None, -1);
    assert!(&rt; are_sizes(&by_default, &[16, 16, 3], Ok(())));
    let buffered = sizes_of(&rt, alloc, 32, Some(MergeOption::AutoBuffered), -1);
    assert!(&rt; are_sizes(&buffered, &[16, 16], Ok(())));
    let one_by_one = sizes_of(&rt, alloc, 4, Some(MergeOption::NotBuffered), -1);
    assert!(&rt; are_sizes(&one_by_one, &[1, 1, 1, 1], Ok(())));
    let at_once = sizes_of(&rt, alloc, 35, Some(MergeOption::FullyBuffered), -1);
    assert!(&rt; are_sizes(&at_once, &[35], Ok(())));
    let none = sizes_of(&rt, alloc, 0, Some(MergeOption::FullyBuffered), -1);
    assert!(&rt; are_sizes(&none, &[], Ok(())));
}

#[test]
fn a_sink_that_refuses_some_of_what_is_left_ends_the_run_with_its_code(rt: HostRuntime) {
    let alloc = rt.alloc();
    let refused = Err(QueryFault::Run(RunFault::Sink(9)));
    let second = sizes_of(&rt, alloc, 100, None, 30);
    assert!(&rt; are_sizes(&second, &[16], refused));
    let last = sizes_of(&rt, alloc, 17, None, 26);
    assert!(&rt; are_sizes(&last, &[16], refused));
    let only = sizes_of(&rt, alloc, 17, Some(MergeOption::FullyBuffered), 26);
    assert!(&rt; are_sizes(&only, &[], refused));
}

/// What a sink has of all but the first item of a source that refuses, and how the run ended; and of the first item alone.
fn before_a_refusal<R: Clock + Threads + Wait + Sync>(
    rt: &R,
    alloc: Global,
    option: MergeOption,
    taken: u64,
) -> Option<(Vec<i64>, Result<(), QueryFault>)> {
    let mut sink = Collect(Vec::new(alloc));
    let outcome = from(refusing(alloc)?)
        .as_parallel()
        .with_merge(option)
        .skip(1)
        .take(taken)
        .run_into(rt, alloc, &mut sink);
    Some((sink.0, outcome))
}

fn has(
    found: &Option<(Vec<i64>, Result<(), QueryFault>)>,
    wanted: &[i64],
    ended: Result<(), QueryFault>,
) -> bool {
    match found {
        Some((items, outcome)) => items.as_slice() == wanted && *outcome == ended,
        None => false,
    }
}

#[test]
fn what_is_left_before_a_refusal_is_delivered_unless_all_is_waited_for(rt: HostRuntime) {
    let alloc = rt.alloc();
    let refused = Err(QueryFault::Ended(Ending::Refused(7)));
    let undecided = before_a_refusal(&rt, alloc, MergeOption::Default, 2);
    assert!(&rt; has(&undecided, &[5], refused));
    let held_back = before_a_refusal(&rt, alloc, MergeOption::FullyBuffered, 2);
    assert!(&rt; has(&held_back, &[], refused));
    let decided = before_a_refusal(&rt, alloc, MergeOption::FullyBuffered, 1);
    assert!(&rt; has(&decided, &[5], Ok(())));
}

/// How many numbers a closure is called with, each the next, of those below a bound, and how the run ended. It returns 7 for the
/// number 20.
fn called_by_threads<R: Clock + Threads + Wait + Sync>(
    rt: &R,
    alloc: Global,
    workers: u64,
    bound: i64,
    left: &AtomicU64,
) -> Option<(i64, Result<(), QueryFault>)> {
    let mut next = 0i64;
    let outcome = from(from_zero(left).ok()?)
        .as_parallel()
        .with_degree(workers)
        .with_growth(1, 3, 512)
        .take_while(
            |x: i64| -> bool
                ensures { result ≡ int_lt x bound }
            { x < bound },
        )
        .try_for_each(rt, alloc, &mut |x: i64| note(&mut next, (x, x == 20)));
    Some((next, outcome))
}

/// The same on one thread.
fn called_on_one_thread(bound: i64, left: &AtomicU64) -> Option<(i64, Result<(), QueryFault>)> {
    let mut next = 0i64;
    let outcome = from(from_zero(left).ok()?)
        .take_while(
            |x: i64| -> bool
                ensures { result ≡ int_lt x bound }
            { x < bound },
        )
        .try_for_each(&mut |x: i64| note(&mut next, (x, x == 20)));
    Some((next, outcome))
}

#[test]
fn a_closure_is_called_with_what_is_left_up_to_its_code(rt: HostRuntime) {
    let refused = Err(QueryFault::Run(RunFault::Sink(7)));
    let left = AtomicU64::new(0);
    for workers in WORKERS {
        let all = called_by_threads(&rt, rt.alloc(), workers, 20, &left);
        assert!(&rt; all == Some((20, Ok(()))) && left.load(Ordering::SeqCst) <= most(workers));
        let some = called_by_threads(&rt, rt.alloc(), workers, 5_000, &left);
        assert!(&rt; some == Some((21, refused)));
    }
    let all = called_on_one_thread(20, &left);
    assert!(&rt; all == Some((20, Ok(()))) && left.load(Ordering::SeqCst) == 21);
    let some = called_on_one_thread(5_000, &left);
    assert!(&rt; some == Some((21, refused)) && left.load(Ordering::SeqCst) == 21);
}

/// The digits of what a closure is called with of all but the first item of a source that refuses, and how the run ended, by threads
/// and on one thread.
fn digits<R: Clock + Threads + Wait + Sync>(
    rt: &R,
    alloc: Global,
    option: MergeOption,
) -> Option<((i64, Result<(), QueryFault>), (i64, Result<(), QueryFault>))> {
    let mut by_threads = 0i64;
    let first = from(refusing(alloc)?)
        .as_parallel()
        .with_merge(option)
        .skip(1)
        .for_each(
            rt,
            alloc,
            &mut |x: i64| by_threads = by_threads.wrapping_mul(10).wrapping_add(x),
        );
    let mut alone = 0i64;
    let second = from(refusing(alloc)?).skip(1).for_each(&mut |x: i64| alone = alone
        .wrapping_mul(10)
        .wrapping_add(x));
    Some(((by_threads, first), (alone, second)))
}

#[test]
fn a_closure_is_called_with_what_is_left_before_a_refusal(rt: HostRuntime) {
    let refused = Err(QueryFault::Ended(Ending::Refused(7)));
    let some = digits(&rt, rt.alloc(), MergeOption::NotBuffered);
    assert!(&rt; some == Some(((5, refused), (5, refused))));
    let all_or_none = digits(&rt, rt.alloc(), MergeOption::FullyBuffered);
    assert!(&rt; all_or_none == Some(((0, refused), (5, refused))));
}

/// A sink's sizes if this number of workers or growth is asked for, though nothing is wanted.
fn begun_by<R: Clock + Threads + Wait + Sync>(
    rt: &R,
    alloc: Global,
    workers: u64,
    first: u64,
) -> Option<(Vec<usize>, Result<(), QueryFault>)> {
    let mut sink = Sizes {
        sizes: Vec::new(alloc),
        refused: -1,
    };
    let outcome = from(RangeSource::new(0, 9).ok()?)
        .as_parallel()
        .with_degree(workers)
        .with_growth(first, 1, 1)
        .take(0)
        .run_into(rt, alloc, &mut sink);
    Some((sink.sizes, outcome))
}

#[test]
fn settings_that_are_none_are_refused_before_anything_is_delivered(rt: HostRuntime) {
    let degree = begun_by(&rt, rt.alloc(), 65, 1);
    assert!(&rt; are_sizes(&degree, &[], Err(QueryFault::Degree)));
    let growth = begun_by(&rt, rt.alloc(), 4, 0);
    assert!(&rt; matches!(growth, Some((_, Err(QueryFault::Growth(_))))));
    let none = begun_by(&rt, rt.alloc(), 4, 1);
    assert!(&rt; are_sizes(&none, &[], Ok(())));
}

/// The list of a source that refuses, but for its first item if that is skipped, with how it ended.
fn listed<R: Clock + Threads + Wait + Sync>(
    rt: &R,
    alloc: Global,
    option: MergeOption,
    taken: u64,
) -> Option<
    (
        Result<(Vec<i64>, Ending), QueryFault>,
        Result<(Vec<i64>, Ending), QueryFault>,
    ),
> {
    let all = from(refusing(alloc)?)
        .as_parallel()
        .with_merge(option)
        .to_vec_and_ending(rt, alloc);
    let left = from(refusing(alloc)?)
        .as_parallel()
        .with_merge(option)
        .skip(1)
        .take(taken)
        .to_vec_and_ending(rt, alloc);
    Some((all, left))
}

/// The same on one thread.
fn listed_alone(
    alloc: Global,
    taken: u64,
) -> Option<
    (
        Result<(Vec<i64>, Ending), QueryFault>,
        Result<(Vec<i64>, Ending), QueryFault>,
    ),
> {
    let all = from(refusing(alloc)?).to_vec_and_ending(alloc);
    let left = from(refusing(alloc)?)
        .skip(1)
        .take(taken)
        .to_vec_and_ending(alloc);
    Some((all, left))
}

fn is_listed(
    found: &Result<(Vec<i64>, Ending), QueryFault>,
    wanted: &[i64],
    ended: Ending,
) -> bool {
    match found {
        Ok((items, ending)) => items.as_slice() == wanted && *ending == ended,
        Err(_) => false,
    }
}

#[test]
fn a_list_has_what_came_before_a_refusal_and_how_it_ended(rt: HostRuntime) {
    let alloc = rt.alloc();
    let refused = Ending::Refused(7);
    for taken in [1, 2] {
        let ended = if taken == 1 { Ending::End } else { refused };
        match listed(&rt, alloc, MergeOption::Default, taken) {
            Some((all, left)) => {
                assert!(&rt; is_listed(&all, &[4, 5], refused) && is_listed(&left, &[5], ended));
            }
            None => panic!(rt; "no source"),
        }
        match listed_alone(alloc, taken) {
            Some((all, left)) => {
                assert!(&rt; is_listed(&all, &[4, 5], refused) && is_listed(&left, &[5], ended));
            }
            None => panic!(rt; "no source"),
        }
    }
    match listed(&rt, alloc, MergeOption::FullyBuffered, 2) {
        Some((all, left)) => {
            assert!(&rt; is_listed(&all, &[], refused) && is_listed(&left, &[], refused));
        }
        None => panic!(rt; "no source"),
    }
}
