//! Each call of a typed query by threads, with a flag that was set before.
ghost use Rattle.std.specs.Prelude.{◌≡◌, int_lt, int_rem, pos};

use plinq_aggregate::Sum;
use plinq_collect::Collect;
use plinq_merge::CancelFlag;
use plinq_query::{QueryFault, from};
use plinq_run::RunFault;
use plinq_source::{Ending, RangeSource};
use std::alloc::Global;
use std::sync::Wait;
use std::test::*;
use std::thread::Threads;
use std::time::Clock;

/// Whether a call was stopped by its token.
pub(crate) fn is_cancelled<X: Drop>(outcome: Option<Result<X, QueryFault>>) -> bool {
    match outcome {
        Some(Err(fault)) => fault == QueryFault::Run(RunFault::Cancelled),
        _ => false,
    }
}

fn list<R: Clock + Threads + Wait + Sync>(
    rt: &R,
    alloc: Global,
    flag: &CancelFlag,
) -> Option<Result<Vec<i64>, QueryFault>> {
    let query = from(RangeSource::new(0, 100).ok()?)
        .as_parallel()
        .with_token(flag.token());
    Some(query.to_vec(rt, alloc))
}

fn list_and_ending<R: Clock + Threads + Wait + Sync>(
    rt: &R,
    alloc: Global,
    flag: &CancelFlag,
) -> Option<Result<(Vec<i64>, Ending), QueryFault>> {
    let query = from(RangeSource::new(0, 100).ok()?)
        .as_parallel()
        .with_growth(1, 1, 7)
        .with_token(flag.token());
    Some(query.to_vec_and_ending(rt, alloc))
}

fn count<R: Clock + Threads + Wait + Sync>(
    rt: &R,
    alloc: Global,
    flag: &CancelFlag,
) -> Option<Result<u64, QueryFault>> {
    let query = from(RangeSource::new(0, 100).ok()?)
        .as_parallel()
        .with_token(flag.token());
    Some(query.count(rt, alloc))
}

fn sum<R: Clock + Threads + Wait + Sync>(
    rt: &R,
    alloc: Global,
    flag: &CancelFlag,
) -> Option<Result<i128, QueryFault>> {
    let query = from(RangeSource::new(0, 100).ok()?)
        .as_parallel()
        .with_token(flag.token());
    Some(query.aggregate(rt, alloc, Sum))
}

fn element<R: Clock + Threads + Wait + Sync>(
    rt: &R,
    alloc: Global,
    flag: &CancelFlag,
    position: Option<u64>,
) -> Option<Result<Option<i64>, QueryFault>> {
    let query = from(RangeSource::new(0, 100).ok()?)
        .as_parallel()
        .with_token(flag.token());
    match position {
        Some(position) => Some(query.element_at(rt, alloc, position)),
        None => Some(query.first(rt, alloc)),
    }
}

fn has<R: Clock + Threads + Wait + Sync>(
    rt: &R,
    alloc: Global,
    flag: &CancelFlag,
) -> Option<Result<bool, QueryFault>> {
    let query = from(RangeSource::new(0, 100).ok()?)
        .as_parallel()
        .with_token(flag.token());
    Some(query.contains(rt, alloc, 5))
}

fn has_some<R: Clock + Threads + Wait + Sync>(
    rt: &R,
    alloc: Global,
    flag: &CancelFlag,
) -> Option<Result<bool, QueryFault>> {
    let found = from(RangeSource::new(0, 100).ok()?)
        .as_parallel()
        .with_token(flag.token())
        .any(
            rt,
            alloc,
            |x: i64| -> bool
                ensures { result ≡ int_lt (pos 5) x }
            { x > 5 },
        );
    Some(found)
}

fn has_only<R: Clock + Threads + Wait + Sync>(
    rt: &R,
    alloc: Global,
    flag: &CancelFlag,
) -> Option<Result<bool, QueryFault>> {
    let found = from(RangeSource::new(0, 100).ok()?)
        .as_parallel()
        .with_token(flag.token())
        .all(
            rt,
            alloc,
            |x: i64| -> bool
                ensures { result ≡ int_lt x (pos 5) }
            { x < 5 },
        );
    Some(found)
}

/// How many items came to a sink, and how the run ended.
fn delivered<R: Clock + Threads + Wait + Sync>(
    rt: &R,
    alloc: Global,
    flag: &CancelFlag,
) -> Option<(usize, Result<(), QueryFault>)> {
    let mut sink = Collect(Vec::new(alloc));
    let outcome = from(RangeSource::new(0, 100).ok()?)
        .as_parallel()
        .with_token(flag.token())
        .run_into(rt, alloc, &mut sink);
    Some((sink.0.len(), outcome))
}

/// How often a closure was called, and how that ended.
fn called<R: Clock + Threads + Wait + Sync>(
    rt: &R,
    alloc: Global,
    flag: &CancelFlag,
) -> Option<(usize, Result<(), QueryFault>)> {
    let mut calls = 0usize;
    let outcome = from(RangeSource::new(0, 100).ok()?)
        .as_parallel()
        .with_token(flag.token())
        .for_each(rt, alloc, &mut |_: i64| calls = calls.wrapping_add(1));
    Some((calls, outcome))
}

/// Notes that it was called.
fn counted(calls: &mut usize) -> Result<(), u32> {
    *calls = calls.wrapping_add(1);
    Ok(())
}

/// The same of one that may end the run.
fn tried<R: Clock + Threads + Wait + Sync>(
    rt: &R,
    alloc: Global,
    flag: &CancelFlag,
) -> Option<(usize, Result<(), QueryFault>)> {
    let mut calls = 0usize;
    let outcome = from(RangeSource::new(0, 100).ok()?)
        .as_parallel()
        .with_token(flag.token())
        .try_for_each(rt, alloc, &mut |_: i64| counted(&mut calls));
    Some((calls, outcome))
}

/// How many groups there are of the last digits, or how many of the greatest of them.
fn pairs<R: Clock + Threads + Wait + Sync>(
    rt: &R,
    alloc: Global,
    flag: &CancelFlag,
    are_groups: bool,
) -> Option<Result<usize, QueryFault>> {
    let query = from(RangeSource::new(0, 100).ok()?)
        .as_parallel()
        .with_token(flag.token())
        .select(
            |x: i64| -> (i64, i64)
                ensures { result ≡ (int_rem x (pos 10), x) }
            { (x % 10, x) },
        );
    if are_groups {
        return match query.group_by(rt, alloc, Sum) {
            Ok(groups) => Some(Ok(groups.as_map().len())),
            Err(fault) => Some(Err(fault)),
        };
    }
    match query.top(rt, alloc, 3) {
        Ok(top) => Some(Ok(top.len())),
        Err(fault) => Some(Err(fault)),
    }
}

/// Whether nothing came, and that was cancelled.
pub(crate) fn came_to_nothing(seen: Option<(usize, Result<(), QueryFault>)>) -> bool {
    seen == Some((0, Err(QueryFault::Run(RunFault::Cancelled))))
}

#[test]
fn a_flag_that_was_set_stops_each_call(rt: HostRuntime) {
    let alloc = rt.alloc();
    let flag = CancelFlag::new();
    flag.cancel();
    assert!(rt; is_cancelled(list(&rt, alloc, &flag)));
    assert!(rt; is_cancelled(list_and_ending(&rt, alloc, &flag)));
    assert!(rt; is_cancelled(count(&rt, alloc, &flag)));
    assert!(rt; is_cancelled(sum(&rt, alloc, &flag)));
    assert!(rt; is_cancelled(element(&rt, alloc, &flag, None)));
    assert!(rt; is_cancelled(element(&rt, alloc, &flag, Some(3))));
    assert!(rt; is_cancelled(has(&rt, alloc, &flag)));
    assert!(rt; is_cancelled(has_some(&rt, alloc, &flag)));
    assert!(rt; is_cancelled(has_only(&rt, alloc, &flag)));
    assert!(rt; is_cancelled(pairs(&rt, alloc, &flag, true)));
    assert!(rt; is_cancelled(pairs(&rt, alloc, &flag, false)));
    assert!(rt; came_to_nothing(delivered(&rt, alloc, &flag)));
    assert!(rt; came_to_nothing(called(&rt, alloc, &flag)));
    assert!(rt; came_to_nothing(tried(&rt, alloc, &flag)));
}

#[test]
fn a_flag_that_is_not_set_stops_none(rt: HostRuntime) {
    let alloc = rt.alloc();
    let flag = CancelFlag::new();
    assert!(rt; !is_cancelled(list(&rt, alloc, &flag)));
    assert!(rt; !is_cancelled(list_and_ending(&rt, alloc, &flag)));
    assert!(rt; count(&rt, alloc, &flag) == Some(Ok(100)));
    assert!(rt; sum(&rt, alloc, &flag) == Some(Ok(4_950)));
    assert!(rt; element(&rt, alloc, &flag, None) == Some(Ok(Some(0))));
    assert!(rt; element(&rt, alloc, &flag, Some(3)) == Some(Ok(Some(3))));
    assert!(rt; has(&rt, alloc, &flag) == Some(Ok(true)));
    assert!(rt; has_some(&rt, alloc, &flag) == Some(Ok(true)));
    assert!(rt; has_only(&rt, alloc, &flag) == Some(Ok(false)));
    assert!(rt; pairs(&rt, alloc, &flag, true) == Some(Ok(10)));
    assert!(rt; pairs(&rt, alloc, &flag, false) == Some(Ok(3)));
    assert!(rt; delivered(&rt, alloc, &flag) == Some((100, Ok(()))));
    assert!(rt; called(&rt, alloc, &flag) == Some((100, Ok(()))));
    assert!(rt; tried(&rt, alloc, &flag) == Some((100, Ok(()))));
}
