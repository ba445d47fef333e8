//! Calls after steps by position, with a flag that was set before.
use crate::each_call::{came_to_nothing, is_cancelled};
use plinq_aggregate::Sum;
use plinq_collect::Collect;
use plinq_merge::CancelFlag;
use plinq_query::{QueryFault, from};
use plinq_source::{Ending, RangeSource};
use std::alloc::Global;
use std::sync::Wait;
use std::test::*;
use std::thread::Threads;
use std::time::Clock;

fn list<R: Clock + Threads + Wait + Sync>(
    rt: &R,
    alloc: Global,
    flag: &CancelFlag,
    most: u64,
) -> Option<Result<Vec<i64>, QueryFault>> {
    let query = from(RangeSource::new(0, 100).ok()?)
        .as_parallel()
        .with_token(flag.token())
        .take(most);
    Some(query.to_vec(rt, alloc))
}

fn list_and_ending<R: Clock + Threads + Wait + Sync>(
    rt: &R,
    alloc: Global,
    flag: &CancelFlag,
    most: u64,
) -> Option<Result<(Vec<i64>, Ending), QueryFault>> {
    let query = from(RangeSource::new(0, 100).ok()?)
        .as_parallel()
        .with_token(flag.token())
        .with_growth(2, 1, 2)
        .take(most);
    Some(query.to_vec_and_ending(rt, alloc))
}

fn sum<R: Clock + Threads + Wait + Sync>(
    rt: &R,
    alloc: Global,
    flag: &CancelFlag,
    most: u64,
) -> Option<Result<i128, QueryFault>> {
    let query = from(RangeSource::new(0, 100).ok()?)
        .as_parallel()
        .with_token(flag.token())
        .take(most);
    Some(query.aggregate(rt, alloc, Sum))
}

fn first<R: Clock + Threads + Wait + Sync>(
    rt: &R,
    alloc: Global,
    flag: &CancelFlag,
    most: u64,
) -> Option<Result<Option<i64>, QueryFault>> {
    let query = from(RangeSource::new(0, 100).ok()?)
        .as_parallel()
        .with_token(flag.token())
        .take(most);
    Some(query.first(rt, alloc))
}

fn has<R: Clock + Threads + Wait + Sync>(
    rt: &R,
    alloc: Global,
    flag: &CancelFlag,
    most: u64,
) -> Option<Result<bool, QueryFault>> {
    let query = from(RangeSource::new(0, 100).ok()?)
        .as_parallel()
        .with_token(flag.token())
        .take(most);
    Some(query.contains(rt, alloc, 99))
}

/// How many items came to a sink, and how the run ended.
fn delivered<R: Clock + Threads + Wait + Sync>(
    rt: &R,
    alloc: Global,
    flag: &CancelFlag,
    most: u64,
) -> Option<(usize, Result<(), QueryFault>)> {
    let mut sink = Collect(Vec::new(alloc));
    let outcome = from(RangeSource::new(0, 100).ok()?)
        .as_parallel()
        .with_token(flag.token())
        .take(most)
        .run_into(rt, alloc, &mut sink);
    Some((sink.0.len(), outcome))
}

/// How often a closure was called, and how that ended.
fn called<R: Clock + Threads + Wait + Sync>(
    rt: &R,
    alloc: Global,
    flag: &CancelFlag,
    most: u64,
) -> Option<(usize, Result<(), QueryFault>)> {
    let mut calls = 0usize;
    let outcome = from(RangeSource::new(0, 100).ok()?)
        .as_parallel()
        .with_token(flag.token())
        .take(most)
        .for_each(rt, alloc, &mut |_: i64| calls = calls.wrapping_add(1));
    Some((calls, outcome))
}

#[test]
fn a_flag_that_was_set_stops_each_also_if_nothing_is_taken(rt: HostRuntime) {
    let alloc = rt.alloc();
    let flag = CancelFlag::new();
    flag.cancel();
    for most in [0, 1, 1_000] {
        assert!(rt; is_cancelled(list(&rt, alloc, &flag, most)), "{most}");
        assert!(rt;
            is_cancelled(list_and_ending(&rt, alloc, &flag, most)),
            "{most}"
        );
        assert!(rt; is_cancelled(sum(&rt, alloc, &flag, most)), "{most}");
        assert!(rt; is_cancelled(first(&rt, alloc, &flag, most)), "{most}");
        assert!(rt; is_cancelled(has(&rt, alloc, &flag, most)), "{most}");
        assert!(rt;
            came_to_nothing(delivered(&rt, alloc, &flag, most)),
            "{most}"
        );
        assert!(rt; came_to_nothing(called(&rt, alloc, &flag, most)), "{most}");
    }
}

#[test]
fn a_flag_that_is_not_set_stops_none(rt: HostRuntime) {
    let alloc = rt.alloc();
    let flag = CancelFlag::new();
    for (most, left, total) in [(0, 0, 0), (3, 3, 3), (1_000, 100, 4_950)] {
        assert!(rt; !is_cancelled(list(&rt, alloc, &flag, most)), "{most}");
        assert!(rt;
            !is_cancelled(list_and_ending(&rt, alloc, &flag, most)),
            "{most}"
        );
        assert!(rt; sum(&rt, alloc, &flag, most) == Some(Ok(total)), "{most}");
        assert!(rt;
            has(&rt, alloc, &flag, most) == Some(Ok(left == 100)),
            "{most}"
        );
        assert!(rt;
            delivered(&rt, alloc, &flag, most) == Some((left, Ok(()))),
            "{most}"
        );
        assert!(rt;
            called(&rt, alloc, &flag, most) == Some((left, Ok(()))),
            "{most}"
        );
    }
}
