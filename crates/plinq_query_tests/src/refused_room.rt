//! Queries that are refused an allocation, and the same once more. Each test is run with each allocation failing in turn.
ghost use Rattle.std.specs.Prelude.{◌≡◌, pos, int_lt};

use plinq_aggregate::Sum;
use plinq_ops::MergeOption;
use plinq_query::{QueryFault, from};
use plinq_run::RunFault;
use plinq_slice::SliceSource;
use std::alloc::Global;
use std::process::Abort;
use std::sync::Wait;
use std::thread::Threads;
use std::time::Clock;

const NUMBERS: [i64; 3] = [4, 5, 6];

fn is_short(fault: RunFault) -> bool {
    matches!(fault, RunFault::Memory | RunFault::Thread)
}

/// Asks a query for its groups, by threads. Returns whether that was refused.
fn are_groups_refused<R: Clock + Threads + Wait + Sync + Abort>(rt: &R, alloc: Global) -> bool {
    let Ok(source) = SliceSource::new(&NUMBERS) else {
        panic!(rt; "no source");
    };
    let groups = from(source)
        .as_parallel()
        .with_degree(1)
        .select(
            |x: i64| -> (bool, i64)
                ensures { result ≡ (int_lt x (pos 5), x) }
            { (x < 5, x) },
        )
        .group_by(rt, alloc, Sum);
    match groups {
        Ok(groups) => {
            assert!(rt; groups.as_map().len() == 2);
            false
        }
        Err(fault) => {
            assert!(rt; matches!(fault, QueryFault::Run(fault) if is_short(fault)));
            true
        }
    }
}

/// Asks a query for a list, on one thread. Returns whether that was refused.
fn is_list_refused<R: Abort>(rt: &R, alloc: Global) -> bool {
    let Ok(source) = SliceSource::new(&NUMBERS) else {
        panic!(rt; "no source");
    };
    let list = from(source)
        .select(
            |x: i64| -> (i64, bool)
                ensures { result ≡ (x, int_lt x (pos 5)) }
            { (x, x < 5) },
        )
        .filter(
            |p: (i64, bool)| -> bool
                ensures { result ≡ p.1 }
            { p.1 },
        )
        .to_vec(alloc);
    match list {
        Ok(list) => {
            assert!(rt; list.as_slice() == [(4, true)].as_slice());
            false
        }
        Err(fault) => {
            assert!(rt; fault == QueryFault::Run(RunFault::Memory));
            true
        }
    }
}

#[test]
fn queries_that_are_refused_are_answered_the_next_time(rt: HostRuntime) {
    if are_groups_refused(&rt, rt.alloc()) {
        assert!(rt; !are_groups_refused(&rt, rt.alloc()) && !is_list_refused(&rt, rt.alloc()));
    } else if is_list_refused(&rt, rt.alloc()) {
        assert!(rt; !is_list_refused(&rt, rt.alloc()));
    }
}

/// Asks for a list of what steps by position leave, by threads. Returns whether that was refused.
fn is_window_refused<R: Clock + Threads + Wait + Sync + Abort>(rt: &R, alloc: Global) -> bool {
    let Ok(source) = SliceSource::new(&NUMBERS) else {
        panic!(rt; "no source");
    };
    let window = from(source)
        .as_parallel()
        .with_degree(1)
        .skip(1)
        .take(2)
        .to_vec(rt, alloc);
    match window {
        Ok(window) => {
            assert!(rt; window.as_slice() == [5, 6].as_slice());
            false
        }
        Err(fault) => {
            assert!(rt; matches!(fault, QueryFault::Run(fault) if is_short(fault)));
            true
        }
    }
}

/// The same on one thread, where nothing but memory can be short.
fn is_window_alone_refused<R: Abort>(rt: &R, alloc: Global) -> bool {
    let Ok(source) = SliceSource::new(&NUMBERS) else {
        panic!(rt; "no source");
    };
    match from(source).skip(1).take(2).to_vec(alloc) {
        Ok(window) => {
            assert!(rt; window.as_slice() == [5, 6].as_slice());
            false
        }
        Err(fault) => {
            assert!(rt; fault == QueryFault::Run(RunFault::Memory));
            true
        }
    }
}

#[test]
fn steps_by_position_that_are_refused_are_answered_the_next_time(rt: HostRuntime) {
    if is_window_refused(&rt, rt.alloc()) {
        assert!(rt;
            !is_window_refused(&rt, rt.alloc()) && !is_window_alone_refused(&rt, rt.alloc())
        );
    } else if is_window_alone_refused(&rt, rt.alloc()) {
        assert!(rt; !is_window_alone_refused(&rt, rt.alloc()));
    }
}

/// Has what is left delivered to a sink at once, by threads. Returns whether that was refused.
fn is_delivery_refused<R: Clock + Threads + Wait + Sync + Abort>(rt: &R, alloc: Global) -> bool {
    let Ok(source) = SliceSource::new(&NUMBERS) else {
        panic!(rt; "no source");
    };
    let mut sum = 0i64;
    let outcome = from(source)
        .as_parallel()
        .with_degree(1)
        .with_merge(MergeOption::FullyBuffered)
        .skip(1)
        .for_each(rt, alloc, &mut |x: i64| sum = sum.wrapping_add(x));
    match outcome {
        Ok(()) => {
            assert!(rt; sum == 11);
            false
        }
        Err(fault) => {
            assert!(rt; sum == 0 && matches!(fault, QueryFault::Run(fault) if is_short(fault)));
            true
        }
    }
}

#[test]
fn a_delivery_that_is_refused_delivers_nothing_and_is_answered_the_next_time(rt: HostRuntime) {
    if is_delivery_refused(&rt, rt.alloc()) {
        assert!(rt; !is_delivery_refused(&rt, rt.alloc()));
    }
}
