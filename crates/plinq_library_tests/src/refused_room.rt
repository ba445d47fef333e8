//! Calls that are refused an allocation, and the same once more. Each test is run with each allocation failing in turn.

use plinq_collect::{Same, build, contains, first, for_each, sequentially, to_vec};
use plinq_lambda::Formula;
use plinq_ops::{BuildFault, Query};
use plinq_run::{AggregateFault, RunFault};
use plinq_slice::{SliceSource, lines_source};
use plinq_source::{Ending, OutOfMemory, Source, Step};
use std::alloc::Global;
use std::process::Abort;
use std::sync::Wait;
use std::thread::Threads;
use std::time::Clock;

const NUMBERS: [i64; 3] = [4, 5, 6];

/// The query of the even numbers, or none if memory ran out.
fn even(rt: &impl Abort, alloc: Global) -> Option<Query<Formula>> {
    match build(
        alloc,
        |query| query.as_ordered()?.with_degree(1)?.filter(Formula::Even),
    ) {
        Ok(query) => Some(query),
        Err(fault) => {
            assert!(rt; fault == BuildFault::Memory);
            None
        }
    }
}

fn is_short(fault: RunFault) -> bool {
    matches!(fault, RunFault::Memory | RunFault::Thread)
}

/// Asks for all items. Returns whether that was refused.
fn is_list_refused<R: Clock + Threads + Wait + Sync + Abort>(rt: &R, alloc: Global) -> bool {
    let Some(query) = even(rt, alloc) else {
        return true;
    };
    let Ok(source) = SliceSource::new(&NUMBERS) else {
        panic!(rt; "no source");
    };
    match to_vec(rt, alloc, &query, source) {
        Ok((items, ending)) => {
            assert!(rt; items.as_slice() == [4, 6].as_slice() && ending == Ending::End);
            false
        }
        Err(fault) => {
            assert!(rt; is_short(fault));
            true
        }
    }
}

/// Asks for the first. Returns whether that was refused.
fn is_first_refused<R: Clock + Threads + Wait + Sync + Abort>(rt: &R, alloc: Global) -> bool {
    let Some(query) = even(rt, alloc) else {
        return true;
    };
    let Ok(source) = SliceSource::new(&NUMBERS) else {
        panic!(rt; "no source");
    };
    match first(rt, alloc, query, source) {
        Ok(item) => {
            assert!(rt; item == Some(4));
            false
        }
        Err(fault) => {
            assert!(rt; matches!(fault, AggregateFault::Run(fault) if is_short(fault)));
            true
        }
    }
}

#[test]
fn a_call_that_is_refused_is_answered_the_next_time(rt: HostRuntime) {
    if is_list_refused(&rt, rt.alloc()) {
        assert!(rt; !is_list_refused(&rt, rt.alloc()) && !is_first_refused(&rt, rt.alloc()));
    } else if is_first_refused(&rt, rt.alloc()) {
        assert!(rt; !is_first_refused(&rt, rt.alloc()));
    }
}

/// Whether there was room for a source of three lines, which gives them.
fn has_lines(rt: &impl Abort, alloc: Global) -> bool {
    match lines_source(alloc, "a b\r\n\nc") {
        Ok(mut source) => {
            assert!(rt; source.next() == Step::Item("a b"));
            assert!(rt; source.next() == Step::Item(""));
            assert!(rt; source.next() == Step::Item("c"));
            assert!(rt; source.next() == Step::End);
            true
        }
        Err(fault) => {
            assert!(rt; fault == OutOfMemory);
            false
        }
    }
}

#[test]
fn lines_that_are_refused_are_given_the_next_time(rt: HostRuntime) {
    if !has_lines(&rt, rt.alloc()) {
        assert!(rt; has_lines(&rt, rt.alloc()));
    }
}

fn note(digits: &mut i64, item: i64) -> Result<(), u32> {
    *digits = digits.wrapping_mul(10).wrapping_add(item);
    Ok(())
}

/// Calls a closure with the even numbers, which makes a number of their digits. Returns whether it was called with all of
/// them; if that was refused, it was called with the first of them.
fn is_called<R: Clock + Threads + Wait + Sync + Abort>(rt: &R, alloc: Global) -> bool {
    let Some(query) = even(rt, alloc) else {
        return false;
    };
    let Ok(source) = SliceSource::new(&NUMBERS) else {
        panic!(rt; "no source");
    };
    let mut digits = 0i64;
    let told = for_each(
        rt,
        alloc,
        &query,
        source,
        &mut |item: i64| note(&mut digits, item),
    );
    match told {
        Ok(ending) => {
            assert!(rt; digits == 46 && ending == Ending::End);
            true
        }
        Err(fault) => {
            assert!(rt; is_short(fault) && matches!(digits, 0 | 4 | 46));
            false
        }
    }
}

#[test]
fn calls_that_are_refused_are_made_the_next_time(rt: HostRuntime) {
    if !is_called(&rt, rt.alloc()) {
        assert!(rt; is_called(&rt, rt.alloc()));
    }
}

/// The same on one thread, where nothing is called before all items are there.
fn is_called_by_one<R: Clock + Threads + Wait + Sync + Abort>(rt: &R, alloc: Global) -> bool {
    let Some(query) = even(rt, alloc) else {
        return false;
    };
    let Ok(source) = SliceSource::new(&NUMBERS) else {
        panic!(rt; "no source");
    };
    let mut digits = 0i64;
    let told = sequentially::for_each(
        rt,
        alloc,
        &query,
        source,
        &mut |item: i64| note(&mut digits, item),
    );
    match told {
        Ok(ending) => {
            assert!(rt; digits == 46 && ending == Ending::End);
            true
        }
        Err(fault) => {
            assert!(rt; fault == RunFault::Memory && digits == 0);
            false
        }
    }
}

#[test]
fn calls_on_one_thread_that_are_refused_are_made_the_next_time(rt: HostRuntime) {
    if !is_called_by_one(&rt, rt.alloc()) {
        assert!(rt; is_called_by_one(&rt, rt.alloc()));
    }
}

/// Whether a text has this line, or none if that was refused.
fn has_line<R: Clock + Threads + Wait + Sync + Abort>(
    rt: &R,
    alloc: Global,
    line: &str,
) -> Option<bool> {
    let Ok(query) = Query::<Same<&str>>::new(alloc).with_degree(1) else {
        return None;
    };
    let Ok(source) = lines_source(alloc, "a b\nb\n") else {
        return None;
    };
    match contains(rt, alloc, query, source, line) {
        Ok(is_there) => Some(is_there),
        Err(fault) => {
            assert!(rt; matches!(fault, AggregateFault::Run(fault) if is_short(fault)));
            None
        }
    }
}

#[test]
fn a_line_that_was_refused_is_found_the_next_time(rt: HostRuntime) {
    for (line, is_line) in [("b", true), ("a", false)] {
        match has_line(&rt, rt.alloc(), line) {
            Some(is_there) => assert!(rt; is_there == is_line),
            None => assert!(rt; has_line(&rt, rt.alloc(), line) == Some(is_line)),
        }
    }
}
