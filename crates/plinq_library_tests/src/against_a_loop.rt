//! Queries that are picked by chance, over slices, against a plain loop over a `Vec`.
use crate::ordered_queries::ordered;
use plinq_collect::{all, any, contains, count, element_at, first, sequentially, to_vec};
use plinq_lambda::Formula;
use plinq_ops::{Built, Query};
use plinq_run::AggregateFault;
use plinq_slice::SliceSource;
use plinq_source::Ending;
use std::alloc::{AllocError, Global};
use std::sync::Wait;
use std::thread::Threads;
use std::time::Clock;

const WORKERS: [u64; 4] = [1, 2, 8, 64];

/// By how many workers, what is added to each item that 3 doesn't divide, and which of the sums are left.
#[derive(Clone, Copy)]
struct Steps {
    workers: u64,
    add: i64,
    skip: u8,
    take: u8,
}

fn query(alloc: Global, steps: Steps) -> Built<Formula> {
    Query::new(alloc)
        .as_ordered()?
        .with_degree(steps.workers)?
        .filter(Formula::Mod(3))?
        .select(Formula::Add(steps.add))?
        .skip(i64::from(steps.skip))?
        .take(i64::from(steps.take))
}

fn by_loop(alloc: Global, items: &[i64], steps: Steps) -> Result<Vec<i64>, AllocError> {
    let mut left = Vec::new(alloc);
    let (mut skip, mut take) = (steps.skip, steps.take);
    for item in items {
        if *item % 3 == 0 {
            continue;
        }
        if skip > 0 {
            skip -= 1;
        } else if take > 0 {
            take -= 1;
            left.push(item.wrapping_add(steps.add))?;
        }
    }
    Ok(left)
}

/// Some numbers that look like chance (xorshift).
fn numbers(alloc: Global, seed: u64) -> Result<Vec<i64>, AllocError> {
    let mut number = seed;
    let mut items = Vec::new(alloc);
    for _item in 0..seed % 300 {
        number ^= number << 13;
        number ^= number >> 7;
        number ^= number << 17;
        items.push((number % 100) as i64)?;
    }
    Ok(items)
}

// A function asks for one thing, and answers whether it is told what a loop tells: what is known and owned at a step is what its
// proof costs.

fn is_list<R: Clock + Threads + Wait + Sync>(
    rt: &R,
    alloc: Global,
    items: &[i64],
    steps: Steps,
    wanted: &[i64],
) -> bool {
    let Ok(query) = query(alloc, steps) else {
        return false;
    };
    let Ok(source) = SliceSource::new(items) else {
        return false;
    };
    match to_vec(rt, alloc, &query, source) {
        Ok((found, ending)) => found.as_slice() == wanted && ending == Ending::End,
        Err(_) => false,
    }
}

fn is_list_by_one<R: Clock + Threads + Wait + Sync>(
    rt: &R,
    alloc: Global,
    items: &[i64],
    steps: Steps,
    wanted: &[i64],
) -> bool {
    let Ok(query) = query(alloc, steps) else {
        return false;
    };
    let Ok(source) = SliceSource::new(items) else {
        return false;
    };
    match sequentially::to_vec(rt, alloc, &query, source) {
        Ok((found, ending)) => found.as_slice() == wanted && ending == Ending::End,
        Err(_) => false,
    }
}

fn is_count<R: Clock + Threads + Wait + Sync>(
    rt: &R,
    alloc: Global,
    items: &[i64],
    steps: Steps,
    wanted: u64,
) -> bool {
    let Ok(query) = query(alloc, steps) else {
        return false;
    };
    match SliceSource::new(items) {
        Ok(source) => count(rt, alloc, &query, source) == Ok(wanted),
        Err(_) => false,
    }
}

fn is_first<R: Clock + Threads + Wait + Sync>(
    rt: &R,
    alloc: Global,
    items: &[i64],
    steps: Steps,
    wanted: Option<i64>,
) -> bool {
    let Ok(query) = query(alloc, steps) else {
        return false;
    };
    match SliceSource::new(items) {
        Ok(source) => first(rt, alloc, query, source) == Ok(wanted),
        Err(_) => false,
    }
}

fn is_at<R: Clock + Threads + Wait + Sync>(
    rt: &R,
    alloc: Global,
    items: &[i64],
    steps: Steps,
    place: u8,
    wanted: Option<i64>,
) -> bool {
    let Ok(query) = query(alloc, steps) else {
        return false;
    };
    match SliceSource::new(items) {
        Ok(source) => element_at(rt, alloc, query, source, u32::from(place)) == Ok(wanted),
        Err(_) => false,
    }
}

fn is_any<R: Clock + Threads + Wait + Sync>(
    rt: &R,
    alloc: Global,
    items: &[i64],
    steps: Steps,
    item: i64,
    wanted: bool,
) -> bool {
    let Ok(query) = query(alloc, steps) else {
        return false;
    };
    match SliceSource::new(items) {
        Ok(source) => any(rt, alloc, query, source, Formula::Equal(item)) == Ok(wanted),
        Err(_) => false,
    }
}

fn is_there<R: Clock + Threads + Wait + Sync>(
    rt: &R,
    alloc: Global,
    items: &[i64],
    steps: Steps,
    item: i64,
    wanted: bool,
) -> bool {
    let Ok(query) = query(alloc, steps) else {
        return false;
    };
    match SliceSource::new(items) {
        Ok(source) => contains(rt, alloc, query, source, item) == Ok(wanted),
        Err(_) => false,
    }
}

fn is_all<R: Clock + Threads + Wait + Sync>(
    rt: &R,
    alloc: Global,
    items: &[i64],
    steps: Steps,
    item: i64,
    wanted: bool,
) -> bool {
    let Ok(query) = query(alloc, steps) else {
        return false;
    };
    match SliceSource::new(items) {
        Ok(source) => all(rt, alloc, query, source, Formula::Below(item)) == Ok(wanted),
        Err(_) => false,
    }
}

fn is_count_by_one<R: Clock + Threads + Wait + Sync>(
    rt: &R,
    alloc: Global,
    items: &[i64],
    steps: Steps,
    wanted: u64,
) -> bool {
    let Ok(query) = query(alloc, steps) else {
        return false;
    };
    match SliceSource::new(items) {
        Ok(source) => sequentially::count(rt, alloc, &query, source) == Ok(wanted),
        Err(_) => false,
    }
}

fn is_first_by_one<R: Clock + Threads + Wait + Sync>(
    rt: &R,
    alloc: Global,
    items: &[i64],
    steps: Steps,
    wanted: Option<i64>,
) -> bool {
    let Ok(query) = query(alloc, steps) else {
        return false;
    };
    match SliceSource::new(items) {
        Ok(source) => sequentially::first(rt, alloc, query, source) == Ok(wanted),
        Err(_) => false,
    }
}

fn is_at_by_one<R: Clock + Threads + Wait + Sync>(
    rt: &R,
    alloc: Global,
    items: &[i64],
    steps: Steps,
    place: u8,
    wanted: Option<i64>,
) -> bool {
    let Ok(query) = query(alloc, steps) else {
        return false;
    };
    match SliceSource::new(items) {
        Ok(source) => sequentially::element_at(rt, alloc, query, source, u32::from(place))
            == Ok(wanted),
        Err(_) => false,
    }
}

fn is_any_by_one<R: Clock + Threads + Wait + Sync>(
    rt: &R,
    alloc: Global,
    items: &[i64],
    steps: Steps,
    item: i64,
    wanted: bool,
) -> bool {
    let Ok(query) = query(alloc, steps) else {
        return false;
    };
    match SliceSource::new(items) {
        Ok(source) => sequentially::any(rt, alloc, query, source, Formula::Equal(item))
            == Ok(wanted),
        Err(_) => false,
    }
}

fn is_there_by_one<R: Clock + Threads + Wait + Sync>(
    rt: &R,
    alloc: Global,
    items: &[i64],
    steps: Steps,
    item: i64,
    wanted: bool,
) -> bool {
    let Ok(query) = query(alloc, steps) else {
        return false;
    };
    match SliceSource::new(items) {
        Ok(source) => sequentially::contains(rt, alloc, query, source, item) == Ok(wanted),
        Err(_) => false,
    }
}

fn is_all_by_one<R: Clock + Threads + Wait + Sync>(
    rt: &R,
    alloc: Global,
    items: &[i64],
    steps: Steps,
    item: i64,
    wanted: bool,
) -> bool {
    let Ok(query) = query(alloc, steps) else {
        return false;
    };
    match SliceSource::new(items) {
        Ok(source) => sequentially::all(rt, alloc, query, source, Formula::Below(item))
            == Ok(wanted),
        Err(_) => false,
    }
}

/// Whether the sums that are left are these, by threads and by one.
fn are_left<R: Clock + Threads + Wait + Sync>(
    rt: &R,
    alloc: Global,
    items: &[i64],
    steps: Steps,
    wanted: &[i64],
) -> bool {
    let count = wanted.len() as u64;
    let first = wanted.first().copied();
    is_list(rt, alloc, items, steps, wanted)
        && is_list_by_one(rt, alloc, items, steps, wanted)
        && is_count(rt, alloc, items, steps, count)
        && is_count_by_one(rt, alloc, items, steps, count)
        && is_first(rt, alloc, items, steps, first)
        && is_first_by_one(rt, alloc, items, steps, first)
}

/// Whether the one at this place is told.
fn is_placed<R: Clock + Threads + Wait + Sync>(
    rt: &R,
    alloc: Global,
    items: &[i64],
    steps: Steps,
    place: u8,
    wanted: &[i64],
) -> bool {
    let at_place = wanted.get(usize::from(place)).copied();
    is_at(rt, alloc, items, steps, place, at_place)
        && is_at_by_one(rt, alloc, items, steps, place, at_place)
}

/// Whether it is told that this is among them, and that all are below it.
fn is_compared<R: Clock + Threads + Wait + Sync>(
    rt: &R,
    alloc: Global,
    items: &[i64],
    steps: Steps,
    item: i64,
    wanted: &[i64],
) -> bool {
    let is_among = wanted.iter().any(|it| *it == item);
    let are_below = wanted.iter().all(|it| *it < item);
    is_any(rt, alloc, items, steps, item, is_among)
        && is_any_by_one(rt, alloc, items, steps, item, is_among)
        && is_there(rt, alloc, items, steps, item, is_among)
        && is_there_by_one(rt, alloc, items, steps, item, is_among)
        && is_all(rt, alloc, items, steps, item, are_below)
        && is_all_by_one(rt, alloc, items, steps, item, are_below)
}

/// Whether a query by chance is answered as a loop does.
fn is_as_by_loop<R: Clock + Threads + Wait + Sync>(
    rt: &R,
    alloc: Global,
    number: u64,
    workers: u64,
) -> bool {
    let Ok(items) = numbers(alloc, number) else {
        return false;
    };
    let steps = Steps {
        workers,
        add: (number % 7) as i64,
        skip: ((number >> 8) % 40) as u8,
        take: ((number >> 16) % 256) as u8,
    };
    let place = ((number >> 24) % 256) as u8;
    let item = ((number >> 32) % 110) as i64;
    match by_loop(alloc, &items, steps) {
        Ok(wanted) => {
            are_left(rt, alloc, &items, steps, &wanted)
                && is_placed(rt, alloc, &items, steps, place, &wanted)
                && is_compared(rt, alloc, &items, steps, item, &wanted)
        }
        Err(_) => false,
    }
}

#[test]
fn queries_by_chance_answer_what_a_loop_does(rt: HostRuntime) {
    for seed in 1..=25u64 {
        let number = seed.wrapping_mul(0x9E37_79B9_7F4A_7C15);
        for workers in WORKERS {
            assert!(&rt; is_as_by_loop(&rt, rt.alloc(), number, workers));
        }
    }
}

/// What is told of a fault at the third item, if all are asked for.
fn told_of_a_fault<R: Clock + Threads + Wait + Sync>(
    rt: &R,
    alloc: Global,
    workers: u64,
) -> Option<AggregateFault> {
    let Ok(query) = ordered(alloc, workers) else {
        return None;
    };
    match SliceSource::new(&[4, 2, 0, 1]) {
        Ok(source) => all(rt, alloc, query, source, Formula::Into(8)).err(),
        Err(_) => None,
    }
}

#[test]
fn a_fault_before_the_element_is_the_answer(rt: HostRuntime) {
    let fault = AggregateFault::Ended(Ending::Fault(Formula::DIVIDE_BY_ZERO));
    for workers in WORKERS {
        assert!(rt; told_of_a_fault(&rt, rt.alloc(), workers) == Some(fault));
    }
}
