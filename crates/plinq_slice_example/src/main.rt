//! `plinq_slice_example < numbers.txt`: the even numbers of a slice, ten times each, by one thread and by four, and stopped.
//! An example of how the library is used, made to be copied; docs/LIBRARY.md goes through it.
#![tactic(auto)]

use anyhow::{Result, bail};
use plinq_prelude::*;
use std::alloc::Global;
use std::sync::Wait;
use std::thread::{Threads, join};
use std::time::Clock;

fn main(rt: HostRuntime) -> Result<()> {
    let text = std::io::read_to_string(rt.alloc(), rt.stdin())?;
    let mut numbers = Vec::new(rt.alloc());
    for word in text.split_whitespace() {
        numbers.push(word.parse::<i64>()?)?;
    }
    let found = by_one_and_by_four(&rt, rt.alloc(), &numbers)?;
    println!(rt; "{found:?}")?;
    let (query, source) = (tens(rt.alloc())?, SliceSource::new(&numbers)?);
    let greatest = first(&rt, rt.alloc(), query, source)?;
    println!(rt; "the first: {greatest:?}")?;
    let (query, source) = (tens(rt.alloc())?, SliceSource::new(&numbers)?);
    let is_there = any(&rt, rt.alloc(), query, source, Formula::Above(1_000))?;
    println!(rt; "any above 1000: {is_there}")?;
    println!(rt; "{:?}", stopped(&rt, rt.alloc(), &numbers)?)?;
    Ok(())
}

/// The even numbers, ten times each.
fn tens(alloc: Global) -> Result<Query<Formula>, BuildFault> {
    build(
        alloc,
        |query| query
            .as_ordered()?
            .with_degree(4)?
            .filter(Formula::Even)?
            .select(Formula::Mul(10)),
    )
}

/// The slice is lent twice: to one thread, and to four.
fn by_one_and_by_four<R: Clock + Threads + Wait + Sync>(
    rt: &R,
    alloc: Global,
    numbers: &[i64],
) -> Result<Vec<i64>> {
    let query = tens(alloc)?;
    let by_one = sequentially::to_vec(rt, alloc, &query, SliceSource::new(numbers)?)?;
    let by_four = to_vec(rt, alloc, &query, SliceSource::new(numbers)?)?;
    if by_one != by_four || by_four.1 != Ending::End {
        bail!("the answers differ");
    }
    Ok(by_four.0)
}

/// How a run ends whose flag another thread has set.
fn stopped<R: Clock + Threads + Wait + Sync>(
    rt: &R,
    alloc: Global,
    numbers: &[i64],
) -> Result<Option<RunFault>> {
    let query = tens(alloc)?;
    let flag = CancelFlag::new();
    let _ = join(rt, || flag.cancel(), || ());
    let mut sink = Collect(Vec::new(alloc));
    let report = run_with(
        rt,
        alloc,
        &query,
        SliceSource::new(numbers)?,
        Growth::DEFAULT,
        &TimedGate::new(rt),
        &mut flag.token(),
        &mut sink,
    );
    Ok(report.err())
}
