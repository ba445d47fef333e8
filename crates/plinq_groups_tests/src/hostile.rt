//! A great number of groups. tests/refused-in-crates.py also runs it within a limit of memory.
use crate::keys::Masked;
use plinq_aggregate::Count;
use plinq_enumerator::Growth;
use plinq_groups::GroupBy;
use plinq_lambda::Formula;
use plinq_ops::{Built, Query};
use plinq_run::{AggregateFault, OpenGate, RunFault, aggregate};
use plinq_source::RangeSource;
use std::alloc::Global;
use std::sync::Wait;
use std::thread::Threads;
use std::time::Clock;

fn query_by_two(alloc: Global) -> Built<Formula> {
    Query::new(alloc).as_ordered()?.with_degree(2)
}

/// How many groups so many different numbers make.
fn groups_of<R: Clock + Threads + Wait + Sync>(
    rt: &R,
    alloc: Global,
    query: &Query<Formula>,
    numbers: u64,
) -> Result<usize, AggregateFault> {
    let Ok(source) = RangeSource::new(0, numbers) else {
        return Ok(0);
    };
    let by = GroupBy {
        key: Masked { mask: u64::MAX },
        each: Count,
    };
    let groups = aggregate(rt, alloc, query, source, Growth::DEFAULT, &OpenGate, &by)?;
    Ok(groups.as_map().len())
}

#[test]
fn a_million_groups(rt: HostRuntime) {
    let Ok(query) = query_by_two(rt.alloc()) else {
        panic!(rt; "no query");
    };
    match groups_of(&rt, rt.alloc(), &query, 1_000_000) {
        Ok(groups) => assert!(rt; groups == 1_000_000),
        Err(fault) => {
            assert!(rt; fault == AggregateFault::Run(RunFault::Memory));
            assert!(rt; groups_of(&rt, rt.alloc(), &query, 10) == Ok(10));
            panic!(rt; "out of memory, and ten groups after that");
        }
    }
}
