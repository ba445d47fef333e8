//! Groups, mapped runs and orders that are refused an allocation, and the same once more. Each test is run with each allocation
//! failing in turn.
use crate::keys::Masked;
use crate::made_by_workers::{AtLeast, BitsOf, count_in};
use crate::ordered::LowBits;
use plinq_enumerator::Growth;
use plinq_groups::{Collect, FoldEach, GroupBy, MapEach};
use plinq_lambda::Formula;
use plinq_mapped::{run_mapped, to_vec_mapped};
use plinq_ops::{Built, Query};
use plinq_run::{AggregateFault, OpenGate, RunFault, aggregate};
use plinq_sorted::order_by;
use plinq_source::{Ending, RangeSource};
use plinq_testing::Taken;
use std::alloc::Global;
use std::sync::Wait;
use std::thread::Threads;
use std::time::Clock;

/// What is asked for.
#[derive(Clone, Copy)]
enum Asked {
    Groups,
    Fold,
    Run,
    List,
    Order,
}

/// The numbers from 1 to 17.
fn all(alloc: Global, workers: u64) -> Built<Formula> {
    Query::new(alloc)
        .as_ordered()?
        .with_degree(workers)?
        .select(Formula::Add(0))
}

/// The first 9 of them, of groups by the workers, else after the merge.
fn first(alloc: Global, asked: Asked, workers: u64) -> Built<Formula> {
    let query = all(alloc, workers)?;
    match asked {
        Asked::Groups | Asked::Fold => query.take(9),
        Asked::Run | Asked::List | Asked::Order => query.filter(Formula::Above(0))?.take(9),
    }
}

/// Groups them by their lowest bits. Returns whether so many are in the group of 1.
fn grouped<R: Clock + Threads + Wait + Sync>(
    rt: &R,
    alloc: Global,
    query: &Query<Formula>,
    count: usize,
) -> Result<bool, RunFault> {
    let Ok(source) = RangeSource::new(1, 17) else {
        return Ok(false);
    };
    let by = GroupBy {
        key: Masked { mask: 7 },
        each: Collect::new(),
    };
    match aggregate(rt, alloc, query, source, Growth::ONE, &OpenGate, &by) {
        Ok(groups) => {
            let map = groups.as_map();
            match map.get(&1) {
                Some(items) => Ok(map.len() == 8 && items.as_slice().len() == count),
                None => Ok(false),
            }
        }
        Err(AggregateFault::Run(fault)) => Err(fault),
        Err(_) => Ok(false),
    }
}

/// Groups those above 1 by their lowest bits. Returns whether so many are in the group of 1, or would be with 1.
fn folded<R: Clock + Threads + Wait + Sync>(
    rt: &R,
    alloc: Global,
    query: &Query<Formula>,
    count: usize,
) -> Result<bool, RunFault> {
    let Ok(source) = RangeSource::new(1, 17) else {
        return Ok(false);
    };
    let each = FoldEach {
        make: AtLeast { least: 2 },
        each: GroupBy {
            key: Masked { mask: 7 },
            each: Collect::new(),
        },
    };
    match aggregate(rt, alloc, query, source, Growth::ONE, &OpenGate, &each) {
        Ok((groups, fault)) => {
            let map = groups.as_map();
            match map.get(&1) {
                Some(items) => {
                    Ok(fault.is_none() && map.len() == 8 && items.as_slice().len() + 1 == count)
                }
                None => Ok(false),
            }
        }
        Err(AggregateFault::Run(fault)) => Err(fault),
        Err(_) => Ok(false),
    }
}

/// Makes something of each of them. Returns whether a sink took so many, which may lack room as well.
fn delivered<R: Clock + Threads + Wait + Sync>(
    rt: &R,
    alloc: Global,
    query: &Query<Formula>,
    count: usize,
) -> Result<bool, RunFault> {
    let Ok(source) = RangeSource::new(1, 17) else {
        return Ok(false);
    };
    let bits = MapEach {
        make: BitsOf { but: 0 },
    };
    let mut taken = Taken::new(alloc, usize::MAX);
    let growth = Growth::ONE;
    let told = run_mapped(
        rt, alloc, query, source, growth, &OpenGate, &bits, &mut taken,
    );
    let Some(delivered) = count_in(&taken.batches, 16) else {
        return Ok(false);
    };
    match told {
        Ok(ending) => Ok(ending == Ending::End && delivered == count),
        Err(RunFault::Sink(1_000)) => Err(RunFault::Memory),
        Err(fault) => Err(fault),
    }
}

/// Keeps what is made of each of them in a list. Returns whether it has so many.
fn listed<R: Clock + Threads + Wait + Sync>(
    rt: &R,
    alloc: Global,
    query: &Query<Formula>,
    count: usize,
) -> Result<bool, RunFault> {
    let Ok(source) = RangeSource::new(1, 17) else {
        return Ok(false);
    };
    let bits = MapEach {
        make: BitsOf { but: 0 },
    };
    let (made, ending) = to_vec_mapped(rt, alloc, query, source, &bits)?;
    Ok(ending == Ending::End && made.len() == count && made.first() == Some(&1))
}

/// Puts 200 numbers in the order of their lowest bits. Returns whether there are so many, with 8 as the first.
fn ordered<R: Clock + Threads + Wait + Sync>(
    rt: &R,
    alloc: Global,
    query: &Query<Formula>,
    count: usize,
) -> Result<bool, RunFault> {
    let Ok(source) = RangeSource::new(1, 200) else {
        return Ok(false);
    };
    match order_by(rt, alloc, query, source, &LowBits) {
        Ok(items) => Ok(items.len() == count && items.first() == Some(&8)),
        Err(AggregateFault::Run(fault)) => Err(fault),
        Err(_) => Ok(false),
    }
}

fn told<R: Clock + Threads + Wait + Sync>(
    rt: &R,
    alloc: Global,
    asked: Asked,
    query: &Query<Formula>,
    count: usize,
) -> Result<bool, RunFault> {
    match asked {
        Asked::Groups => grouped(rt, alloc, query, count),
        Asked::Fold => folded(rt, alloc, query, count),
        Asked::Run => delivered(rt, alloc, query, count),
        Asked::List => listed(rt, alloc, query, count),
        Asked::Order => ordered(rt, alloc, query, count),
    }
}

fn is_short(fault: RunFault) -> bool {
    matches!(fault, RunFault::Memory | RunFault::Thread)
}

/// Whether of two answers at most one is refused, for lack of memory or of a thread alone.
fn are_right(first: Result<bool, RunFault>, second: Result<bool, RunFault>) -> bool {
    match first {
        Ok(is_right) => match second {
            Ok(is_right_too) => is_right && is_right_too,
            Err(fault) => is_right && is_short(fault),
        },
        Err(fault) => is_short(fault) && second == Ok(true),
    }
}

/// Asks a query twice, if there is room for it.
fn is_answered<R: Clock + Threads + Wait + Sync>(
    rt: &R,
    alloc: Global,
    asked: Asked,
    query: Built<Formula>,
    count: usize,
) -> bool {
    match query {
        Ok(query) => {
            let first = told(rt, alloc, asked, &query, count);
            let second = told(rt, alloc, asked, &query, count);
            are_right(first, second)
        }
        Err(_) => true,
    }
}

/// How many are in the group of 1 or taken: of all, and of the first 9.
fn counts(asked: Asked) -> (usize, usize) {
    match asked {
        Asked::Groups | Asked::Fold => (3, 2),
        Asked::Run | Asked::List => (17, 9),
        Asked::Order => (200, 9),
    }
}

fn are_answered<R: Clock + Threads + Wait + Sync>(
    rt: &R,
    alloc: Global,
    asked: Asked,
    workers: u64,
) -> bool {
    let (most, few) = counts(asked);
    is_answered(rt, alloc, asked, all(alloc, workers), most)
        && is_answered(rt, alloc, asked, first(alloc, asked, workers), few)
}

#[test]
fn groups_by_one_worker_may_be_refused_room(rt: HostRuntime) {
    assert!(rt; are_answered(&rt, rt.alloc(), Asked::Groups, 1));
}

#[test]
fn groups_by_two_workers_may_be_refused_room(rt: HostRuntime) {
    assert!(rt; are_answered(&rt, rt.alloc(), Asked::Groups, 2));
}

#[test]
fn a_fold_of_what_is_made_by_one_worker_may_be_refused_room(rt: HostRuntime) {
    assert!(rt; are_answered(&rt, rt.alloc(), Asked::Fold, 1));
}

#[test]
fn a_fold_of_what_is_made_by_two_workers_may_be_refused_room(rt: HostRuntime) {
    assert!(rt; are_answered(&rt, rt.alloc(), Asked::Fold, 2));
}

#[test]
fn a_mapped_run_by_one_worker_may_be_refused_room(rt: HostRuntime) {
    assert!(rt; are_answered(&rt, rt.alloc(), Asked::Run, 1));
}

#[test]
fn a_mapped_run_by_two_workers_may_be_refused_room(rt: HostRuntime) {
    assert!(rt; are_answered(&rt, rt.alloc(), Asked::Run, 2));
}

#[test]
fn a_mapped_list_by_one_worker_may_be_refused_room(rt: HostRuntime) {
    assert!(rt; are_answered(&rt, rt.alloc(), Asked::List, 1));
}

#[test]
fn a_mapped_list_by_two_workers_may_be_refused_room(rt: HostRuntime) {
    assert!(rt; are_answered(&rt, rt.alloc(), Asked::List, 2));
}

#[test]
fn an_order_by_one_worker_may_be_refused_room(rt: HostRuntime) {
    assert!(rt; are_answered(&rt, rt.alloc(), Asked::Order, 1));
}

#[test]
fn an_order_by_two_workers_may_be_refused_room(rt: HostRuntime) {
    assert!(rt; are_answered(&rt, rt.alloc(), Asked::Order, 2));
}
