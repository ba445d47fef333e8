//! A worker that has no room for a result.
ghost use Rattle.std.specs.Prelude.{Ok, true, []};
ghost use Rattle.std.proofs.Common.{arith};

use crate::asking::{Numbers, ending_of};
use plinq_aggregate::Sum;
use plinq_enumerator::Growth;
use plinq_lambda::{ExpandFault, Lambda};
use plinq_ops::{BuildFault, MergeOption, Query};
use plinq_run::{AggregateFault, OpenGate, RunFault, aggregate};
use plinq_source::RangeSource;
use plinq_testing::{Taken, WORKERS, built, ordered};
use std::alloc::Global;
use std::sync::Wait;
use std::test::*;
use std::thread::Threads;

/// A lambda that has no room to expand an element, as if an allocation is refused.
#[derive(Clone, Copy)]
struct NoRoom;

impl Lambda for NoRoom {
    type Item = i64;

    ghost meaning = { λ _. record { map = λ x. Ok x; test = λ _. Ok true; expand = λ _. Ok [] } };

    ghost short = { λ _ _. omega arith };

    fn map(&self, x: i64) -> Result<i64, u32> {
        Ok(x)
    }

    fn test(&self, _: i64) -> Result<bool, u32> {
        Ok(true)
    }

    fn expand(&self, _: Global, _: i64) -> Result<Vec<i64>, ExpandFault> {
        Err(ExpandFault::Memory)
    }
}

fn expanding(alloc: Global, workers: u64) -> Result<Query<NoRoom>, BuildFault> {
    let query = ordered(alloc, MergeOption::NotBuffered, workers)?;
    built(query.select_many(NoRoom))
}

/// Whether a run says that memory ran out, and delivers nothing.
fn is_told<R: Threads + Wait + Sync>(rt: &R, alloc: Global, workers: u64) -> bool {
    let mut sink = Taken::new(alloc, usize::MAX);
    let numbers = Numbers {
        growth: Growth::DEFAULT,
        ..Numbers::below(100)
    };
    let query = expanding(alloc, workers);
    let told = ending_of(rt, alloc, query, numbers, &OpenGate, &mut sink);
    told == Err(RunFault::Memory) && sink.batches.is_empty()
}

#[test]
fn a_worker_without_room_is_told_as_memory(rt: HostRuntime) {
    for workers in WORKERS {
        assert!(rt; is_told(&rt, rt.alloc(), workers), "{workers}");
    }
}

/// Whether an aggregate says so, whose workers fold what they compute.
fn is_told_of_a_fold<R: Threads + Wait + Sync>(rt: &R, alloc: Global, workers: u64) -> bool {
    let Ok(source) = RangeSource::new(0, 100) else {
        return false;
    };
    let Ok(query) = expanding(alloc, workers) else {
        return false;
    };
    let told = aggregate(rt, alloc, &query, source, Growth::DEFAULT, &OpenGate, &Sum);
    told == Err(AggregateFault::Run(RunFault::Memory))
}

#[test]
fn a_worker_without_room_to_fold_is_told_as_memory(rt: HostRuntime) {
    for workers in WORKERS {
        assert!(rt; is_told_of_a_fold(&rt, rt.alloc(), workers), "{workers}");
    }
}
