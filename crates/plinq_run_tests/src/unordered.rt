//! What a run that doesn't keep the order reports of the requests to its source, and delivers.
use crate::beside_one_thread::list_of;
use plinq_enumerator::{Growth, replays};
use plinq_lambda::Formula;
use plinq_ops::{BuildFault, MergeOption, Query};
use plinq_run::{OpenGate, run};
use plinq_source::Ending;
use plinq_testing::{Taken, WORKERS, built};
use std::alloc::Global;
use std::sync::Wait;
use std::test::*;
use std::thread::Threads;

/// The sum of some batches of one item each.
fn sum_of(batches: &[Vec<i64>]) -> Option<i64> {
    let mut sum = 0i64;
    for batch in batches {
        let [item] = batch.as_slice() else {
            return None;
        };
        sum = sum.wrapping_add(*item);
    }
    Some(sum)
}

fn adding_one(alloc: Global, workers: u64) -> Result<Query<Formula>, BuildFault> {
    let query = built(Query::new(alloc).with_merge(MergeOption::NotBuffered))?;
    let query = built(query.with_degree(workers))?;
    built(query.select(Formula::Add(1)))
}

fn are_right<R: Threads + Wait + Sync>(rt: &R, alloc: Global, workers: u64) -> bool {
    let (Ok(query), Some(source)) = (
        adding_one(alloc, workers),
        list_of(alloc, &[3, 1, 4], Some(7)),
    ) else {
        return false;
    };
    let mut sink = Taken::new(alloc, usize::MAX);
    match run(rt, alloc, &query, source, Growth::ONE, &OpenGate, &mut sink) {
        Ok(report) => {
            report.ending == Ending::Refused(7)
                && replays(&report.records, 3, Ending::Refused(7))
                && sink.batches.len() == 3
                && sum_of(&sink.batches) == Some(11)
        }
        Err(_) => false,
    }
}

#[test]
fn one_is_added_to_each_in_any_order(rt: HostRuntime) {
    for workers in WORKERS {
        assert!(rt; are_right(&rt, rt.alloc(), workers), "by {workers}");
    }
}
