//! What is reported to a gate.
use crate::beside_one_thread::{Setting, ask_range};
use plinq_aggregate::Sum;
use plinq_enumerator::Growth;
use plinq_lambda::Formula;
use plinq_ops::{BuildFault, MergeOption, Op, Query};
use plinq_run::{Gate, aggregate};
use plinq_source::RangeSource;
use plinq_testing::{WORKERS, built, unchanged};
use std::alloc::{AllocError, Global};
use std::sync::Wait;
use std::sync::atomic::{AtomicBool, AtomicU64, Ordering};
use std::test::*;
use std::thread::Threads;

/// What was reported to the gate of one worker.
#[derive(Drop)]
struct Passed {
    takes: AtomicU64,
    chunks: AtomicU64,
    /// The first key that its next chunk may have.
    least: AtomicU64,
}

/// A gate that notes whether it got a number that no worker has, a chunk without a take before it, or one whose
/// first key isn't above those before, or is within another chunk.
#[derive(Drop)]
struct Notes {
    workers: Vec<Passed>,
    /// The bits of a key that say where it is within its chunk, where all chunks have the same power of two.
    within: u64,
    is_wrong: AtomicBool,
}

impl Notes {
    fn of(alloc: Global, workers: u64, within: u64) -> Result<Notes, AllocError> {
        let mut passed = Vec::new(alloc);
        for _ in 0..workers {
            passed.push(Passed {
                takes: AtomicU64::new(0),
                chunks: AtomicU64::new(0),
                least: AtomicU64::new(0),
            })?;
        }
        Ok(Notes {
            workers: passed,
            within,
            is_wrong: AtomicBool::new(false),
        })
    }

    fn expect(&self, is_right: bool) {
        if !is_right {
            self.is_wrong.store(true, Ordering::SeqCst);
        }
    }

    /// Whether each worker has taken, and all that it took was a chunk.
    fn are_whole(&self) -> bool {
        for worker in self.workers.iter() {
            let takes = worker.takes.load(Ordering::SeqCst);
            if takes == 0 || takes != worker.chunks.load(Ordering::SeqCst) {
                return false;
            }
        }
        !self.is_wrong.load(Ordering::SeqCst)
    }
}

impl Gate for Notes {
    fn before_take(&self, worker: u64) {
        match self.workers.get(worker as usize) {
            Some(worker) => {
                worker.takes.fetch_add(1, Ordering::SeqCst);
            }
            None => self.expect(false),
        }
    }

    fn after_chunk(&self, worker: u64, first: u64) {
        let Some(worker) = self.workers.get(worker as usize) else {
            self.expect(false);
            return;
        };
        let before = worker.chunks.fetch_add(1, Ordering::SeqCst);
        self.expect(worker.takes.load(Ordering::SeqCst) == before.wrapping_add(1));
        let least = worker.least.swap(first.wrapping_add(1), Ordering::SeqCst);
        self.expect(first >= least && first & self.within == 0);
    }
}

/// Whether the gate of a run is told as it should be.
fn is_told<R: Threads + Wait + Sync>(rt: &R, alloc: Global, setting: Setting) -> bool {
    let Ok(gate) = Notes::of(alloc, setting.workers, 0) else {
        return false;
    };
    let ops = [Op::Filter(Formula::Even)];
    match ask_range(rt, alloc, 200, &ops, setting, &gate) {
        Some(answers) => answers.are_one() && gate.are_whole(),
        None => false,
    }
}

#[test]
fn a_gate_is_told_of_each_worker_in_order(rt: HostRuntime) -> Result<(), Fail> {
    let growth = Growth::new(1, 1, 4)?;
    for workers in WORKERS {
        for cancel_after in [None, Some(u64::MAX)] {
            let setting = Setting {
                growth,
                option: MergeOption::Default,
                cancel_after,
                ..Setting::by(workers)
            };
            assert!(rt; is_told(&rt, rt.alloc(), setting), "{workers}");
        }
    }
    Ok(())
}

/// A query for even numbers, with an operator after the merge or none.
fn evens(
    alloc: Global,
    workers: u64,
    is_by_key: bool,
    is_cut: bool,
) -> Result<Query<Formula>, BuildFault> {
    let query = unchanged(alloc, is_by_key, MergeOption::Default, workers)?;
    let query = built(query.filter(Formula::Even))?;
    if is_cut {
        built(query.take(1_000))
    } else {
        Ok(query)
    }
}

/// Whether the gate of an aggregate is told as it should be. Each chunk is to have four elements.
fn is_told_of_an_aggregate<R: Threads + Wait + Sync>(
    rt: &R,
    alloc: Global,
    workers: u64,
    query: Query<Formula>,
    growth: Growth,
) -> bool {
    let (Ok(gate), Ok(source)) = (Notes::of(alloc, workers, 3), RangeSource::new(0, 200)) else {
        return false;
    };
    let sum = aggregate(rt, alloc, &query, source, growth, &gate, &Sum);
    sum == Ok(9_900) && gate.are_whole()
}

#[test]
fn a_gate_is_told_of_each_worker_of_an_aggregate(rt: HostRuntime) -> Result<(), Fail> {
    let growth = Growth::new(4, 1, 4)?;
    for workers in WORKERS {
        for is_by_key in [true, false] {
            for is_cut in [true, false] {
                let query = evens(rt.alloc(), workers, is_by_key, is_cut)?;
                let is_told = is_told_of_an_aggregate(&rt, rt.alloc(), workers, query, growth);
                assert!(rt; is_told, "{workers} {is_by_key} {is_cut}");
            }
        }
    }
    Ok(())
}
