//! How many items workers send ahead of what is merged, if each element is expanded to many.
ghost use Rattle.std.specs.Prelude.{⊤};

use crate::asking::{Numbers, ending_of};
use plinq_lambda::Formula;
use plinq_merge::Sink;
use plinq_ops::{BuildFault, MergeOption, Query};
use plinq_run::OpenGate;
use plinq_source::Ending;
use plinq_testing::{Counted, Counts, Passed, built, lingers, unchanged, waits_for};
use std::alloc::Global;
use std::sync::Wait;
use std::sync::atomic::{AtomicU64, Ordering};
use std::test::*;
use std::thread::Threads;

/// How many numbers from 0 on there are, and what each is expanded to.
const NUMBERS: u64 = 200;

const COPIES: u64 = 10_000;

const ITEMS: i64 = 2_000_000;

/// The items of the answer added up: 10,000 times 0 to 199.
const SUM: i64 = 199_000_000;

/// A sink that is held with its first batch until each worker has taken, and then for as long as chunks are taken.
#[derive(Drop)]
pub(crate) struct WaitsForTaking<'a> {
    pub(crate) taken: &'a AtomicU64,
    pub(crate) workers: u64,
    /// How many chunks were taken when the first batch was let go; 0 before.
    pub(crate) taken_by_then: u64,
    pub(crate) sink: Counted,
}

/// Waits until so many chunks were taken, and then for as long as more are. How many were taken then.
pub(crate) fn taken_at_last(taken: &AtomicU64, least: u64) -> u64 {
    waits_for(taken, least);
    let mut last = 0u64;
    for _turn in 0..NUMBERS {
        let now = taken.load(Ordering::SeqCst);
        if now == last {
            break;
        }
        last = now;
        lingers();
    }
    last
}

impl<'a> WaitsForTaking<'a> {
    fn has_all(&self, by_key: bool) -> bool {
        let sink = &self.sink;
        sink.count == ITEMS && sink.sum == SUM && (sink.is_in_order || !by_key)
    }

    /// Each worker takes once, and again if its own result is among the first whose items are 3,971 for each worker at most:
    /// so many of 8 bytes with 256 more each fill 1,048,576 bytes.
    fn had_few(&self) -> bool {
        let again = self.workers.saturating_mul(3_971) / 10_000;
        let most = self.workers.saturating_add(again);
        self.workers <= self.taken_by_then && self.taken_by_then <= most
    }
}

impl<'a> Sink for WaitsForTaking<'a> {
    type Item = i64;

    ghost accepts = { λ _ _ _. ⊤ };

    ghost refuses = { λ _ _ _ _. ⊤ };

    fn batch(&mut self, items: &[i64]) -> Result<(), u32> {
        if self.sink.batches == 0 {
            self.taken_by_then = taken_at_last(self.taken, self.workers);
        }
        self.sink.batch(items)
    }
}

/// A query that expands each number, by key or by arrival.
fn expanding(alloc: Global, workers: u64, by_key: bool) -> Result<Query<Formula>, BuildFault> {
    let query = unchanged(alloc, by_key, MergeOption::AutoBuffered, workers)?;
    built(query.select_many(Formula::Repeat(COPIES as i64)))
}

/// Whether few chunks are taken while the sink is held, and all items come.
fn are_few<R: Threads + Wait + Sync>(rt: &R, alloc: Global, workers: u64, by_key: bool) -> bool {
    let passed = Passed::new();
    let gate = Counts {
        passed: &passed,
        gate: OpenGate,
    };
    let mut sink = WaitsForTaking {
        taken: &passed.taken,
        workers,
        taken_by_then: 0,
        sink: Counted::copies(COPIES),
    };
    let query = expanding(alloc, workers, by_key);
    let told = ending_of(rt, alloc, query, Numbers::below(NUMBERS), &gate, &mut sink);
    told == Ok(Ending::End) && sink.has_all(by_key) && sink.had_few()
}

#[test]
fn workers_wait_until_their_items_are_merged(rt: HostRuntime) {
    for workers in [1u64, 2, 8, 64] {
        for by_key in [true, false] {
            assert!(rt;
                are_few(&rt, rt.alloc(), workers, by_key),
                "{workers} {by_key}"
            );
        }
    }
}
