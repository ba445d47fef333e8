//! What workers do after a key that ends the run.
ghost use Rattle.std.specs.Prelude.{Ok, Err, false};

use crate::asking::{Numbers, ending_of};
use plinq_enumerator::Growth;
use plinq_lambda::{ExpandFault, Lambda};
use plinq_ops::{BuildFault, Query};
use plinq_run::Gate;
use plinq_source::Ending;
use plinq_testing::{Taken, built, waits_for};
use std::alloc::Global;
use std::sync::Wait;
use std::sync::atomic::{AtomicBool, AtomicU64, Ordering};
use std::test::*;
use std::thread::Threads;

/// A lambda that no element passes, and that notes the greatest which it tests.
#[derive(Drop)]
struct Noting<'a> {
    greatest: &'a AtomicU64,
}

impl<'a> Lambda for Noting<'a> {
    type Item = i64;

    ghost meaning = { λ _. record { map = λ x. Ok x; test = λ x. Ok false; expand = λ x. Err 1 } };

    ghost short = { λ _ _. tt };

    fn map(&self, x: i64) -> Result<i64, u32> {
        Ok(x)
    }

    fn test(&self, x: i64) -> Result<bool, u32> {
        self.greatest.fetch_max(x.unsigned_abs(), Ordering::SeqCst);
        Ok(false)
    }

    fn expand(&self, _: Global, _: i64) -> Result<Vec<i64>, ExpandFault> {
        Err(ExpandFault::Code(1))
    }
}

/// A gate for two workers. The one with key 0 goes on once the other has key 1, and that one once the first has its result
/// after it and would take again.
#[derive(Drop)]
struct OneAfterAnother {
    /// The worker with key 0, and one more; 0 as long as none has it.
    first: AtomicU64,
    others: AtomicU64,
    goes_on: AtomicU64,
    gave_up: AtomicBool,
}

impl OneAfterAnother {
    fn wait(&self, word: &AtomicU64) {
        if !waits_for(word, 1) {
            self.gave_up.store(true, Ordering::SeqCst);
        }
    }
}

impl Gate for OneAfterAnother {
    fn before_take(&self, worker: u64) {
        if self.first.load(Ordering::SeqCst) == worker.wrapping_add(1) {
            self.goes_on.store(1, Ordering::SeqCst);
        }
    }

    fn after_chunk(&self, worker: u64, first: u64) {
        if first == 0 && self.goes_on.load(Ordering::SeqCst) == 0 {
            self.first.store(worker.wrapping_add(1), Ordering::SeqCst);
            self.wait(&self.others);
        }
        if first == 1 {
            self.others.store(1, Ordering::SeqCst);
            self.wait(&self.goes_on);
        }
    }
}

/// A query that keeps the order, and takes while its lambda says so.
fn taking_while(alloc: Global, greatest: &AtomicU64) -> Result<Query<Noting<'_>>, BuildFault> {
    let query = built(Query::new(alloc).as_ordered())?;
    let query = built(query.with_degree(2))?;
    built(query.take_while(Noting { greatest }))
}

/// The greatest of 1, 2 and 3 that is tested by two workers, of which the second has its chunk before the first has ended the
/// run.
fn greatest_tested<R: Threads + Wait + Sync>(rt: &R, alloc: Global) -> Option<u64> {
    let greatest = AtomicU64::new(0);
    let gate = OneAfterAnother {
        first: AtomicU64::new(0),
        others: AtomicU64::new(0),
        goes_on: AtomicU64::new(0),
        gave_up: AtomicBool::new(false),
    };
    let numbers = Numbers {
        first: 1,
        count: 3,
        growth: Growth::ONE,
    };
    let query = taking_while(alloc, &greatest);
    let mut sink = Taken::new(alloc, usize::MAX);
    let told = ending_of(rt, alloc, query, numbers, &gate, &mut sink);
    let is_well = told == Ok(Ending::End) && sink.batches.is_empty();
    if is_well && !gate.gave_up.load(Ordering::SeqCst) {
        return Some(greatest.load(Ordering::SeqCst));
    }
    None
}

#[test]
fn nothing_is_tested_after_a_known_end(rt: HostRuntime) {
    assert!(rt; greatest_tested(&rt, rt.alloc()) == Some(1));
}
