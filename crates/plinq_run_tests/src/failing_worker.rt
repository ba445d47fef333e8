//! A worker that has no room for a result while the others sleep: before the lock, before the full queue, or too far ahead.
ghost use Rattle.std.specs.Prelude.{◌≡◌, IfSome};
ghost use Rattle.plinq_source.specs.Walked.{range_given};
ghost use Rattle.plinq_lambda.specs.Formula.{formula_meaning};
ghost use Rattle.plinq_lambda.specs.Short.{formula_meaning-short};

use plinq_enumerator::Growth;
use plinq_lambda::{ExpandFault, Formula, Lambda};
use plinq_ops::{BuildFault, MergeOption, Query};
use plinq_run::{RunFault, run};
use plinq_source::RangeSource;
use plinq_testing::{
    Counts, Held, Inside, KeepsBack, KeepsInside, Passed, Seen, Taken, Watched, built, lingers,
    unchanged, waits_for,
};
use std::alloc::Global;
use std::sync::Wait;
use std::sync::atomic::{AtomicBool, AtomicU64, Ordering};
use std::test::*;
use std::thread::Threads;

/// A run over the numbers from 0 on, of which a worker fails late.
#[derive(Clone, Copy)]
struct Late {
    workers: u64,
    is_by_key: bool,
    /// What each number is expanded to.
    formula: Formula,
    /// There is no room to expand this number. That is known once workers were about to take so often, and so many chunks were
    /// taken, and a while later.
    failing: i64,
    about: u64,
    taken: u64,
    /// This number comes only after the worker has failed.
    slow: i64,
    /// Whether the sink is held with its first batch until then.
    is_held: bool,
    /// Whether key 0 is held back until then.
    is_first_held: bool,
}

/// How far a run has come.
#[derive(Drop)]
struct Standing {
    passed: Passed,
    seen: Seen,
    inside: Inside,
    /// How many chunks were taken when the worker failed.
    taken_by_then: AtomicU64,
    /// 1 once the worker has failed.
    failed: AtomicU64,
    /// Whether the worker has waited for too long.
    has_given_up: AtomicBool,
}

impl Standing {
    fn new() -> Standing {
        Standing {
            passed: Passed::new(),
            seen: Seen::new(),
            inside: Inside::new(),
            taken_by_then: AtomicU64::new(0),
            failed: AtomicU64::new(0),
            has_given_up: AtomicBool::new(false),
        }
    }

    fn awaits(&self, word: &AtomicU64, least: u64) {
        if !waits_for(word, least) {
            self.has_given_up.store(true, Ordering::SeqCst);
        }
    }

    /// Whether the worker or the source has waited for too long.
    fn gave_up(&self) -> bool {
        self.inside.gave_up() || self.has_given_up.load(Ordering::SeqCst)
    }

    /// A gate that holds all keys but the first back until the sink has a batch, if that is to be held. If key 0 is to be held,
    /// it holds that alone until the worker has failed.
    fn gate(&self, late: Late) -> Counts<'_, KeepsBack<'_>> {
        let gate = if late.is_first_held {
            KeepsBack::at(0, &self.failed, 1)
        } else {
            KeepsBack::all_but_first(&self.seen.came, u64::from(late.is_held))
        };
        Counts {
            passed: &self.passed,
            gate,
        }
    }

    /// A sink that is held with its first batch until the worker has failed, if it is to be.
    fn sink(&self, alloc: Global, late: Late) -> Watched<'_, Held<'_, Taken<i64>>> {
        let number = if late.is_held { 0 } else { u64::MAX };
        Watched {
            sink: Held::at(number, &self.failed, 1, Taken::new(alloc, usize::MAX)),
            seen: &self.seen,
        }
    }
}

/// A formula that has no room for one number.
#[derive(Clone, Copy)]
struct NoRoomForOne<'a> {
    late: Late,
    standing: &'a Standing,
}

impl<'a> Lambda for NoRoomForOne<'a> {
    type Item = i64;

    ghost meaning = { λ t. formula_meaning t.late.formula };

    ghost short = { λ t x. formula_meaning-short t.late.formula x };

    fn map(&self, x: i64) -> Result<i64, u32> {
        self.late.formula.map(x)
    }

    fn test(&self, x: i64) -> Result<bool, u32> {
        self.late.formula.test(x)
    }

    fn expand(&self, alloc: Global, x: i64) -> Result<Vec<i64>, ExpandFault> {
        let items = self.late.formula.expand(alloc, x)?;
        if x != self.late.failing {
            return Ok(items);
        }
        let standing = self.standing;
        standing.awaits(&standing.passed.about, self.late.about);
        standing.awaits(&standing.passed.taken, self.late.taken);
        lingers();
        let taken = standing.passed.taken.load(Ordering::SeqCst);
        standing.taken_by_then.store(taken, Ordering::SeqCst);
        standing.failed.store(1, Ordering::SeqCst);
        Err(ExpandFault::Memory)
    }
}

/// Whether these batches are of so many first numbers at most, each alone: by key from 0 on.
fn are_first(batches: &[Vec<i64>], most: i64, is_by_key: bool) -> bool {
    let mut next = 0i64;
    for batch in batches {
        let [number] = batch.as_slice() else {
            return false;
        };
        let is_next = *number == next || !is_by_key;
        if !is_next || *number < 0 || *number >= most {
            return false;
        }
        next = next.wrapping_add(1);
    }
    next <= most
}

/// A query that expands each number, by key or by arrival.
fn expanding(
    alloc: Global,
    late: Late,
    standing: &Standing,
) -> Result<Query<NoRoomForOne<'_>>, BuildFault> {
    let query = unchanged(
        alloc,
        late.is_by_key,
        MergeOption::NotBuffered,
        late.workers,
    )?;
    built(query.select_many(NoRoomForOne { late, standing }))
}

/// The greatest range: far more than may be taken. One number comes only after the worker has failed.
fn from_zero<'a>(late: Late, standing: &'a Standing) -> Option<KeepsInside<'a, RangeSource>>
    ensures { IfSome result (λ s. range_given s.source ≡ 0) }
{
    let Ok(source) = RangeSource::new(0, 1_099_511_627_776) else {
        return None;
    };
    Some(KeepsInside {
        source,
        late: late.slow,
        word: &standing.failed,
        inside: &standing.inside,
    })
}

/// What a run has delivered that ends for lack of room.
fn delivered<R: Threads + Wait + Sync>(
    rt: &R,
    alloc: Global,
    late: Late,
    standing: &Standing,
) -> Option<Vec<Vec<i64>>> {
    let source = from_zero(late, standing)?;
    let gate = standing.gate(late);
    let mut sink = standing.sink(alloc, late);
    let query = expanding(alloc, late, standing).ok()?;
    match run(rt, alloc, &query, source, Growth::ONE, &gate, &mut sink) {
        Err(RunFault::Memory) if !sink.sink.gave_up && !gate.gate.gave_up() => {
            let Held { sink, .. } = sink.sink;
            Some(sink.batches)
        }
        _ => None,
    }
}

/// Whether the run ends so, no more chunks than that were taken when the worker failed, and no more batches delivered.
fn ends<R: Threads + Wait + Sync>(
    rt: &R,
    alloc: Global,
    late: Late,
    most_taken: u64,
    most_batches: i64,
) -> bool {
    let standing = Standing::new();
    let Some(batches) = delivered(rt, alloc, late, &standing) else {
        return false;
    };
    !standing.gave_up()
        && standing.taken_by_then.load(Ordering::SeqCst) <= most_taken
        && are_first(&batches, most_batches, late.is_by_key)
}

const WORKERS: [u64; 3] = [2, 8, 64];

impl Late {
    /// Number 0 fails at once, by so many workers, whom nothing else keeps back.
    fn by(workers: u64, is_by_key: bool) -> Late {
        Late {
            workers,
            is_by_key,
            formula: Formula::Repeat(1),
            failing: 0,
            about: 0,
            taken: 0,
            slow: -1,
            is_held: false,
            is_first_held: false,
        }
    }
}

/// Number 3 fails once number 4 is kept inside the lock, and all other workers have passed the gate before it.
#[test]
fn a_run_ends_whose_workers_sleep_before_the_lock(rt: HostRuntime) {
    for workers in WORKERS {
        for is_by_key in [true, false] {
            let late = Late {
                failing: 3,
                about: workers.saturating_add(3),
                taken: 4,
                slow: 4,
                ..Late::by(workers, is_by_key)
            };
            assert!(rt; ends(&rt, rt.alloc(), late, 4, 3), "{workers} {is_by_key}");
        }
    }
}

/// Number 1 fails once the sink is held with number 0, 256 results fill the queue, and each other worker has one more.
#[test]
fn a_run_ends_whose_workers_sleep_before_the_queue(rt: HostRuntime) {
    for workers in WORKERS {
        for is_by_key in [true, false] {
            let taken = workers.saturating_add(257);
            let late = Late {
                failing: 1,
                taken,
                is_held: true,
                ..Late::by(workers, is_by_key)
            };
            assert!(rt;
                ends(&rt, rt.alloc(), late, taken, 1),
                "{workers} {is_by_key}"
            );
        }
    }
}

/// Number 0 fails once the others have taken all of the window, and each but one of them one more.
#[test]
fn a_run_ends_whose_workers_sleep_before_the_window(rt: HostRuntime) {
    // (not by 64, of whom a quarter of a million chunks would be wanted)
    for workers in [2u64, 8] {
        // (3,971 chunks of one element for each worker, and number 0: so many of 8 bytes with 256 more each fill 1,048,576 bytes)
        let taken = workers.saturating_mul(3_971).saturating_add(1);
        let late = Late {
            taken,
            ..Late::by(workers, true)
        };
        let most = taken.saturating_add(workers).saturating_sub(2);
        assert!(rt; ends(&rt, rt.alloc(), late, most, 0), "{workers}");
    }
}

/// Number 0 fails once each worker has taken, and as many items were sent as may be ahead of what is merged.
#[test]
fn a_run_ends_whose_workers_sleep_over_items(rt: HostRuntime) {
    for workers in WORKERS {
        let late = Late {
            formula: Formula::Repeat(10_000),
            taken: workers,
            ..Late::by(workers, true)
        };
        // (3,971 items for each worker, so that some may take a second time)
        let most = workers.saturating_add(workers.saturating_mul(3_971) / 10_000);
        assert!(rt; ends(&rt, rt.alloc(), late, most, 0), "{workers}");
    }
}

/// Number 3 fails while key 0 is held back. That key comes a while later, and is the first that could be delivered.
#[test]
fn nothing_is_delivered_after_a_failed_worker(rt: HostRuntime) {
    for workers in WORKERS {
        let late = Late {
            failing: 3,
            taken: 4,
            is_first_held: true,
            ..Late::by(workers, true)
        };
        assert!(rt; ends(&rt, rt.alloc(), late, u64::MAX, 0), "{workers}");
    }
}
