//! What a run has delivered that its token stopped.
ghost use Rattle.std.specs.Prelude.{◌≡◌, false, ⊤};

use plinq_enumerator::Growth;
use plinq_lambda::Formula;
use plinq_merge::{Cancel, CancelAfter, CancelFlag, Sink};
use plinq_ops::{MergeOption, Query};
use plinq_run::{OpenGate, RunFault, run_with};
use plinq_source::{Ending, RangeSource};
use plinq_testing::{Counted, Held, Seen, Taken, WORKERS, Watched, built, ordered, waits_for};
use std::alloc::Global;
use std::sync::Wait;
use std::sync::atomic::{AtomicU64, Ordering};
use std::test::*;
use std::thread::{Threads, join};

const CANCELLED: Result<Ending, RunFault> = Err(RunFault::Cancelled);

/// How a run of so many numbers ends.
fn told_of<C, K, R>(
    rt: &R,
    alloc: Global,
    query: &Query<Formula>,
    count: u64,
    token: &mut C,
    sink: &mut K,
) -> Result<Ending, RunFault>
where
    C: Cancel,
    K: Sink<Item = i64>,
    R: Threads + Wait + Sync,
    requires untold { C.has_told token.old ≡ false }
{
    let Ok(source) = RangeSource::new(1, count) else {
        return Err(RunFault::Incomplete);
    };
    match run_with(
        rt,
        alloc,
        query,
        source,
        Growth::ONE,
        &OpenGate,
        token,
        sink,
    ) {
        Ok(report) => Ok(report.ending),
        Err(fault) => Err(fault),
    }
}

/// How many batches a run has delivered that its token stops after so many, and whether the token has told so.
fn delivered<R: Threads + Wait + Sync>(
    rt: &R,
    alloc: Global,
    query: &Query<Formula>,
    most: u64,
) -> (usize, bool, bool) {
    let mut token = CancelAfter::new(most);
    let mut sink = Taken::new(alloc, usize::MAX);
    let told = told_of(rt, alloc, query, 3, &mut token, &mut sink);
    (sink.batches.len(), told == CANCELLED, token.told())
}

#[test]
fn a_token_has_told_where_the_run_was_stopped(rt: HostRuntime) -> Result<(), Fail> {
    for workers in WORKERS {
        let query = ordered(rt.alloc(), MergeOption::NotBuffered, workers)?;
        assert!(rt; delivered(&rt, rt.alloc(), &query, 0) == (0, true, true));
        assert!(rt; delivered(&rt, rt.alloc(), &query, 3) == (3, true, true));
        assert!(rt; delivered(&rt, rt.alloc(), &query, 4) == (3, false, false));
        let query = built(query.take(0))?;
        assert!(rt; delivered(&rt, rt.alloc(), &query, 0) == (0, true, true));
        assert!(rt; delivered(&rt, rt.alloc(), &query, 1) == (0, false, false));
    }
    Ok(())
}

/// Whether a flag that was set before stops a run before the first batch.
fn is_stopped_at_once<R: Threads + Wait + Sync>(
    rt: &R,
    alloc: Global,
    query: &Query<Formula>,
) -> bool {
    let flag = CancelFlag::new();
    flag.cancel();
    let mut token = flag.token();
    let mut sink = Taken::new(alloc, usize::MAX);
    let told = told_of(rt, alloc, query, 17, &mut token, &mut sink);
    told == CANCELLED && sink.batches.is_empty()
}

/// A sink of the numbers from 1 on that sets a flag when it has taken so many batches.
#[derive(Drop)]
struct Sets<'a> {
    flag: &'a CancelFlag,
    at: u64,
    sink: Counted,
}

impl<'a> Sink for Sets<'a> {
    type Item = i64;

    ghost accepts = { λ _ _ _. ⊤ };

    ghost refuses = { λ _ _ _ _. ⊤ };

    fn batch(&mut self, items: &[i64]) -> Result<(), u32> {
        let told = self.sink.batch(items);
        if self.sink.batches == self.at {
            self.flag.cancel();
        }
        told
    }
}

/// Whether a flag that the second batch sets stops a run before the third.
fn is_stopped_at_the_third<R: Threads + Wait + Sync>(
    rt: &R,
    alloc: Global,
    query: &Query<Formula>,
) -> bool {
    let flag = CancelFlag::new();
    let mut token = flag.token();
    let mut sink = Sets {
        flag: &flag,
        at: 2,
        sink: Counted::numbers_from(1),
    };
    let told = told_of(rt, alloc, query, 17, &mut token, &mut sink);
    let sink = sink.sink;
    told == CANCELLED && sink.batches == 2 && sink.count == 2 && sink.is_in_order
}

/// How many numbers a run is asked for that another thread stops.
const MANY: u64 = 10_000;

/// At which batch that thread sets the flag.
const STOPPED_AT: u64 = 1_000;

/// Has another thread set the flag of a run at batch number [`STOPPED_AT`], with which the sink stays until then. Reports whether
/// that was the last batch.
fn is_stopped_by_another<R: Threads + Wait + Sync>(
    rt: &R,
    alloc: Global,
    query: &Query<Formula>,
) -> bool {
    let flag = CancelFlag::new();
    let seen = Seen::new();
    let set = AtomicU64::new(0);
    let running = || {
        let mut token = flag.token();
        let numbers = Counted::numbers_from(1);
        let mut sink = Watched {
            sink: Held::at(STOPPED_AT - 1, &set, 1, numbers),
            seen: &seen,
        };
        told_of(rt, alloc, query, MANY, &mut token, &mut sink)
    };
    let stopping = || {
        let has_come = waits_for(&seen.came, STOPPED_AT);
        flag.cancel();
        set.store(1, Ordering::SeqCst);
        has_come
    };
    let (told, has_come) = join(rt, running, stopping);
    told == CANCELLED && has_come && seen.came.load(Ordering::SeqCst) == STOPPED_AT
}

#[test]
fn a_flag_stops_the_next_batch(rt: HostRuntime) -> Result<(), Fail> {
    for workers in WORKERS {
        let query = ordered(rt.alloc(), MergeOption::NotBuffered, workers)?;
        assert!(rt; is_stopped_at_once(&rt, rt.alloc(), &query), "{workers}");
        assert!(rt;
            is_stopped_at_the_third(&rt, rt.alloc(), &query),
            "{workers}"
        );
        assert!(rt; is_stopped_by_another(&rt, rt.alloc(), &query), "{workers}");
    }
    Ok(())
}
