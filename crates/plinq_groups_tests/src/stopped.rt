//! Aggregates and mapped runs that a token stops.
ghost use Rattle.std.specs.Prelude.{◌≡◌, ◌||◌};

use crate::made_by_workers::BitsOf;
use plinq_enumerator::Growth;
use plinq_groups::{Collect, MapEach};
use plinq_lambda::Formula;
use plinq_merge::{Cancel, CancelAfter, CancelFlag, NeverCancel};
use plinq_ops::{Built, MergeOption, Query};
use plinq_run::{AggregateFault, OpenGate, RunFault, aggregate};
use plinq_source::{Ending, RangeSource};
use plinq_stopping::{aggregate_with, run_mapped_with};
use plinq_testing::{Taken, built};
use std::alloc::Global;
use std::sync::Wait;
use std::test::*;
use std::thread::Threads;

const CANCELLED: Result<Ending, RunFault> = Err(RunFault::Cancelled);

/// Nothing is as small.
const NONE: i64 = -1;

/// A source that no test sees the end of.
const ENDLESS: u64 = 1 << 40;

/// The token that returns `true` at its question of this number, and counts them.
#[derive(Drop)]
struct AtQuestion {
    at: u64,
    asked: u64,
    told: bool,
}

impl AtQuestion {
    fn new(at: u64) -> AtQuestion {
        AtQuestion {
            at,
            asked: 0,
            told: false,
        }
    }
}

impl Cancel for AtQuestion {
    ghost asks = { λ t n answer t'. t'.told ≡ (t.told || answer) };

    ghost has_told = { λ t. t.told };

    fn cancelled(&mut self, _delivered: u64) -> bool {
        self.asked = self.asked.saturating_add(1);
        let answer = self.asked >= self.at;
        self.told = self.told || answer;
        answer
    }

    fn told(&self) -> bool {
        self.told
    }

    ghost keeps_told = { λ t n answer t' asked. asked };
}

/// The numbers below the limit, by so many workers, and an operator after the merge if it is asked for.
fn query_of(alloc: Global, workers: u64, limit: i64, skips: bool) -> Built<Formula> {
    let query = Query::new(alloc)
        .as_ordered()?
        .with_degree(workers)?
        .with_merge(MergeOption::NotBuffered)?
        .filter(Formula::Below(limit))?;
    if skips {
        return query.skip(0);
    }
    Ok(query)
}

/// The numbers from 0 on that a query keeps of so many, in a list, unless the token stops it.
fn listed<C: Cancel, R: Threads + Wait + Sync>(
    rt: &R,
    alloc: Global,
    query: &Query<Formula>,
    count: u64,
    token: &mut C,
) -> Result<Vec<i64>, AggregateFault> {
    let Ok(source) = RangeSource::new(0, count) else {
        return Err(AggregateFault::Run(RunFault::Incomplete));
    };
    let list = Collect::new();
    match aggregate_with(
        rt,
        alloc,
        query,
        source,
        Growth::ONE,
        &OpenGate,
        token,
        &list,
    ) {
        Ok(items) => Ok(items.into_vec()),
        Err(fault) => Err(fault),
    }
}

/// How a run ends that delivers the bits of these numbers, of which 7 faults.
fn delivered<C: Cancel, R: Threads + Wait + Sync>(
    rt: &R,
    alloc: Global,
    query: &Query<Formula>,
    count: u64,
    token: &mut C,
    sink: &mut Taken<u64>,
) -> Result<Ending, RunFault> {
    let Ok(source) = RangeSource::new(0, count) else {
        return Err(RunFault::Incomplete);
    };
    let bits = MapEach {
        make: BitsOf { but: 7 },
    };
    run_mapped_with(
        rt,
        alloc,
        query,
        source,
        Growth::ONE,
        &OpenGate,
        &bits,
        token,
        sink,
    )
}

/// Whether a query that keeps nothing of an endless source is stopped at the fifth question, as an aggregate and as a run.
fn is_stopped<R: Threads + Wait + Sync>(rt: &R, alloc: Global, workers: u64) -> bool {
    let Ok(query) = query_of(alloc, workers, NONE, false) else {
        return false;
    };
    let mut token = AtQuestion::new(5);
    let list = listed(rt, alloc, &query, ENDLESS, &mut token);
    let was_cancelled = list.err() == Some(AggregateFault::Run(RunFault::Cancelled));
    let mut other = AtQuestion::new(5);
    let mut sink = Taken::new(alloc, usize::MAX);
    let ended = delivered(rt, alloc, &query, ENDLESS, &mut other, &mut sink);
    let asked = token.asked == 5 && other.asked == 5 && token.told() && other.told();
    was_cancelled && ended == CANCELLED && sink.batches.is_empty() && asked
}

#[test]
fn what_keeps_nothing_can_be_stopped(rt: HostRuntime) {
    for workers in [1, 2, 8, 64] {
        assert!(rt; is_stopped(&rt, rt.alloc(), workers), "{workers}");
    }
}

/// Whether a flag that was set before stops both before anything is delivered, also if nothing is taken.
fn is_stopped_at_once<R: Threads + Wait + Sync>(
    rt: &R,
    alloc: Global,
    query: &Query<Formula>,
) -> bool {
    let flag = CancelFlag::new();
    flag.cancel();
    let mut sink = Taken::new(alloc, usize::MAX);
    let list = listed(rt, alloc, query, 4, &mut flag.token());
    let ended = delivered(rt, alloc, query, 4, &mut flag.token(), &mut sink);
    let was_cancelled = list.err() == Some(AggregateFault::Run(RunFault::Cancelled));
    was_cancelled && ended == CANCELLED && sink.batches.is_empty()
}

#[test]
fn a_flag_that_was_set_stops_at_once(rt: HostRuntime) -> Result<(), Fail> {
    for workers in [1, 2, 8, 64] {
        for skips in [false, true] {
            let query = built(query_of(rt.alloc(), workers, 4, skips))?;
            assert!(rt; is_stopped_at_once(&rt, rt.alloc(), &query), "{workers}");
            let query = built(query.take(0))?;
            assert!(rt; is_stopped_at_once(&rt, rt.alloc(), &query), "{workers}");
        }
    }
    Ok(())
}

/// Whether these are batches of one number each, from 0 on.
fn counts_up(batches: &[Vec<u64>]) -> bool {
    let mut next = 0u64;
    for batch in batches {
        if batch.as_slice() != [next].as_slice() {
            return false;
        }
        next = next.wrapping_add(1);
    }
    true
}

/// How many batches were delivered, if those are the first, when a token stops after so many.
fn delivers<R: Threads + Wait + Sync>(
    rt: &R,
    alloc: Global,
    query: &Query<Formula>,
    count: u64,
    most: u64,
    ended: Result<Ending, RunFault>,
) -> Option<usize> {
    let mut token = CancelAfter::new(most);
    let mut sink = Taken::new(alloc, usize::MAX);
    let told = delivered(rt, alloc, query, count, &mut token, &mut sink);
    let is_right = told == ended && token.told() == (ended == CANCELLED);
    if is_right && counts_up(&sink.batches) {
        Some(sink.batches.len())
    } else {
        None
    }
}

#[test]
fn so_many_batches_are_delivered(rt: HostRuntime) -> Result<(), Fail> {
    let alloc = rt.alloc();
    for workers in [1, 2, 8, 64] {
        for skips in [false, true] {
            let query = built(query_of(alloc, workers, 100, skips))?;
            assert!(rt;
                delivers(&rt, alloc, &query, 5, 0, CANCELLED) == Some(0),
                "{workers}"
            );
            assert!(rt;
                delivers(&rt, alloc, &query, 5, 3, CANCELLED) == Some(3),
                "{workers}"
            );
            // (also after the last batch, before the ending is reported)
            assert!(rt;
                delivers(&rt, alloc, &query, 5, 5, CANCELLED) == Some(5),
                "{workers}"
            );
            let end = Ok(Ending::End);
            assert!(rt;
                delivers(&rt, alloc, &query, 5, 6, end) == Some(5),
                "{workers}"
            );
            let fault = Ok(Ending::Fault(5));
            assert!(rt;
                delivers(&rt, alloc, &query, 100, 8, fault) == Some(7),
                "{workers}"
            );
            assert!(rt;
                delivers(&rt, alloc, &query, 100, 7, CANCELLED) == Some(7),
                "{workers}"
            );
        }
    }
    Ok(())
}

/// Whether a token that lets everything pass changes no value, and is asked.
fn is_let_pass<R: Threads + Wait + Sync>(rt: &R, alloc: Global, query: &Query<Formula>) -> bool {
    let Ok(source) = RangeSource::new(0, 50) else {
        return false;
    };
    let list = Collect::new();
    let plain = aggregate(rt, alloc, query, source, Growth::ONE, &OpenGate, &list);
    let mut token = AtQuestion::new(1_000);
    let let_pass = listed(rt, alloc, query, 50, &mut token);
    let never = listed(rt, alloc, query, 50, &mut NeverCancel);
    match (plain, let_pass, never) {
        (Ok(plain), Ok(let_pass), Ok(never)) => {
            let items = plain.into_vec();
            items == let_pass && items == never && token.asked > 0 && !token.told()
        }
        _ => false,
    }
}

#[test]
fn what_is_let_pass_is_as_without_a_token(rt: HostRuntime) -> Result<(), Fail> {
    for workers in [1, 2, 8, 64] {
        for skips in [false, true] {
            let query = built(query_of(rt.alloc(), workers, 40, skips))?;
            assert!(rt; is_let_pass(&rt, rt.alloc(), &query), "{workers}");
        }
    }
    Ok(())
}
