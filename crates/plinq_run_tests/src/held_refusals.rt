//! A sink that refuses a batch while workers are held at one of their stations.
ghost use Rattle.plinq_lambda.specs.Formula.{formula_meaning};
ghost use Rattle.plinq_lambda.specs.Short.{formula_meaning-short};

use crate::asking::{Numbers, ending_of};
use plinq_lambda::{ExpandFault, Formula, Lambda};
use plinq_ops::{MergeOption, Op};
use plinq_run::{Gate, RunFault};
use plinq_testing::{Seen, Taken, WORKERS, Watched, query_of, waits_for};
use std::alloc::Global;
use std::sync::Wait;
use std::sync::atomic::{AtomicBool, AtomicU64, Ordering};
use std::test::*;
use std::thread::Threads;

/// Where workers are held.
#[derive(Clone, Copy, PartialEq)]
enum Station {
    BeforeTake,
    AfterChunk,
    BeforeSend,
}

/// Holds all at one station that aren't needed for the batches up to the refused one, until that was refused.
#[derive(Drop)]
struct Holds {
    station: Station,
    /// The number of the refused batch, which is that of its element.
    refused: u64,
    about: AtomicU64,
    seen: Seen,
    gave_up: AtomicBool,
}

impl Holds {
    fn hold(&self, station: Station, number: u64) {
        let is_held = self.station == station && number > self.refused;
        if is_held && !waits_for(&self.seen.refused, 1) {
            self.gave_up.store(true, Ordering::SeqCst);
        }
    }
}

impl Gate for Holds {
    fn before_take(&self, _: u64) {
        let number = self.about.fetch_add(1, Ordering::SeqCst);
        self.hold(Station::BeforeTake, number);
    }

    fn after_chunk(&self, _: u64, first: u64) {
        self.hold(Station::AfterChunk, first);
    }
}

/// A formula at the station before a result is sent.
#[derive(Clone, Copy)]
struct Sending<'a> {
    formula: Formula,
    holds: &'a Holds,
}

impl<'a> Lambda for Sending<'a> {
    type Item = i64;

    ghost meaning = { λ t. formula_meaning t.formula };

    ghost short = { λ t x. formula_meaning-short t.formula x };

    fn map(&self, x: i64) -> Result<i64, u32> {
        self.holds.hold(Station::BeforeSend, x.unsigned_abs());
        self.formula.map(x)
    }

    fn test(&self, x: i64) -> Result<bool, u32> {
        self.formula.test(x)
    }

    fn expand(&self, alloc: Global, x: i64) -> Result<Vec<i64>, ExpandFault> {
        self.formula.expand(alloc, x)
    }
}

/// Whether these batches are the numbers from 0 on, each alone.
fn are_first(batches: &[Vec<i64>]) -> bool {
    let mut next = 0i64;
    for batch in batches {
        if batch.as_slice() != [next].as_slice() {
            return false;
        }
        next = next.wrapping_add(1);
    }
    true
}

/// Whether a run ends with the batch that its sink refuses, while workers are held at a station.
fn ends<R: Threads + Wait + Sync>(
    rt: &R,
    alloc: Global,
    workers: u64,
    station: Station,
    refused: u64,
) -> bool {
    let holds = Holds {
        station,
        refused,
        about: AtomicU64::new(0),
        seen: Seen::new(),
        gave_up: AtomicBool::new(false),
    };
    let sending = Sending {
        formula: Formula::Add(0),
        holds: &holds,
    };
    let query = query_of(
        alloc,
        &[Op::Select(sending)],
        MergeOption::NotBuffered,
        workers,
    );
    let mut sink = Watched {
        sink: Taken::new(alloc, refused as usize),
        seen: &holds.seen,
    };
    let told = ending_of(rt, alloc, query, Numbers::below(100), &holds, &mut sink);
    told == Err(RunFault::Sink(9))
        && !holds.gave_up.load(Ordering::SeqCst)
        && sink.sink.batches.len() as u64 == refused
        && are_first(&sink.sink.batches)
}

#[test]
fn a_sink_refuses_while_workers_are_held(rt: HostRuntime) {
    for station in [
        Station::BeforeTake,
        Station::AfterChunk,
        Station::BeforeSend,
    ] {
        for workers in WORKERS {
            for refused in [0u64, 1, 16] {
                assert!(rt;
                    ends(&rt, rt.alloc(), workers, station, refused),
                    "{workers} {refused}"
                );
            }
        }
    }
}
