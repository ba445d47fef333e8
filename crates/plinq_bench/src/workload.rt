use crate::spinning::{mix, spin};
use crate::work::{Cost, Work, kept, turns};
use plinq_enumerator::{Growth, GrowthFault};
use plinq_lambda::Formula;
use plinq_ops::{BuildFault, MergeOption, Op, Query};
use plinq_run::TimedGate;
use std::alloc::Global;

/// The turns of an element that takes about 0.7 microseconds.
const TURNS: u64 = 500;

/// The most items of a chunk if chunks grow further than by default.
const GROWN: u64 = 2_048;

/// A workload by its name.
#[derive(Clone, Copy, PartialEq, Eq)]
pub(crate) enum Workload {
    Cheap,
    Grown,
    Full,
    Heavy,
    Skewed,
    Ramp,
    Late,
    Streamed,
    TakeWhile,
    Take,
    Sum,
}

impl Workload {
    pub(crate) const ALL: [Workload; 11] = [
        Workload::Cheap,
        Workload::Grown,
        Workload::Full,
        Workload::Heavy,
        Workload::Skewed,
        Workload::Ramp,
        Workload::Late,
        Workload::Streamed,
        Workload::TakeWhile,
        Workload::Take,
        Workload::Sum,
    ];

    pub(crate) fn name(self) -> &'static str {
        match self {
            Workload::Cheap => "cheap",
            Workload::Grown => "grown",
            Workload::Full => "full",
            Workload::Heavy => "heavy",
            Workload::Skewed => "skewed",
            Workload::Ramp => "ramp",
            Workload::Late => "late",
            Workload::Streamed => "streamed",
            Workload::TakeWhile => "take_while",
            Workload::Take => "take",
            Workload::Sum => "sum",
        }
    }

    pub(crate) fn named(name: &str) -> Option<Workload> {
        for workload in Workload::ALL {
            if workload.name() == name {
                return Some(workload);
            }
        }
        None
    }

    /// How many items it has if no number is given.
    pub(crate) fn usual_items(self) -> i64 {
        match self {
            Workload::Cheap | Workload::Grown | Workload::Full | Workload::Sum => 10_000_000,
            Workload::Heavy | Workload::Skewed | Workload::Ramp => 1_000_000,
            Workload::Late => 400_000,
            Workload::Streamed => 200_000,
            Workload::TakeWhile => 100_000,
            Workload::Take => 3,
        }
    }

    /// How many elements its source has, if it counts so many items.
    pub(crate) fn source_length(self, items: u64) -> u64 {
        match self {
            Workload::TakeWhile | Workload::Take => 1_000_000_000,
            _ => items,
        }
    }

    /// The gate that its workers pass, which has a clock unless its chunks grow as they are told.
    pub(crate) fn gate<C>(self, clock: &C) -> TimedGate<'_, C> {
        if self == Workload::Grown {
            return TimedGate::untimed();
        }
        TimedGate::new(clock)
    }

    /// How its chunks grow without a clock.
    pub(crate) fn growth(self) -> Result<Growth, GrowthFault> {
        match self {
            Workload::Grown => Growth::new(1, 3, GROWN),
            _ => Ok(Growth::DEFAULT),
        }
    }

    /// Whether it shows when the first result came.
    pub(crate) fn shows_first(self) -> bool {
        self == Workload::Streamed || self == Workload::TakeWhile
    }

    /// Whether it shows how many elements left the source.
    pub(crate) fn shows_pulled(self) -> bool {
        self == Workload::TakeWhile || self == Workload::Take
    }

    /// Its query, for so many workers.
    pub(crate) fn query(
        self,
        alloc: Global,
        workers: u64,
        items: i64,
    ) -> Result<Query<Work>, BuildFault> {
        let query = Query::new(alloc).with_degree(workers)?;
        let query = query.with_merge(self.merge())?;
        let query = if self == Workload::Sum {
            query
        } else {
            query.as_ordered()?
        };
        let query = query.with_op(self.step(items))?;
        match self.last_step(items) {
            Some(op) => Ok(query.with_op(op)?),
            None => Ok(query),
        }
    }

    fn merge(self) -> MergeOption {
        match self {
            Workload::Full => MergeOption::FullyBuffered,
            Workload::Streamed => MergeOption::NotBuffered,
            _ => MergeOption::Default,
        }
    }

    /// The first of its operators.
    fn step(self, items: i64) -> Op<Work> {
        match self {
            Workload::Cheap | Workload::Grown | Workload::Full => {
                Op::Select(Work::Plain(Formula::Add(1)))
            }
            Workload::Heavy | Workload::Streamed => Op::Select(Work::Spin(Cost::Fixed(TURNS))),
            Workload::Skewed => Op::Select(Work::Spin(Cost::Skewed)),
            Workload::Ramp => Op::Select(Work::Spin(Cost::Ramp(items.cast_unsigned()))),
            Workload::Late => Op::Select(Work::Spin(Cost::Late(items.cast_unsigned()))),
            Workload::TakeWhile | Workload::Take => Op::Select(Work::Keep(TURNS)),
            Workload::Sum => Op::Filter(Work::Plain(Formula::Even)),
        }
    }

    /// The one after that, if it has two.
    fn last_step(self, items: i64) -> Option<Op<Work>> {
        match self {
            Workload::Cheap | Workload::Grown => Some(Op::Filter(Work::Plain(Formula::Even))),
            Workload::TakeWhile => Some(Op::TakeWhile(Work::Plain(Formula::Below(items)))),
            Workload::Take => Some(Op::Take(items)),
            _ => None,
        }
    }

    /// The sum of its answer, by a plain loop.
    pub(crate) fn looped(self, items: i64) -> u64 {
        match self {
            Workload::Cheap | Workload::Grown => even_successors(items),
            Workload::Full => successors(items),
            Workload::Heavy | Workload::Streamed => spun(items, Cost::Fixed(TURNS)),
            Workload::Skewed => spun(items, Cost::Skewed),
            Workload::Ramp => spun(items, Cost::Ramp(items.cast_unsigned())),
            Workload::Late => spun(items, Cost::Late(items.cast_unsigned())),
            Workload::TakeWhile | Workload::Take => first(items),
            Workload::Sum => evens(items),
        }
    }
}

fn even_successors(items: i64) -> u64 {
    let mut sum = 0;
    for x in 0..items {
        let y = x.wrapping_add(1);
        if y % 2 == 0 {
            sum = mix(sum, y);
        }
    }
    sum
}

fn successors(items: i64) -> u64 {
    let mut sum = 0;
    for x in 0..items {
        sum = mix(sum, x.wrapping_add(1));
    }
    sum
}

fn spun(items: i64, cost: Cost) -> u64 {
    let mut sum = 0;
    for x in 0..items {
        sum = mix(sum, spin(x, turns(cost, x)));
    }
    sum
}

fn first(items: i64) -> u64 {
    let mut sum = 0;
    for x in 0..items {
        if let Ok(y) = kept(TURNS, x) {
            sum = mix(sum, y);
        }
    }
    sum
}

fn evens(items: i64) -> u64 {
    let mut sum: u64 = 0;
    for x in 0..items {
        if x % 2 == 0 {
            sum = sum.wrapping_add(x.cast_unsigned());
        }
    }
    sum
}
