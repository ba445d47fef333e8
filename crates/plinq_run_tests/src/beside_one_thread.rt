//! A query that threads answer, and beside them one thread.
ghost use Rattle.std.specs.Prelude.{◌≡◌, IfSome};
ghost use Rattle.plinq_source.specs.declared.source.Source.{Ghosts};

use plinq_enumerator::Growth;
use plinq_lambda::SharedLambda;
use plinq_merge::CancelAfter;
use plinq_ops::{MergeOption, Op, Query, sequential};
use plinq_run::{Gate, Report, RunFault, run, run_with};
use plinq_source::{Ending, ListSource, OutOfMemory, RangeSource, Source};
use plinq_testing::{Taken, query_of};
use std::alloc::Global;
use std::sync::Wait;
use std::thread::Threads;

/// How a query is asked. The sink refuses batch number `refused`, and a token stops the run after `cancel_after` batches, if
/// there is one.
#[derive(Clone, Copy)]
pub(crate) struct Setting {
    pub(crate) workers: u64,
    pub(crate) growth: Growth,
    pub(crate) option: MergeOption,
    pub(crate) refused: usize,
    pub(crate) cancel_after: Option<u64>,
}

impl Setting {
    /// Chunks of one element and a batch for each, of which none is refused, by so many workers.
    pub(crate) fn by(workers: u64) -> Setting {
        Setting {
            workers,
            growth: Growth::ONE,
            option: MergeOption::NotBuffered,
            refused: usize::MAX,
            cancel_after: None,
        }
    }
}

/// What the run reported that was asked so, what its sink took, and the answer of one thread.
#[derive(Drop)]
pub(crate) struct Answers {
    setting: Setting,
    pub(crate) told: Result<Report, RunFault>,
    pub(crate) batches: Vec<Vec<i64>>,
    pub(crate) items: Vec<i64>,
    pub(crate) ending: Ending,
}

impl Answers {
    /// Whether the run delivered the answer of one thread, and reported how it ends.
    pub(crate) fn are_one(&self) -> bool {
        match &self.told {
            Ok(report) => report.ending == self.ending && self.left() == Some(0),
            Err(_) => false,
        }
    }

    /// Whether the run was stopped when it had delivered so many batches, the first of the answer.
    fn are_stopped(&self, most: u64) -> bool {
        match &self.told {
            Err(RunFault::Cancelled) => {
                self.batches.len() as u64 == most && self.left().is_some()
            }
            _ => false,
        }
    }

    /// Whether the run was stopped after `cancel_after` batches, if the answer has as many, and else delivered all of it.
    pub(crate) fn are_right(&self) -> bool {
        match self.setting.cancel_after {
            Some(most) if most <= self.all_batches() => self.are_stopped(most),
            _ => self.are_one(),
        }
    }

    /// How many batches the answer of one thread has.
    fn all_batches(&self) -> u64 {
        let items = self.items.len() as u64;
        match self.setting.option {
            MergeOption::NotBuffered => items,
            MergeOption::Default | MergeOption::AutoBuffered => items.div_ceil(16),
            MergeOption::FullyBuffered => match self.ending {
                Ending::End => items.min(1),
                Ending::Refused(_) | Ending::Fault(_) => 0,
            },
        }
    }

    /// Whether the sink refused a batch with 9 when it had taken those before it, the first of the answer.
    pub(crate) fn are_refused(&self) -> bool {
        match &self.told {
            Err(RunFault::Sink(9)) => {
                self.batches.len() == self.setting.refused && self.left().is_some()
            }
            _ => false,
        }
    }

    /// How many items are left after the batches, if these are the first of the answer.
    fn left(&self) -> Option<usize> {
        match self.setting.option {
            MergeOption::NotBuffered => left_after(&self.batches, &self.items, 1),
            MergeOption::Default | MergeOption::AutoBuffered => {
                left_after(&self.batches, &self.items, 16)
            }
            MergeOption::FullyBuffered => match self.ending {
                Ending::End => left_after(&self.batches, &self.items, usize::MAX),
                Ending::Refused(_) | Ending::Fault(_) => left_after(&self.batches, &[], 1),
            },
        }
    }
}

/// How many items are left after batches, if these are the items cut into batches of that size.
fn left_after(batches: &[Vec<i64>], items: &[i64], size: usize) -> Option<usize> {
    let mut left = items;
    for batch in batches {
        let (next, following) = left.split_at(left.len().min(size));
        if next.is_empty() || batch.as_slice() != next {
            return None;
        }
        left = following;
    }
    Some(left.len())
}

/// Has a run answer a query, whose workers this gate holds back, and one thread, each from a source of its own.
fn ask_of<L, S, G, R>(
    rt: &R,
    alloc: Global,
    query: &Query<L>,
    setting: Setting,
    gate: &G,
    source: S,
    again: S,
) -> Result<Answers, OutOfMemory>
where
    L: SharedLambda<Item = i64>,
    S: Source<Item = i64>,
    G: Gate,
    R: Threads + Wait + Sync,
    requires fresh { S.given source ≡ 0 }
    requires again { S.given again ≡ 0 }
{
    let mut again = again;
    let (items, ending) = sequential(alloc, query, &mut again)?;
    let mut sink = Taken::new(alloc, setting.refused);
    let told = match setting.cancel_after {
        None => run(rt, alloc, query, source, setting.growth, gate, &mut sink),
        Some(most) => {
            let mut token = CancelAfter::new(most);
            run_with(
                rt,
                alloc,
                query,
                source,
                setting.growth,
                gate,
                &mut token,
                &mut sink,
            )
        }
    };
    Ok(Answers {
        setting,
        told,
        batches: sink.batches,
        items,
        ending,
    })
}

/// A list that ends, or refuses with this code, if there is room for it.
pub(crate) fn list_of(alloc: Global, items: &[i64], code: Option<u32>) -> Option<ListSource<i64>>
    ensures { IfSome result (λ source. ⟦<ListSource<i64> as Source>⟧.given source ≡ 0) }
{
    if items.len() > 1_000 {
        return None;
    }
    let Ok(items) = Vec::from_slice(alloc, items) else {
        return None;
    };
    match code {
        None => Some(ListSource::new(alloc, items)),
        Some(code) => Some(ListSource::refusing(alloc, items, code)),
    }
}

/// Has a run answer a query over a list with `as_ordered` and these operators, whose workers this gate holds back, and one
/// thread.
pub(crate) fn ask_list<L, G, R>(
    rt: &R,
    alloc: Global,
    items: &[i64],
    code: Option<u32>,
    ops: &[Op<L>],
    setting: Setting,
    gate: &G,
) -> Option<Answers>
where
    L: SharedLambda<Item = i64> + Copy,
    G: Gate,
    R: Threads + Wait + Sync,
{
    let source = list_of(alloc, items, code)?;
    let again = list_of(alloc, items, code)?;
    match query_of(alloc, ops, setting.option, setting.workers) {
        Ok(query) => ask_of(rt, alloc, &query, setting, gate, source, again).ok(),
        Err(_) => None,
    }
}

/// The same over so many numbers from 0 on.
pub(crate) fn ask_range<L, G, R>(
    rt: &R,
    alloc: Global,
    count: u64,
    ops: &[Op<L>],
    setting: Setting,
    gate: &G,
) -> Option<Answers>
where
    L: SharedLambda<Item = i64> + Copy,
    G: Gate,
    R: Threads + Wait + Sync,
{
    let source = RangeSource::new(0, count).ok()?;
    let again = RangeSource::new(0, count).ok()?;
    match query_of(alloc, ops, setting.option, setting.workers) {
        Ok(query) => ask_of(rt, alloc, &query, setting, gate, source, again).ok(),
        Err(_) => None,
    }
}
