ghost use Rattle.std.specs.Prelude.{◌≡◌, IfOk};
ghost use Rattle.plinq_aggregate.specs.Folding.{aggregate_value};
ghost use Rattle.plinq_lambda.specs.Formula.{formula_meaning};
ghost use Rattle.plinq_ops.specs.Answer.{MayAnswer};
ghost use Rattle.plinq_ops.specs.Sequential.{answer_of};
ghost use Rattle.plinq_run.specs.Aggregates.{AggregatesSome};
ghost use Rattle.plinq_cli.specs.Told.{IsValueOf, TellsValue, kind_value};

use plinq_aggregate::{Aggregator, Count, Max, Min, Sum};
use plinq_document::{AnySource, Kind};
use plinq_enumerator::Growth;
use plinq_lambda::Formula;
use plinq_ops::Query;
use plinq_run::{AggregateFault, Combined, TimedGate, aggregate, fold_sequentially};
use plinq_source::{Ending, OutOfMemory, Source};
use std::alloc::Global;
use std::sync::Wait;
use std::thread::Threads;
use std::time::Clock;

/// The value of an aggregate of a query's answer on one thread, if its items have one, and how the answer ends.
pub(crate) fn value_by_one(
    alloc: Global,
    kind: Kind,
    query: &Query<Formula>,
    source: &mut AnySource,
) -> Result<(Option<i128>, Ending), OutOfMemory>
    requires unasked { ⟦<AnySource as Source>⟧.given source.old ≡ 0 }
    ensures { IfOk result (IsValueOf (kind_value kind) (answer_of formula_meaning query.now.ops (⟦<AnySource as Source>⟧.whole source.old))) }
{
    match kind {
        Kind::Sum => {
            let (sum, ending) = by_one(alloc, query, source, &Sum)?;
            Ok((Some(sum), ending))
        }
        Kind::Count => {
            let (count, ending) = by_one(alloc, query, source, &Count)?;
            Ok((Some(i128::from(count)), ending))
        }
        Kind::Min => {
            let (least, ending) = by_one(alloc, query, source, &Min)?;
            Ok((as_value(least), ending))
        }
        Kind::Max => {
            let (greatest, ending) = by_one(alloc, query, source, &Max)?;
            Ok((as_value(greatest), ending))
        }
    }
}

fn by_one<A: Aggregator<Item = i64>>(
    alloc: Global,
    query: &Query<Formula>,
    source: &mut AnySource,
    aggregator: &A,
) -> Result<(A::Out, Ending), OutOfMemory>
    requires unasked { ⟦<AnySource as Source>⟧.given source.old ≡ 0 }
    ensures { IfOk result (IsValueOf (aggregate_value (A.folding aggregator.now))
        (answer_of formula_meaning query.now.ops (⟦<AnySource as Source>⟧.whole source.old))) }
{
    let Combined { acc, ending } = fold_sequentially(alloc, query, source, aggregator)?;
    Ok((aggregator.result(acc), ending))
}

/// The value of an aggregate of a query's answer, if its items have one. The query is run by threads.
pub(crate) fn value_by_threads<R>(
    rt: &R,
    kind: Kind,
    query: &Query<Formula>,
    source: AnySource,
    growth: Growth,
    gate: &TimedGate<'_, R>,
) -> Result<Option<i128>, AggregateFault>
where
    R: AllocGlobal + Clock + Threads + Wait + Sync,
    requires unasked { ⟦<AnySource as Source>⟧.given source ≡ 0 }
    ensures { TellsValue (kind_value kind) (MayAnswer formula_meaning query.now.ordered query.now.ops (⟦<AnySource as Source>⟧.whole source)) result }
{
    match kind {
        Kind::Sum => Ok(Some(by_threads(rt, query, source, growth, gate, &Sum)?)),
        Kind::Count => Ok(Some(i128::from(by_threads(rt, query, source, growth, gate, &Count)?))),
        Kind::Min => Ok(as_value(by_threads(rt, query, source, growth, gate, &Min)?)),
        Kind::Max => Ok(as_value(by_threads(rt, query, source, growth, gate, &Max)?)),
    }
}

fn by_threads<R, A>(
    rt: &R,
    query: &Query<Formula>,
    source: AnySource,
    growth: Growth,
    gate: &TimedGate<'_, R>,
    aggregator: &A,
) -> Result<A::Out, AggregateFault>
where
    R: AllocGlobal + Clock + Threads + Wait + Sync,
    A: Aggregator<Item = i64>,
    requires unasked { ⟦<AnySource as Source>⟧.given source ≡ 0 }
    ensures { AggregatesSome (A.folding aggregator.now)
        (MayAnswer formula_meaning query.now.ordered query.now.ops (⟦<AnySource as Source>⟧.whole source)) result }
{
    aggregate(rt, rt.alloc(), query, source, growth, gate, aggregator)
}

fn as_value(best: Option<i64>) -> Option<i128>
    ensures { result ≡ best }
{
    Some(i128::from(best?))
}
