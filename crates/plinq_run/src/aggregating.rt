//! The aggregate of a query.
ghost use Rattle.std.specs.Prelude.{◌≡◌, [], true, Ok};
ghost use Rattle.std.specs.List.{list_any};
ghost use Rattle.plinq_aggregate.specs.Folding.{aggregate_value};
ghost use Rattle.plinq_ops.specs.Answer.{MayAnswer};
ghost use Rattle.plinq_ops.specs.Feeding.{is_empty_take};
ghost use Rattle.plinq_run.specs.Aggregates.{AggregatesSome};

use crate::aggregate_fault::AggregateFault;
use crate::combiner::Combiner;
use crate::parting::fold_into;
use crate::valuing::value_of;
use plinq_aggregate::GrowingAggregator;
use plinq_crew::Gate;
use plinq_enumerator::Growth;
use plinq_lambda::SharedLambda;
use plinq_ops::Query;
use plinq_source::Source;
use std::alloc::Global;
use std::sync::Wait;
use std::thread::Threads;

/// The aggregate of a query's answer (.NET's `Aggregate` with a seed, an update, a combine and a result selector).
///
/// At most as many workers as the query's degree take chunks that grow by `growth`. If all operators are the workers' own,
/// each of them folds its chunks' results from the seed; if operators stand after the merge, the caller's thread folds each
/// block that leaves these. It combines the accumulators: by key, or without `as_ordered` as they come. The query's merge
/// option doesn't change the value. A decided query asks the source for nothing, and its value is that of no items.
///
/// # Errors
///
/// [`AggregateFault::Ended`] if the answer doesn't end well, [`AggregateFault::Run`] if there is none, as
/// [`run`](crate::run) reports it; never since a sink refused.
///
/// ```text
/// let sum = aggregate(&rt, alloc, &query, source, Growth::DEFAULT, &TimedGate::new(&rt), &Sum)?;
/// ```
pub fn aggregate<L, S, G, A, R>(
    rt: &R,
    alloc: Global,
    query: &Query<L>,
    source: S,
    growth: Growth,
    gate: &G,
    aggregator: &A,
) -> Result<A::Out, AggregateFault>
where
    L: SharedLambda,
    S: Source<Item = L::Item>,
    G: Gate,
    A: GrowingAggregator<Item = L::Item>,
    R: Threads + Wait + Sync,
    requires { S.given source ≡ 0 }
    ensures decided { list_any is_empty_take query.now.ops ≡ true → result ≡ Ok (aggregate_value (A.folding aggregator.now) []) }
    ensures value { AggregatesSome (A.folding aggregator.now) (MayAnswer L.meaning query.now.ordered query.now.ops (S.whole source)) result }
{
    if query.split().decided {
        return Ok(aggregator.result(aggregator.seed(alloc)));
    }
    let mut acc = aggregator.seed(alloc);
    let combiner = Combiner { alloc, aggregator };
    let outcome = fold_into(
        rt, alloc, query, source, growth, gate, aggregator, combiner, &mut acc,
    );
    value_of(aggregator, acc, outcome)
}
