//! The plan of a query, which has no operator of the engine's, and what comes of it.
ghost use Rattle.std.specs.Prelude.{◌≡◌, [], true, false, None, Err, IfErr, IfOk};
ghost use Rattle.plinq_ops.specs.Query.{is_degree};
ghost use Rattle.plinq_run.specs.Aggregates.{Aggregates};
ghost use Rattle.plinq_stopping.specs.Outcomes.{AggregatesWith};
ghost use Rattle.plinq_collect.specs.Telling.{LacksRoom};
ghost use Rattle.plinq_passing.specs.declared.query_fault.QueryFault.TheVariants.{Degree, Growth as GrowthRefused};
ghost use Rattle.plinq_passing.specs.Told.{CantGrow, NoGrowth, told_of};
ghost use Rattle.plinq_enumerator.specs.declared.growth_fault.GrowthFault.{GrowthFault};

use crate::query_fault::QueryFault;
use plinq_aggregate::GrowingAggregator;
use plinq_enumerator::Growth;
use plinq_lambda::{Lambda, SharedLambda};
use plinq_merge::Cancel;
use plinq_ops::Query;
use plinq_run::{AggregateFault, OpenGate, RunFault, TimedGate, fold_sequentially};
use plinq_source::{Ending, Source};
use plinq_stopping::aggregate_with;
use std::alloc::Global;
use std::sync::Wait;
use std::thread::Threads;
use std::time::Clock;

/// A plan without an operator, by this many workers, which keeps its source's order.
pub(crate) fn plan_of<L: Drop>(alloc: Global, degree: u64) -> Result<Query<L>, QueryFault>
    ensures degree { is_degree degree ≡ false → result ≡ Err Degree }
    ensures refused { IfErr result (λ fault. (fault ≡ Degree) × (is_degree degree ≡ false)) }
    ensures planned { IfOk result (λ plan. (plan.ops ≡ []) × (plan.ordered ≡ true) × (plan.merge ≡ None)) }
{
    let Ok(plan) = Query::new(alloc).as_ordered() else {
        return Err(QueryFault::Degree);
    };
    match plan.with_degree(degree) {
        Ok(plan) => Ok(plan),
        Err(_) => Err(QueryFault::Degree),
    }
}

/// The growth of these numbers, if any were given.
pub(crate) fn growth_of(numbers: Option<(u64, u64, u64)>) -> Result<Option<Growth>, QueryFault>
    ensures refused { IfErr result (NoGrowth numbers) }
    ensures growth { (fault : GrowthFault) → CantGrow numbers fault → result ≡ Err (GrowthRefused fault) }
{
    let Some((first, repeat, max)) = numbers else {
        return Ok(None);
    };
    match Growth::new(first, repeat, max) {
        Ok(growth) => Ok(Some(growth)),
        Err(fault) => Err(QueryFault::Growth(fault)),
    }
}

/// What an aggregator makes of the source's items, by chunks that grow so, else by how long they take.
pub(crate) fn aggregate_of<L, S, A, C, R>(
    rt: &R,
    alloc: Global,
    plan: &Query<L>,
    source: S,
    growth: Option<Growth>,
    token: &mut C,
    aggregator: &A,
) -> Result<A::Out, AggregateFault>
where
    L: SharedLambda,
    S: Source<Item = L::Item>,
    A: GrowingAggregator<Item = L::Item>,
    C: Cancel + Drop,
    R: Clock + Threads + Wait + Sync,
    requires fresh { S.given source ≡ 0 }
    requires planned { (plan.now.ops ≡ []) × (plan.now.ordered ≡ true) }
    ensures { AggregatesWith C.asks (A.folding aggregator.now) (λ u. u ≡ S.whole source) token.old result token.new }
{
    match growth {
        Some(growth) => aggregate_with(
            rt, alloc, plan, source, growth, &OpenGate, token, aggregator,
        ),
        None => aggregate_with(
            rt,
            alloc,
            plan,
            source,
            Growth::DEFAULT,
            &TimedGate::new(rt),
            token,
            aggregator,
        ),
    }
}

/// An aggregate of what steps make, as the query's own.
pub(crate) fn told_of<O: Drop>(
    outcome: Result<(O, Option<u32>), AggregateFault>,
) -> Result<O, QueryFault>
    ensures { result ≡ told_of outcome }
{
    match outcome {
        Ok((out, _)) => Ok(out),
        Err(AggregateFault::Ended(ending)) => Err(QueryFault::Ended(ending)),
        Err(AggregateFault::Run(fault)) => Err(QueryFault::Run(fault)),
    }
}

/// The same on the caller's thread.
pub(crate) fn aggregate_alone<L, S, A>(
    alloc: Global,
    source: S,
    aggregator: &A,
) -> Result<A::Out, AggregateFault>
where
    L: Lambda,
    S: Source<Item = L::Item>,
    A: GrowingAggregator<Item = L::Item>,
    requires fresh { S.given source ≡ 0 }
    ensures value { Aggregates (A.folding aggregator.now) (S.whole source) result }
    ensures memory { LacksRoom result }
{
    let mut source = source;
    let plan = Query::<L>::new(alloc);
    match fold_sequentially(alloc, &plan, &mut source, aggregator) {
        Ok(folded) => {
            if folded.ending != Ending::End {
                return Err(AggregateFault::Ended(folded.ending));
            }
            Ok(aggregator.result(folded.acc))
        }
        Err(_) => Err(AggregateFault::Run(RunFault::Memory)),
    }
}
