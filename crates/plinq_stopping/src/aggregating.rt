//! The aggregate of a query that a token may stop.
ghost use Rattle.std.specs.Prelude.{◌≡◌, ◌||◌};
ghost use Rattle.plinq_ops.specs.Answer.{MayAnswer};
ghost use Rattle.plinq_stopping.specs.Outcomes.{AggregatesWith, is_stopped_aggregate};
ghost use Rattle.plinq_stopping.specs.declared.sums.Sums.{Sums};
ghost use Rattle.plinq_stopping.specs.inner.Given.{GivesAsked};
ghost use Rattle.plinq_stopping.specs.inner.Summing.{SummedBy};

use crate::outcomes::{ending_of, value_of};
use crate::sums::Sums;
use plinq_aggregate::GrowingAggregator;
use plinq_crew::Gate;
use plinq_enumerator::Growth;
use plinq_lambda::SharedLambda;
use plinq_merge::{Cancel, WithCancellation};
use plinq_ops::Query;
use plinq_run::{AggregateFault, RunFault, fold_into};
use plinq_source::{Ending, Source};
use std::alloc::Global;
use std::sync::Wait;
use std::thread::Threads;

/// Combines the accumulators of a query's answer after this one, and reports how it ended.
fn combine_into<L, S, G, C, A, R>(
    rt: &R,
    alloc: Global,
    query: &Query<L>,
    source: S,
    growth: Growth,
    gate: &G,
    token: &mut C,
    aggregator: &A,
    acc: &mut A::Acc,
) -> Result<Ending, RunFault>
where
    L: SharedLambda,
    S: Source<Item = L::Item>,
    G: Gate,
    C: Cancel,
    A: GrowingAggregator<Item = L::Item>,
    R: Threads + Wait + Sync,
    requires { S.given source ≡ 0 }
    ensures { (sums : Sums A) × (sums.aggregator.now ≡ aggregator.now) × GivesAsked (A.folding aggregator.now) C.asks (SummedBy A.folding)
        (MayAnswer L.meaning query.now.ordered query.now.ops (S.whole source)) sums acc.old acc.new token.old token.new result }
{
    let mut with = WithCancellation {
        token,
        sink: acc,
        delivered: 0,
        is_stopped: false,
    };
    let sums = Sums { alloc, aggregator };
    let outcome = fold_into(
        rt, alloc, query, source, growth, gate, aggregator, sums, &mut with,
    );
    ending_of(&mut with, outcome)
}

/// The aggregate of a query's answer, as [`aggregate`](plinq_run::aggregate) computes it, unless its token stops it (.NET's `Aggregate`
/// of a query with `WithCancellation`).
///
/// The token is asked on the caller's thread, each time before a chunk's accumulator is combined, and once more before a value or an
/// ending is reported. So a query that keeps nothing can be stopped as well. But if operators stand after the merge, it is asked for the
/// chunks from which something reaches these. It gets 0, since an aggregate delivers no batch. Once it has returned `true` it isn't
/// asked again, and the source is closed. The run returns once its workers have finished the chunks that they have taken.
///
/// # Errors
///
/// [`RunFault::Cancelled`](plinq_run::RunFault::Cancelled) if the token returned `true`; else as [`aggregate`](plinq_run::aggregate).
///
/// ```text
/// let flag = CancelFlag::new();    // another thread calls flag.cancel()
/// let sum = aggregate_with(&rt, alloc, &query, source, Growth::DEFAULT, &TimedGate::new(&rt), &mut flag.token(), &Sum)?;
/// ```
pub fn aggregate_with<L, S, G, C, A, R>(
    rt: &R,
    alloc: Global,
    query: &Query<L>,
    source: S,
    growth: Growth,
    gate: &G,
    token: &mut C,
    aggregator: &A,
) -> Result<A::Out, AggregateFault>
where
    L: SharedLambda,
    S: Source<Item = L::Item>,
    G: Gate,
    C: Cancel,
    A: GrowingAggregator<Item = L::Item>,
    R: Threads + Wait + Sync,
    requires { S.given source ≡ 0 }
    ensures told { C.has_told token.new ≡ (C.has_told token.old || is_stopped_aggregate result) }
    ensures value { AggregatesWith C.asks (A.folding aggregator.now) (MayAnswer L.meaning query.now.ordered query.now.ops (S.whole source))
        token.old result token.new }
{
    let mut acc = aggregator.seed(alloc);
    let ended = combine_into(
        rt, alloc, query, source, growth, gate, token, aggregator, &mut acc,
    );
    value_of(aggregator, acc, ended)
}
