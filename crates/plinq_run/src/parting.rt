//! A run that folds its answer's parts, and gives the accumulators to a taker as their turn comes.
ghost use Rattle.std.specs.Prelude.{◌≡◌, [], true};
ghost use Rattle.plinq_source.specs.Trace.{ended_trace};
ghost use Rattle.plinq_source.specs.declared.ending.Ending.TheVariants.{End};
ghost use Rattle.plinq_ops.specs.Answer.{MayAnswer};
ghost use Rattle.plinq_run.specs.Parting.{GivesSome};
ghost use Rattle.plinq_run.specs.inner.Conducted.{answer_ending};
ghost use Rattle.plinq_run.specs.inner.PlanAnswers.{MayMerge, MayRun};

use crate::fold_blocks::FoldBlocks;
use crate::planning::Conducted;
use crate::run_fault::RunFault;
use crate::run_request::RunRequest;
use crate::run_types::RunTypes;
use crate::tasks::{FoldChunks, Unchanged};
use plinq_aggregate::GrowingAggregator;
use plinq_crew::Gate;
use plinq_enumerator::Growth;
use plinq_lambda::SharedLambda;
use plinq_merge::{DeliveryFault, TakeInto, Taker};
use plinq_ops::{Pipeline, Query};
use plinq_source::{Ending, Source};
use std::alloc::Global;
use std::marker::Brand;
use std::sync::Wait;
use std::thread::Threads;

/// Gives a taker the answer of no items, which ends well.
fn hand_nothing<A, W, O>(
    alloc: Global,
    _aggregator: &A,
    taker: W,
    out: &mut O,
) -> Result<Ending, RunFault>
where
    A: GrowingAggregator,
    W: Taker<Item = A::Acc> + TakeInto<O>,
    requires takes { W.can_take taker ≡ true }
    ensures { GivesSome (A.folding _aggregator.now) W.made (λ u. u ≡ ended_trace [] End) taker out.old result out.new }
{
    let mut taker = taker;
    match taker.take(Vec::new(alloc), Some(Ending::End), out) {
        Ok(Some(ending)) => Ok(ending),
        Ok(None) => unreachable!(),
        Err(DeliveryFault::Memory) => Err(RunFault::Memory),
        Err(DeliveryFault::Sink(code)) => Err(RunFault::Sink(code)),
    }
}

/// How the answer of a run has ended.
fn answer_ending<S: Source, W: Drop>(
    conducted: Result<Conducted<S, W>, RunFault>,
) -> Result<Ending, RunFault>
    ensures { result ≡ answer_ending conducted }
{
    match conducted {
        Ok(conducted) => Ok(conducted.ended.joined.ending),
        Err(fault) => Err(fault),
    }
}

impl<Q: RunTypes> RunRequest<'_, Q> {
    /// Runs the plan, which isn't decided and has no operator after the merge: its workers fold, and the taker is given an
    /// accumulator for each of their chunks.
    fn fold_chunks_into<A: GrowingAggregator<Item = Q::Item>, W, O, R: Threads + Wait + Sync>(
        self,
        rt: &R,
        aggregator: &A,
        taker: W,
        out: &mut O,
    ) -> Result<Ending, RunFault>
    where
        W: Taker<Item = A::Acc> + TakeInto<O>,
        requires may { MayRun Q.Source.given self }
        requires alone { self.plan.now.after.now ≡ [] }
        requires takes { W.can_take taker ≡ true }
        ensures { GivesSome (A.folding aggregator.now) W.made (MayMerge Q.Lambda.meaning self.entry.plan.now (Q.Source.whole self.entry.source))
            taker out.old result out.new }
    {
        let task = FoldChunks {
            aggregator,
            gate: self.gate,
        };
        answer_ending(self.conduct_plan::<Brand, _, _, _, _>(rt, &task, taker, out))
    }

    /// Runs the plan, which isn't decided: the caller's thread folds what leaves the operators after the merge, and the taker
    /// is given an accumulator for each block of it.
    fn fold_blocks_into<A: GrowingAggregator<Item = Q::Item>, W, O, R: Threads + Wait + Sync>(
        self,
        rt: &R,
        aggregator: &A,
        taker: W,
        out: &mut O,
    ) -> Result<Ending, RunFault>
    where
        W: Taker<Item = A::Acc> + TakeInto<O>,
        requires may { MayRun Q.Source.given self }
        requires takes { W.can_take taker ≡ true }
        ensures { GivesSome (A.folding aggregator.now) W.made (MayMerge Q.Lambda.meaning self.entry.plan.now (Q.Source.whole self.entry.source))
            taker out.old result out.new }
    {
        let Ok(pipeline) = Pipeline::new(self.alloc, self.plan.after) else {
            return Err(RunFault::Memory);
        };
        let blocks = FoldBlocks {
            alloc: self.alloc,
            pipeline,
            aggregator,
            inner: taker,
        };
        let task = Unchanged { gate: self.gate };
        answer_ending(self.conduct_plan::<Brand, _, _, _, _>(rt, &task, blocks, out))
    }
}

/// Folds the parts of a query's answer, and gives the accumulators to a taker as their turn comes. [`aggregate`](crate::aggregate)
/// stands on it, and so can a last step of one's own, as `run_mapped` of `plinq_mapped` does.
///
/// If all operators are the workers' own, each of them folds its chunks' results from the seed; if operators stand after
/// the merge, the caller's thread folds each block that leaves these. The taker gets the accumulators on the caller's thread, by
/// key, or without `as_ordered` as they come. Of a decided query it gets none, and its ending.
///
/// # Errors
///
/// As [`run`](crate::run); [`RunFault::Sink`] with the code with which the taker broke off.
///
/// ```text
/// let ending = fold_into(&rt, alloc, &query, source, Growth::DEFAULT, &TimedGate::new(&rt), &aggregator, taker, &mut out)?;
/// ```
pub fn fold_into<L, S, G, A, W, O, R>(
    rt: &R,
    alloc: Global,
    query: &Query<L>,
    source: S,
    growth: Growth,
    gate: &G,
    aggregator: &A,
    taker: W,
    out: &mut O,
) -> Result<Ending, RunFault>
where
    L: SharedLambda,
    S: Source<Item = L::Item>,
    G: Gate,
    A: GrowingAggregator<Item = L::Item>,
    W: Taker<Item = A::Acc> + TakeInto<O>,
    R: Threads + Wait + Sync,
    requires unasked { S.given source ≡ 0 }
    requires takes { W.can_take taker ≡ true }
    ensures { GivesSome (A.folding aggregator.now) W.made (MayAnswer L.meaning query.now.ordered query.now.ops (S.whole source)) taker out.old result out.new }
{
    let plan = query.split();
    if plan.decided {
        return hand_nothing(alloc, aggregator, taker, out);
    }
    let request = RunRequest::<(L, S, G)> {
        alloc,
        plan: &plan,
        workers: query.degree(),
        source,
        growth,
        gate,
    };
    if plan.after.is_empty() {
        return request.fold_chunks_into(rt, aggregator, taker, out);
    }
    request.fold_blocks_into(rt, aggregator, taker, out)
}
