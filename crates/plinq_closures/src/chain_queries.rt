//! The query that a chain's steps make.
ghost use Rattle.std.specs.Prelude.{◌≡◌, ℕ, ◌++◌, [], true, None, map, IfOk, IfErr, false, Err};
ghost use Rattle.plinq_ops.specs.Query.{is_degree};
ghost use Rattle.plinq_ops.specs.declared.build_fault.BuildFault.TheVariants.{DegreeOutOfRange};
ghost use Rattle.plinq_lambda.specs.Meaning.{Meaning};
ghost use Rattle.plinq_ops.specs.declared.op.Op.{Op};
ghost use Rattle.plinq_ops.specs.declared.build_fault.BuildFault.{BuildFault};
ghost use Rattle.plinq_closures.specs.Asked.{CantBuild};
ghost use Rattle.plinq_closures.specs.inner.Only.{MayCall, HasOne};
ghost use Rattle.plinq_closures.specs.Steps.{over, steps_below, Agrees};

use crate::at::At;
use crate::steps::Steps;
use plinq_lambda::Lambda;
use plinq_ops::{BuildFault, Op, Query};
use std::alloc::Global;

/// A query that keeps its source's order, by this many workers, with the steps of a chain.
pub(crate) fn query_of<'a, S: Steps>(
    alloc: Global,
    workers: u64,
    steps: &'a S,
) -> Result<Query<At<'a, S>>, BuildFault>
    requires is_called { S.is_called steps.now }
    requires in_one_way { S.in_one_way steps.now }
    requires gives { S.gives steps.now }
    requires gives_one { S.gives_one steps.now }
    ensures refused { IfErr result (CantBuild workers) }
    ensures degree { is_degree workers ≡ false → result ≡ Err DegreeOutOfRange }
    ensures ordered { IfOk result (λ q. (q.ordered ≡ true) × (q.merge ≡ None)) }
    ensures ops { (ops : _) → S.does steps.now ops → IfOk result (λ q. map (over ⟦<At<'a, S> as Lambda>⟧.meaning) q.ops ≡ ops) }
{
    let query = begun(alloc, workers)?;
    let Some(count) = steps.count() else {
        return Err(BuildFault::Memory);
    };
    with_steps(query, steps, count)
}

/// A query with no step, which keeps its source's order.
fn begun<L: Drop>(alloc: Global, workers: u64) -> Result<Query<L>, BuildFault>
    ensures refused { IfErr result (CantBuild workers) }
    ensures degree { is_degree workers ≡ false → result ≡ Err DegreeOutOfRange }
    ensures begun { IfOk result (λ q. (q.ops ≡ []) × (q.ordered ≡ true) × (q.merge ≡ None)) }
{
    let Ok(query) = Query::new(alloc).as_ordered() else {
        return Err(BuildFault::NotAtSource);
    };
    match query.with_degree(workers) {
        Ok(query) => Ok(query),
        Err((_, fault)) => Err(fault),
    }
}

/// The query with the steps below this number put on it, the first of them first.
fn with_steps<'a, S: Steps>(
    query: Query<At<'a, S>>,
    steps: &'a S,
    count: u64,
) -> Result<Query<At<'a, S>>, BuildFault>
    requires called { MayCall (S.is_called steps.now) }
    requires one_map { (at : ℕ) (x : S.Item) → HasOne (S.maps steps.now at x) }
    requires one_test { (at : ℕ) (x : S.Item) → HasOne (S.tests steps.now at x) }
    ensures refused { IfErr result (λ fault. fault ≡ BuildFault.Memory) }
    ensures settings { IfOk result (λ q. (q.ordered ≡ query.entry.ordered) × (q.merge ≡ query.entry.merge)) }
    ensures ops { (m : ℕ → Meaning S.Item) → Agrees (S.maps steps.now) (S.tests steps.now) m →
        IfOk result (λ q. map (over ⟦<At<'a, S> as Lambda>⟧.meaning) q.ops
        ≡ map (over ⟦<At<'a, S> as Lambda>⟧.meaning) query.entry.ops ++ steps_below (S.kinds steps.now) m count) }
{
    if count == 0 {
        return Ok(query);
    }
    let at = count - 1;
    let query = query.with_op(with_lambda(steps.kind(at), step_of(steps, at)));
    match query {
        Ok(query) => with_steps(query, steps, at),
        Err((_, fault)) => Err(fault),
    }
}

/// The step of this number.
fn step_of<'a, S: Steps>(steps: &'a S, at: u64) -> At<'a, S>
    requires called { MayCall (S.is_called steps.now) }
    requires one_map { (x : S.Item) → HasOne (S.maps steps.now at x) }
    requires one_test { (x : S.Item) → HasOne (S.tests steps.now at x) }
    ensures { (result.steps.now ≡ steps.now) × (result.at ≡ at) }
{
    At { steps, at }
}

/// An operator of this kind over a lambda.
fn with_lambda<L: Drop>(kind: Op<()>, lambda: L) -> Op<L>
    ensures { result ≡ over (λ _. lambda) kind }
{
    match kind {
        Op::Select(()) => Op::Select(lambda),
        Op::Filter(()) => Op::Filter(lambda),
        Op::SelectMany(()) => Op::SelectMany(lambda),
        Op::Take(n) => Op::Take(n),
        Op::Skip(n) => Op::Skip(n),
        Op::TakeWhile(()) => Op::TakeWhile(lambda),
        Op::SkipWhile(()) => Op::SkipWhile(lambda),
        Op::AsUnordered => Op::AsUnordered,
    }
}
