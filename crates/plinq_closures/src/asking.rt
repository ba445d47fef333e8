//! What is asked of a chain.
ghost use Rattle.std.specs.Prelude.{◌≡◌, pos, [], ◌∷◌, ◌++◌, MatchResult, false, Err};
ghost use Rattle.plinq_ops.specs.Query.{is_degree};
ghost use Rattle.plinq_ops.specs.declared.build_fault.BuildFault.TheVariants.{DegreeOutOfRange};
ghost use Rattle.plinq_closures.specs.declared.chain_fault.ChainFault.TheVariants.{Build};
ghost use Rattle.plinq_ops.specs.declared.merge_option.MergeOption.TheVariants.{AutoBuffered};
ghost use Rattle.plinq_ops.specs.declared.op.Op.{Op};
ghost use Rattle.plinq_ops.specs.Sequential.{answer_of};
ghost use Rattle.plinq_collect.specs.ItemFoldings.{first_of, has_item, wrapped_count};
ghost use Rattle.plinq_collect.specs.Telling.{GathersSome};
ghost use Rattle.plinq_closures.specs.Asked.{HasNone, Tells, chain_answer, is_there, chain_outcome};

use crate::chain::Chain;
use crate::chain_fault::ChainFault;
use crate::chain_queries::query_of;
use crate::steps::Steps;
use plinq_collect::{count, first, to_vec};
use plinq_run::{AggregateFault, RunFault};
use plinq_source::{Ending, Source};
use std::alloc::Global;
use std::sync::Wait;
use std::thread::Threads;
use std::time::Clock;

impl<S: Steps<Item: Send> + Sync> Chain<S> {
    /// All items of the answer in their order, and how it ended (.NET's `ToList`, rayon's `collect`).
    ///
    /// # Errors
    ///
    /// [`ChainFault::Build`] if `workers` isn't from 1 to 64, else [`ChainFault::Build`] or [`ChainFault::Run`] if
    /// memory, a thread or tickets are short.
    pub fn to_vec<Src, R>(
        &self,
        rt: &R,
        alloc: Global,
        workers: u64,
        source: Src,
    ) -> Result<(Vec<S::Item>, Ending), ChainFault>
    where
        Src: Source<Item = S::Item>,
        R: Clock + Threads + Wait + Sync,
        requires fresh { Src.given source ≡ 0 }
        requires is_called { S.is_called self.now.steps }
        requires in_one_way { S.in_one_way self.now.steps }
        requires gives { S.gives self.now.steps }
        requires gives_one { S.gives_one self.now.steps }
        ensures degree { is_degree workers ≡ false → result ≡ Err (Build DegreeOutOfRange) }
        ensures answer { (ops : _) → S.does self.now.steps ops → MatchResult result
            (λ it. GathersSome AutoBuffered (λ u. u ≡ answer_of (λ f. f) ops (Src.whole source)) it.0.items it.1)
            (HasNone workers) }
    {
        match query_of(alloc, workers, &self.steps) {
            Ok(query) => chain_outcome(to_vec(rt, alloc, &query, source)),
            Err(fault) => Err(ChainFault::Build(fault)),
        }
    }

    /// The first item, if there is one (.NET's `FirstOrDefault`, rayon's `find_first`). No item after it is asked for once it
    /// is known.
    ///
    /// # Errors
    ///
    /// [`ChainFault::Ended`] if a fault or a refusal comes before any item, else as [`Chain::to_vec`].
    pub fn first<Src, R>(
        &self,
        rt: &R,
        alloc: Global,
        workers: u64,
        source: Src,
    ) -> Result<Option<S::Item>, ChainFault>
    where
        Src: Source<Item = S::Item>,
        R: Clock + Threads + Wait + Sync,
        requires fresh { Src.given source ≡ 0 }
        requires is_called { S.is_called self.now.steps }
        requires in_one_way { S.in_one_way self.now.steps }
        requires gives { S.gives self.now.steps }
        requires gives_one { S.gives_one self.now.steps }
        ensures degree { is_degree workers ≡ false → result ≡ Err (Build DegreeOutOfRange) }
        ensures answer { (ops : _) → S.does self.now.steps ops →
            Tells workers first_of (answer_of (λ f. f) (ops ++ Op.Take (pos 1) ∷ []) (Src.whole source)) result }
    {
        match query_of(alloc, workers, &self.steps) {
            Ok(query) => chain_answer(first(rt, alloc, query, source)),
            Err(fault) => Err(ChainFault::Build(fault)),
        }
    }

    /// Whether there is an item (.NET's `Any`, rayon's `any` after a `filter`). No item after the first is asked for once it is
    /// known.
    ///
    /// # Errors
    ///
    /// As [`Chain::first`].
    pub fn any<Src, R>(
        &self,
        rt: &R,
        alloc: Global,
        workers: u64,
        source: Src,
    ) -> Result<bool, ChainFault>
    where
        Src: Source<Item = S::Item>,
        R: Clock + Threads + Wait + Sync,
        requires fresh { Src.given source ≡ 0 }
        requires is_called { S.is_called self.now.steps }
        requires in_one_way { S.in_one_way self.now.steps }
        requires gives { S.gives self.now.steps }
        requires gives_one { S.gives_one self.now.steps }
        ensures degree { is_degree workers ≡ false → result ≡ Err (Build DegreeOutOfRange) }
        ensures answer { (ops : _) → S.does self.now.steps ops →
            Tells workers has_item (answer_of (λ f. f) (ops ++ Op.Take (pos 1) ∷ []) (Src.whole source)) result }
    {
        there(self.first(rt, alloc, workers, source))
    }

    /// How many items there are, modulo 2^64 (.NET's and rayon's `Count`). It needs all of them.
    ///
    /// # Errors
    ///
    /// [`ChainFault::Ended`] if the answer doesn't end well, else as [`Chain::to_vec`].
    pub fn count<Src, R>(
        &self,
        rt: &R,
        alloc: Global,
        workers: u64,
        source: Src,
    ) -> Result<u64, ChainFault>
    where
        Src: Source<Item = S::Item>,
        R: Clock + Threads + Wait + Sync,
        requires fresh { Src.given source ≡ 0 }
        requires is_called { S.is_called self.now.steps }
        requires in_one_way { S.in_one_way self.now.steps }
        requires gives { S.gives self.now.steps }
        requires gives_one { S.gives_one self.now.steps }
        ensures degree { is_degree workers ≡ false → result ≡ Err (Build DegreeOutOfRange) }
        ensures answer { (ops : _) → S.does self.now.steps ops → Tells workers wrapped_count (answer_of (λ f. f) ops (Src.whole source)) result }
    {
        match query_of(alloc, workers, &self.steps) {
            Ok(query) => chain_answer(count(rt, alloc, &query, source)),
            Err(fault) => Err(ChainFault::Build(fault)),
        }
    }
}

/// The answer of a query, as that of its chain.
pub(crate) fn chain_answer<O: Drop>(answer: Result<O, AggregateFault>) -> Result<O, ChainFault>
    ensures { result ≡ chain_answer answer }
{
    match answer {
        Ok(out) => Ok(out),
        Err(AggregateFault::Ended(ending)) => Err(ChainFault::Ended(ending)),
        Err(AggregateFault::Run(fault)) => Err(ChainFault::Run(fault)),
    }
}

/// Whether there is a first item.
pub(crate) fn there<T: Drop>(first: Result<Option<T>, ChainFault>) -> Result<bool, ChainFault>
    ensures { result ≡ is_there first }
{
    match first {
        Ok(first) => Ok(first.is_some()),
        Err(fault) => Err(fault),
    }
}

/// What a run comes to, as what its chain does.
pub(crate) fn chain_outcome<O: Drop>(outcome: Result<O, RunFault>) -> Result<O, ChainFault>
    ensures { result ≡ chain_outcome outcome }
{
    match outcome {
        Ok(out) => Ok(out),
        Err(fault) => Err(ChainFault::Run(fault)),
    }
}
