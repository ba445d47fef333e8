ghost use Rattle.std.specs.Prelude.{◌≡◌, pos, [], ◌∷◌, ◌++◌, Err, MatchResult};
ghost use Rattle.plinq_source.specs.Trace.{ended_trace};
ghost use Rattle.plinq_ops.specs.declared.op.Op.{Op};
ghost use Rattle.plinq_ops.specs.Sequential.{answer_of};
ghost use Rattle.plinq_run.specs.declared.run_fault.RunFault.TheVariants.{Memory};
ghost use Rattle.plinq_collect.specs.ItemFoldings.{first_of, has_item, wrapped_count};
ghost use Rattle.plinq_closures.specs.declared.chain_fault.ChainFault.TheVariants.{Run};
ghost use Rattle.plinq_closures.specs.Asked.{HasNone, HasCalledAll, LacksRoomAlone, LacksRoomOrRefused, Tells};

use crate::asking::{chain_answer, chain_outcome, there};
use crate::chain::Chain;
use crate::chain_fault::ChainFault;
use crate::chain_queries::query_of;
use crate::steps::Steps;
use plinq_collect::sequentially::{count, element_at, first, for_each, to_vec};
use plinq_source::{Ending, Source};
use std::alloc::Global;
use std::sync::Wait;
use std::thread::Threads;

/// A chain that is asked on one thread, by the same calls with the same arguments (.NET's `AsSequential`).
#[derive(Drop)]
pub struct Sequentially<'a, S> {
    pub steps: &'a S,
}

impl<S: Steps> Chain<S> {
    /// The chain, to be asked on one thread.
    pub fn sequentially(&self) -> Sequentially<'_, S>
        ensures { result.steps.now ≡ self.now.steps }
    {
        Sequentially { steps: &self.steps }
    }
}

impl<'a, S: Steps<Item: Send> + Sync> Sequentially<'a, S> {
    /// As [`Chain::to_vec`].
    ///
    /// # Errors
    ///
    /// [`ChainFault::Build`] if `workers` isn't from 1 to 64, else [`ChainFault::Build`] or [`ChainFault::Run`] if there
    /// is no room.
    pub fn to_vec<Src, R>(
        &self,
        rt: &R,
        alloc: Global,
        workers: u64,
        source: Src,
    ) -> Result<(Vec<S::Item>, Ending), ChainFault>
    where
        Src: Source<Item = S::Item>,
        R: Threads + Wait + Sync,
        requires fresh { Src.given source ≡ 0 }
        requires is_called { S.is_called self.now.steps.now }
        requires in_one_way { S.in_one_way self.now.steps.now }
        requires gives { S.gives self.now.steps.now }
        requires gives_one { S.gives_one self.now.steps.now }
        ensures value { (ops : _) → S.does self.now.steps.now ops → MatchResult result
            (λ it. ended_trace it.0.items it.1 ≡ answer_of (λ f. f) ops (Src.whole source))
            (HasNone workers) }
        ensures memory { LacksRoomAlone result }
    {
        match query_of(alloc, workers, self.steps) {
            Ok(query) => chain_outcome(to_vec(rt, alloc, &query, source)),
            Err(fault) => Err(ChainFault::Build(fault)),
        }
    }

    /// As [`Chain::first`].
    ///
    /// # Errors
    ///
    /// [`ChainFault::Ended`] if a fault or a refusal comes before any item, else as [`Sequentially::to_vec`].
    pub fn first<Src, R>(
        &self,
        rt: &R,
        alloc: Global,
        workers: u64,
        source: Src,
    ) -> Result<Option<S::Item>, ChainFault>
    where
        Src: Source<Item = S::Item>,
        R: Threads + Wait + Sync,
        requires fresh { Src.given source ≡ 0 }
        requires is_called { S.is_called self.now.steps.now }
        requires in_one_way { S.in_one_way self.now.steps.now }
        requires gives { S.gives self.now.steps.now }
        requires gives_one { S.gives_one self.now.steps.now }
        ensures value { (ops : _) → S.does self.now.steps.now ops →
            Tells workers first_of (answer_of (λ f. f) (ops ++ Op.Take (pos 1) ∷ []) (Src.whole source)) result }
        ensures memory { LacksRoomAlone result }
    {
        match query_of(alloc, workers, self.steps) {
            Ok(query) => chain_answer(first(rt, alloc, query, source)),
            Err(fault) => Err(ChainFault::Build(fault)),
        }
    }

    /// As [`Chain::element_at`].
    ///
    /// # Errors
    ///
    /// As [`Sequentially::first`].
    pub fn element_at<Src, R>(
        &self,
        rt: &R,
        alloc: Global,
        workers: u64,
        source: Src,
        place: u32,
    ) -> Result<Option<S::Item>, ChainFault>
    where
        Src: Source<Item = S::Item>,
        R: Threads + Wait + Sync,
        requires fresh { Src.given source ≡ 0 }
        requires is_called { S.is_called self.now.steps.now }
        requires in_one_way { S.in_one_way self.now.steps.now }
        requires gives { S.gives self.now.steps.now }
        requires gives_one { S.gives_one self.now.steps.now }
        ensures value { (ops : _) → S.does self.now.steps.now ops →
            Tells workers first_of (answer_of (λ f. f) ((ops ++ Op.Skip (pos place) ∷ []) ++ Op.Take (pos 1) ∷ []) (Src.whole source)) result }
        ensures memory { LacksRoomAlone result }
    {
        match query_of(alloc, workers, self.steps) {
            Ok(query) => chain_answer(element_at(rt, alloc, query, source, place)),
            Err(fault) => Err(ChainFault::Build(fault)),
        }
    }

    /// As [`Chain::any`].
    ///
    /// # Errors
    ///
    /// As [`Sequentially::first`].
    pub fn any<Src, R>(
        &self,
        rt: &R,
        alloc: Global,
        workers: u64,
        source: Src,
    ) -> Result<bool, ChainFault>
    where
        Src: Source<Item = S::Item>,
        R: Threads + Wait + Sync,
        requires fresh { Src.given source ≡ 0 }
        requires is_called { S.is_called self.now.steps.now }
        requires in_one_way { S.in_one_way self.now.steps.now }
        requires gives { S.gives self.now.steps.now }
        requires gives_one { S.gives_one self.now.steps.now }
        ensures value { (ops : _) → S.does self.now.steps.now ops →
            Tells workers has_item (answer_of (λ f. f) (ops ++ Op.Take (pos 1) ∷ []) (Src.whole source)) result }
        ensures memory { LacksRoomAlone result }
    {
        there(self.first(rt, alloc, workers, source))
    }

    /// As [`Chain::count`].
    ///
    /// # Errors
    ///
    /// [`ChainFault::Ended`] if the answer doesn't end well, else as [`Sequentially::to_vec`].
    pub fn count<Src, R>(
        &self,
        rt: &R,
        alloc: Global,
        workers: u64,
        source: Src,
    ) -> Result<u64, ChainFault>
    where
        Src: Source<Item = S::Item>,
        R: Threads + Wait + Sync,
        requires fresh { Src.given source ≡ 0 }
        requires is_called { S.is_called self.now.steps.now }
        requires in_one_way { S.in_one_way self.now.steps.now }
        requires gives { S.gives self.now.steps.now }
        requires gives_one { S.gives_one self.now.steps.now }
        ensures value { (ops : _) → S.does self.now.steps.now ops →
            Tells workers wrapped_count (answer_of (λ f. f) ops (Src.whole source)) result }
        ensures memory { LacksRoomAlone result }
    {
        match query_of(alloc, workers, self.steps) {
            Ok(query) => chain_answer(count(rt, alloc, &query, source)),
            Err(fault) => Err(ChainFault::Build(fault)),
        }
    }

    /// As [`Chain::for_each`]. The closure is called once all items are there; if there is no room it isn't called.
    ///
    /// # Errors
    ///
    /// [`ChainFault::Run`] with the code that the closure answers, else as [`Sequentially::to_vec`].
    pub fn for_each<Src, F, R>(
        &self,
        rt: &R,
        alloc: Global,
        workers: u64,
        source: Src,
        by: &mut F,
    ) -> Result<Ending, ChainFault>
    where
        Src: Source<Item = S::Item>,
        F: FnMut(S::Item) -> Result<(), u32>,
        R: Threads + Wait + Sync,
        requires fresh { Src.given source ≡ 0 }
        requires is_called { S.is_called self.now.steps.now }
        requires in_one_way { S.in_one_way self.now.steps.now }
        requires gives { S.gives self.now.steps.now }
        requires gives_one { S.gives_one self.now.steps.now }
        requires calls { (f : F) (x : S.Item) → F.pre f x }
        requires calls_in_one_way { (f : F) (x : S.Item) (a b : F.pre f x) → a ≡ b }
        ensures calls { (ops : _) → S.does self.now.steps.now ops →
            HasCalledAll workers (λ f x r g. F.step f x r g) (answer_of (λ f. f) ops (Src.whole source)) by.old result by.new }
        ensures uncalled { result ≡ Err (Run Memory) → by.new ≡ by.old }
        ensures memory { LacksRoomOrRefused result }
    {
        match query_of(alloc, workers, self.steps) {
            Ok(query) => chain_outcome(for_each(rt, alloc, &query, source, by)),
            Err(fault) => Err(ChainFault::Build(fault)),
        }
    }
}
