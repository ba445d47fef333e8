//! What an aggregator makes of a chain's answer.
ghost use Rattle.std.specs.Prelude.{◌≡◌, false, Err};
ghost use Rattle.plinq_ops.specs.Query.{is_degree};
ghost use Rattle.plinq_ops.specs.declared.build_fault.BuildFault.TheVariants.{DegreeOutOfRange};
ghost use Rattle.plinq_closures.specs.declared.chain_fault.ChainFault.TheVariants.{Build};
ghost use Rattle.plinq_aggregate.specs.Folding.{aggregate_value};
ghost use Rattle.plinq_ops.specs.Sequential.{answer_of};
ghost use Rattle.plinq_closures.specs.Asked.{LacksRoomAlone, Tells};

use crate::asking::chain_answer;
use crate::chain::Chain;
use crate::chain_fault::ChainFault;
use crate::chain_queries::query_of;
use crate::chain_sequentially::Sequentially;
use crate::steps::Steps;
use plinq_aggregate::{Aggregator, GrowingAggregator};
use plinq_collect::sequentially;
use plinq_enumerator::Growth;
use plinq_run::{TimedGate, aggregate};
use plinq_source::Source;
use std::alloc::Global;
use std::sync::Wait;
use std::thread::Threads;
use std::time::Clock;

impl<S: Steps<Item: Send> + Sync> Chain<S> {
    /// The aggregate of the answer (.NET's `Aggregate`, rayon's `fold` and `reduce`). It needs all of it.
    ///
    /// # Errors
    ///
    /// [`ChainFault::Ended`] if the answer doesn't end well, else as [`Chain::to_vec`].
    pub fn aggregate<Src, A, R>(
        &self,
        rt: &R,
        alloc: Global,
        workers: u64,
        source: Src,
        aggregator: &A,
    ) -> Result<A::Out, ChainFault>
    where
        Src: Source<Item = S::Item>,
        A: GrowingAggregator<Item = S::Item>,
        A::Out: Drop,
        R: Clock + Threads + Wait + Sync,
        requires fresh { Src.given source ≡ 0 }
        requires is_called { S.is_called self.now.steps }
        requires in_one_way { S.in_one_way self.now.steps }
        requires gives { S.gives self.now.steps }
        requires gives_one { S.gives_one self.now.steps }
        ensures degree { is_degree workers ≡ false → result ≡ Err (Build DegreeOutOfRange) }
        ensures answer { (ops : _) → S.does self.now.steps ops →
            Tells workers (aggregate_value (A.folding aggregator.now)) (answer_of (λ f. f) ops (Src.whole source)) result }
    {
        match query_of(alloc, workers, &self.steps) {
            Ok(query) => chain_answer(aggregate(
                rt,
                alloc,
                &query,
                source,
                Growth::DEFAULT,
                &TimedGate::new(rt),
                aggregator,
            )),
            Err(fault) => Err(ChainFault::Build(fault)),
        }
    }
}

impl<'a, S: Steps<Item: Send> + Sync> Sequentially<'a, S> {
    /// As [`Chain::aggregate`].
    ///
    /// # Errors
    ///
    /// [`ChainFault::Ended`] if the answer doesn't end well, else as [`Sequentially::to_vec`].
    pub fn aggregate<Src, A, R>(
        &self,
        rt: &R,
        alloc: Global,
        workers: u64,
        source: Src,
        aggregator: &A,
    ) -> Result<A::Out, ChainFault>
    where
        Src: Source<Item = S::Item>,
        A: Aggregator<Item = S::Item>,
        A::Out: Drop,
        R: Clock + Threads + Wait + Sync,
        requires fresh { Src.given source ≡ 0 }
        requires is_called { S.is_called self.now.steps.now }
        requires in_one_way { S.in_one_way self.now.steps.now }
        requires gives { S.gives self.now.steps.now }
        requires gives_one { S.gives_one self.now.steps.now }
        ensures value { (ops : _) → S.does self.now.steps.now ops →
            Tells workers (aggregate_value (A.folding aggregator.now)) (answer_of (λ f. f) ops (Src.whole source)) result }
        ensures memory { LacksRoomAlone result }
    {
        match query_of(alloc, workers, self.steps) {
            Ok(query) => chain_answer(sequentially::aggregate(
                rt, alloc, &query, source, aggregator,
            )),
            Err(fault) => Err(ChainFault::Build(fault)),
        }
    }
}
