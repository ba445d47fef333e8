//! A closure that is called with the items of a chain's answer.
ghost use Rattle.std.specs.Prelude.{◌≡◌, false, Err};
ghost use Rattle.plinq_ops.specs.Query.{is_degree};
ghost use Rattle.plinq_ops.specs.declared.build_fault.BuildFault.TheVariants.{DegreeOutOfRange};
ghost use Rattle.plinq_closures.specs.declared.chain_fault.ChainFault.TheVariants.{Build};
ghost use Rattle.plinq_ops.specs.Sequential.{answer_of};
ghost use Rattle.plinq_closures.specs.Asked.{HasCalled};

use crate::asking::chain_outcome;
use crate::chain::Chain;
use crate::chain_fault::ChainFault;
use crate::chain_queries::query_of;
use crate::steps::Steps;
use plinq_collect::for_each;
use plinq_source::{Ending, Source};
use std::alloc::Global;
use std::sync::Wait;
use std::thread::Threads;
use std::time::Clock;

impl<S: Steps<Item: Send> + Sync> Chain<S> {
    /// Calls a closure with each item of the answer, one after another, and returns how it ended (C#'s `foreach`). It is called
    /// on the caller's thread, while the workers go on.
    ///
    /// # Errors
    ///
    /// [`ChainFault::Run`] with the code that the closure answers, and it is called no more; else as [`Chain::to_vec`].
    pub fn for_each<Src, F, R>(
        &self,
        rt: &R,
        alloc: Global,
        workers: u64,
        source: Src,
        by: &mut F,
    ) -> Result<Ending, ChainFault>
    where
        Src: Source<Item = S::Item>,
        F: FnMut(S::Item) -> Result<(), u32>,
        R: Clock + Threads + Wait + Sync,
        requires fresh { Src.given source ≡ 0 }
        requires is_called { S.is_called self.now.steps }
        requires in_one_way { S.in_one_way self.now.steps }
        requires gives { S.gives self.now.steps }
        requires gives_one { S.gives_one self.now.steps }
        requires calls { (f : F) (x : S.Item) → F.pre f x }
        requires calls_in_one_way { (f : F) (x : S.Item) (a b : F.pre f x) → a ≡ b }
        ensures degree { is_degree workers ≡ false → result ≡ Err (Build DegreeOutOfRange) }
        ensures answer { (ops : _) → S.does self.now.steps ops →
            HasCalled workers (λ f x r g. F.step f x r g) (answer_of (λ f. f) ops (Src.whole source)) by.old result by.new }
    {
        match query_of(alloc, workers, &self.steps) {
            Ok(query) => chain_outcome(for_each(rt, alloc, &query, source, by)),
            Err(fault) => Err(ChainFault::Build(fault)),
        }
    }
}
