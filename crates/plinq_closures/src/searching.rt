//! What is looked for in a chain's answer: an item at a place, one that equals another, one that doesn't pass.
ghost use Rattle.std.specs.Prelude.{◌≡◌, ℕ, pos, [], ◌∷◌, ◌++◌, Bool, Result, Ok, false, Err};
ghost use Rattle.plinq_ops.specs.Query.{is_degree};
ghost use Rattle.plinq_ops.specs.declared.build_fault.BuildFault.TheVariants.{DegreeOutOfRange};
ghost use Rattle.plinq_closures.specs.declared.chain_fault.ChainFault.TheVariants.{Build};
ghost use Rattle.plinq_ops.specs.declared.op.Op.{Op};
ghost use Rattle.plinq_ops.specs.Sequential.{answer_of};
ghost use Rattle.plinq_collect.specs.ItemFoldings.{first_of, has_item, has_none};
ghost use Rattle.plinq_closures.specs.Asked.{Tells, negated};
ghost use Rattle.plinq_closures.specs.Functions.{tests};

use crate::asking::chain_answer;
use crate::chain::Chain;
use crate::chain_fault::ChainFault;
use crate::chain_queries::query_of;
use crate::lent::Lent;
use crate::steps::Steps;
use plinq_collect::element_at;
use plinq_source::Source;
use std::alloc::Global;
use std::sync::Wait;
use std::thread::Threads;
use std::time::Clock;

impl<S: Steps<Item: Send> + Sync> Chain<S> {
    /// The item at a place, counted from 0, if there are as many (.NET's `ElementAtOrDefault`). No item after it is asked for
    /// once it is known.
    ///
    /// # Errors
    ///
    /// As [`Chain::first`].
    pub fn element_at<Src, R>(
        &self,
        rt: &R,
        alloc: Global,
        workers: u64,
        source: Src,
        place: u32,
    ) -> Result<Option<S::Item>, ChainFault>
    where
        Src: Source<Item = S::Item>,
        R: Clock + Threads + Wait + Sync,
        requires fresh { Src.given source ≡ 0 }
        requires is_called { S.is_called self.now.steps }
        requires in_one_way { S.in_one_way self.now.steps }
        requires gives { S.gives self.now.steps }
        requires gives_one { S.gives_one self.now.steps }
        ensures degree { is_degree workers ≡ false → result ≡ Err (Build DegreeOutOfRange) }
        ensures answer { (ops : _) → S.does self.now.steps ops →
            Tells workers first_of (answer_of (λ f. f) ((ops ++ Op.Skip (pos place) ∷ []) ++ Op.Take (pos 1) ∷ []) (Src.whole source)) result }
    {
        match query_of(alloc, workers, &self.steps) {
            Ok(query) => chain_answer(element_at(rt, alloc, query, source, place)),
            Err(fault) => Err(ChainFault::Build(fault)),
        }
    }

    /// Whether an item equals this one (.NET's `Contains`). No item after the first that does is asked for once it is known.
    ///
    /// # Errors
    ///
    /// As [`Chain::first`].
    pub fn contains<Src, R>(
        &self,
        rt: &R,
        alloc: Global,
        workers: u64,
        source: Src,
        item: S::Item,
    ) -> Result<bool, ChainFault>
    where
        S::Item: PartialEq + Sync,
        Src: Source<Item = S::Item>,
        R: Clock + Threads + Wait + Sync,
        requires fresh { Src.given source ≡ 0 }
        requires is_called { S.is_called self.now.steps }
        requires in_one_way { S.in_one_way self.now.steps }
        requires gives { S.gives self.now.steps }
        requires gives_one { S.gives_one self.now.steps }
        ensures degree { is_degree workers ≡ false → result ≡ Err (Build DegreeOutOfRange) }
        ensures answer { (ops : _) → S.does self.now.steps ops →
            Tells workers has_item
            (answer_of (λ f. f) ((ops ++ Op.Filter (tests (λ x. Ok (S.Item.eq x item))) ∷ []) ++ Op.Take (pos 1) ∷ []) (Src.whole source))
            result }
    {
        self.any_that(
            rt,
            alloc,
            workers,
            source,
            move |x: S::Item| -> Result<bool, u32>
                ensures { result ≡ Ok (S.Item.eq x item) }
            { Ok(x == item) },
        )
    }

    /// Whether an item passes.
    fn any_that<P, Src, R>(
        &self,
        rt: &R,
        alloc: Global,
        workers: u64,
        source: Src,
        by: P,
    ) -> Result<bool, ChainFault>
    where
        P: Fn(S::Item) -> Result<bool, u32> + Sync,
        Src: Source<Item = S::Item>,
        R: Clock + Threads + Wait + Sync,
        requires fresh { Src.given source ≡ 0 }
        requires is_called { ((x : S.Item) → P.pre by x) × S.is_called self.now.steps }
        requires in_one_way { ((x : S.Item) (a b : P.pre by x) → a ≡ b) × S.in_one_way self.now.steps }
        requires gives { ((x : S.Item) → (r : Result Bool ℕ) × P.post by x r) × S.gives self.now.steps }
        requires gives_one { ((x : S.Item) (r q : Result Bool ℕ) → P.post by x r → P.post by x q → q ≡ r)
            × S.gives_one self.now.steps }
        ensures degree { is_degree workers ≡ false → result ≡ Err (Build DegreeOutOfRange) }
        ensures answer { (ops : _) (p : S.Item → Result Bool ℕ) → S.does self.now.steps ops →
            ((x : S.Item) → P.post by x (p x)) →
            Tells workers has_item (answer_of (λ f. f) ((ops ++ Op.Filter (tests p) ∷ []) ++ Op.Take (pos 1) ∷ []) (Src.whole source))
            result }
    {
        let chain = lent(&self.steps).filter(by);
        chain.any(rt, alloc, workers, source)
    }

    /// Whether every item passes (.NET's and rayon's `All`); of no items it is true. No item after the first that fails is
    /// asked for once it is known.
    ///
    /// # Errors
    ///
    /// As [`Chain::first`]: a test that faults before any item fails is a fault.
    pub fn all<P, Src, R>(
        &self,
        rt: &R,
        alloc: Global,
        workers: u64,
        source: Src,
        by: P,
    ) -> Result<bool, ChainFault>
    where
        P: Fn(S::Item) -> Result<bool, u32> + Sync,
        Src: Source<Item = S::Item>,
        R: Clock + Threads + Wait + Sync,
        requires fresh { Src.given source ≡ 0 }
        requires is_called { ((x : S.Item) → P.pre by x) × S.is_called self.now.steps }
        requires in_one_way { ((x : S.Item) (a b : P.pre by x) → a ≡ b) × S.in_one_way self.now.steps }
        requires gives { ((x : S.Item) → (r : Result Bool ℕ) × P.post by x r) × S.gives self.now.steps }
        requires gives_one { ((x : S.Item) (r q : Result Bool ℕ) → P.post by x r → P.post by x q → q ≡ r)
            × S.gives_one self.now.steps }
        ensures degree { is_degree workers ≡ false → result ≡ Err (Build DegreeOutOfRange) }
        ensures answer { (ops : _) (p : S.Item → Result Bool ℕ) → S.does self.now.steps ops →
            ((x : S.Item) → P.post by x (p x)) →
            Tells workers has_none (answer_of (λ f. f) ((ops ++ Op.SkipWhile (tests p) ∷ []) ++ Op.Take (pos 1) ∷ []) (Src.whole source))
            result }
    {
        let chain = lent(&self.steps).skip_while(by);
        negated(chain.any(rt, alloc, workers, source))
    }
}

/// A chain of these steps.
pub(crate) fn lent<'a, S: Steps>(steps: &'a S) -> Chain<Lent<'a, S>>
    ensures { result.steps.steps.now ≡ steps.now }
{
    Chain {
        steps: Lent { steps },
    }
}

/// The other answer, if there is one.
pub(crate) fn negated(answer: Result<bool, ChainFault>) -> Result<bool, ChainFault>
    ensures { result ≡ negated answer }
{
    match answer {
        Ok(is) => Ok(!is),
        Err(fault) => Err(fault),
    }
}
