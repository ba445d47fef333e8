//! What is looked for in a chain's answer on one thread.
ghost use Rattle.std.specs.Prelude.{◌≡◌, ℕ, pos, [], ◌∷◌, ◌++◌, Bool, Result, Ok};
ghost use Rattle.plinq_ops.specs.declared.op.Op.{Op};
ghost use Rattle.plinq_ops.specs.Sequential.{answer_of};
ghost use Rattle.plinq_collect.specs.ItemFoldings.{has_item, has_none};
ghost use Rattle.plinq_closures.specs.Asked.{LacksRoomAlone, Tells};
ghost use Rattle.plinq_closures.specs.Functions.{tests};

use crate::chain_fault::ChainFault;
use crate::chain_sequentially::Sequentially;
use crate::searching::{lent, negated};
use crate::steps::Steps;
use plinq_source::Source;
use std::alloc::Global;
use std::sync::Wait;
use std::thread::Threads;

impl<'a, S: Steps<Item: Send> + Sync> Sequentially<'a, S> {
    /// As [`Chain::contains`].
    ///
    /// # Errors
    ///
    /// As [`Sequentially::first`].
    pub fn contains<Src, R>(
        &self,
        rt: &R,
        alloc: Global,
        workers: u64,
        source: Src,
        item: S::Item,
    ) -> Result<bool, ChainFault>
    where
        S::Item: PartialEq + Sync,
        Src: Source<Item = S::Item>,
        R: Threads + Wait + Sync,
        requires fresh { Src.given source ≡ 0 }
        requires is_called { S.is_called self.now.steps.now }
        requires in_one_way { S.in_one_way self.now.steps.now }
        requires gives { S.gives self.now.steps.now }
        requires gives_one { S.gives_one self.now.steps.now }
        ensures value { (ops : _) → S.does self.now.steps.now ops →
            Tells workers has_item
            (answer_of (λ f. f) ((ops ++ Op.Filter (tests (λ x. Ok (S.Item.eq x item))) ∷ []) ++ Op.Take (pos 1) ∷ []) (Src.whole source))
            result }
        ensures memory { LacksRoomAlone result }
    {
        self.any_that(
            rt,
            alloc,
            workers,
            source,
            move |x: S::Item| -> Result<bool, u32>
                ensures { result ≡ Ok (S.Item.eq x item) }
            { Ok(x == item) },
        )
    }

    /// Whether an item passes.
    fn any_that<P, Src, R>(
        &self,
        rt: &R,
        alloc: Global,
        workers: u64,
        source: Src,
        by: P,
    ) -> Result<bool, ChainFault>
    where
        P: Fn(S::Item) -> Result<bool, u32> + Sync,
        Src: Source<Item = S::Item>,
        R: Threads + Wait + Sync,
        requires fresh { Src.given source ≡ 0 }
        requires is_called { ((x : S.Item) → P.pre by x) × S.is_called self.now.steps.now }
        requires in_one_way { ((x : S.Item) (a b : P.pre by x) → a ≡ b) × S.in_one_way self.now.steps.now }
        requires gives { ((x : S.Item) → (r : Result Bool ℕ) × P.post by x r) × S.gives self.now.steps.now }
        requires gives_one { ((x : S.Item) (r q : Result Bool ℕ) → P.post by x r → P.post by x q → q ≡ r)
            × S.gives_one self.now.steps.now }
        ensures value { (ops : _) (p : S.Item → Result Bool ℕ) → S.does self.now.steps.now ops →
            ((x : S.Item) → P.post by x (p x)) →
            Tells workers has_item (answer_of (λ f. f) ((ops ++ Op.Filter (tests p) ∷ []) ++ Op.Take (pos 1) ∷ []) (Src.whole source))
            result }
        ensures memory { LacksRoomAlone result }
    {
        let chain = lent(self.steps).filter(by);
        chain.sequentially().any(rt, alloc, workers, source)
    }

    /// As [`Chain::all`].
    ///
    /// # Errors
    ///
    /// As [`Sequentially::first`].
    pub fn all<P, Src, R>(
        &self,
        rt: &R,
        alloc: Global,
        workers: u64,
        source: Src,
        by: P,
    ) -> Result<bool, ChainFault>
    where
        P: Fn(S::Item) -> Result<bool, u32> + Sync,
        Src: Source<Item = S::Item>,
        R: Threads + Wait + Sync,
        requires fresh { Src.given source ≡ 0 }
        requires is_called { ((x : S.Item) → P.pre by x) × S.is_called self.now.steps.now }
        requires in_one_way { ((x : S.Item) (a b : P.pre by x) → a ≡ b) × S.in_one_way self.now.steps.now }
        requires gives { ((x : S.Item) → (r : Result Bool ℕ) × P.post by x r) × S.gives self.now.steps.now }
        requires gives_one { ((x : S.Item) (r q : Result Bool ℕ) → P.post by x r → P.post by x q → q ≡ r)
            × S.gives_one self.now.steps.now }
        ensures value { (ops : _) (p : S.Item → Result Bool ℕ) → S.does self.now.steps.now ops →
            ((x : S.Item) → P.post by x (p x)) →
            Tells workers has_none (answer_of (λ f. f) ((ops ++ Op.SkipWhile (tests p) ∷ []) ++ Op.Take (pos 1) ∷ []) (Src.whole source))
            result }
        ensures memory { LacksRoomAlone result }
    {
        let chain = lent(self.steps).skip_while(by);
        negated(chain.sequentially().any(rt, alloc, workers, source))
    }
}
