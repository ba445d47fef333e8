ghost use Rattle.std.specs.Prelude.{◌≡◌, IfOk};
ghost use Rattle.std.specs.List.{fold};
ghost use Rattle.plinq_aggregate.specs.Folding.{Folding, IsFolding};

use crate::aggregator::Aggregator;
use std::alloc::{AllocError, Global};

/// An [`Aggregator`] that may take memory: taking in and combining may find no room for it.
///
/// If there is room, it computes a `Folding` with the same two laws. Each [`Aggregator`] is one.
pub trait GrowingAggregator: Sync + Drop {
    /// What is taken in.
    type Item: Copy;

    /// What has been taken in so far.
    type Acc: Send + Drop;

    /// What is answered at the end.
    type Out;

    // The four functions that the methods compute.
    ghost folding: { Self → Folding Self.Item Self.Acc Self.Out };

    /// The accumulator of no items, which takes no memory.
    fn seed(&self, alloc: Global) -> Self::Acc
        ensures { result ≡ (folding self.now).seed };

    /// The accumulator after one item more.
    ///
    /// # Errors
    ///
    /// [`AllocError`] if there is no room; the accumulator is lost then.
    fn update(&self, alloc: Global, acc: Self::Acc, x: Self::Item) -> Result<Self::Acc, AllocError>
        ensures { IfOk result (λ after. after ≡ (folding self.now).update acc x) };

    /// The accumulator after the items of a block, first to last.
    ///
    /// It is `update` for each; an aggregator with a quicker loop has its own.
    #[inline(always)]
    fn update_block(
        &self,
        alloc: Global,
        acc: Self::Acc,
        block: &[Self::Item],
    ) -> Result<Self::Acc, AllocError>
        ensures { IfOk result (λ after. after ≡ fold (folding self.now).update acc block.now) }
    {
        let mut acc = acc;
        for item in block {
            acc = self.update(alloc, acc, *item)?;
        }
        Ok(acc)
    }

    /// The accumulator of the items of one and then of another.
    fn combine(
        &self,
        alloc: Global,
        first: Self::Acc,
        second: Self::Acc,
    ) -> Result<Self::Acc, AllocError>
        ensures { IfOk result (λ after. after ≡ (folding self.now).combine first second) };

    /// What is answered for an accumulator (.NET's result selector).
    fn result(&self, acc: Self::Acc) -> Self::Out
        ensures { result ≡ (folding self.now).tell acc };

    ghost lawful: { (a : Self) → IsFolding (folding a) };
}

impl<A: Aggregator> GrowingAggregator for A {
    type Item = A::Item;

    type Acc = A::Acc;

    type Out = A::Out;

    ghost folding = { A.folding };

    fn seed(&self, _alloc: Global) -> A::Acc {
        Aggregator::seed(self)
    }

    #[inline(always)]
    fn update(&self, _alloc: Global, acc: A::Acc, x: A::Item) -> Result<A::Acc, AllocError> {
        Ok(Aggregator::update(self, acc, x))
    }

    #[inline(always)]
    fn update_block(
        &self,
        _alloc: Global,
        acc: A::Acc,
        block: &[A::Item],
    ) -> Result<A::Acc, AllocError> {
        Ok(Aggregator::update_block(self, acc, block))
    }

    fn combine(&self, _alloc: Global, first: A::Acc, second: A::Acc) -> Result<A::Acc, AllocError> {
        Ok(Aggregator::combine(self, first, second))
    }

    fn result(&self, acc: A::Acc) -> A::Out {
        Aggregator::result(self, acc)
    }

    ghost lawful = { A.lawful };
}
