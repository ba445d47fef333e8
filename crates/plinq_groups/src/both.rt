ghost use Rattle.plinq_groups.specs.Others.{of_both, of_both-lawful};

use plinq_aggregate::GrowingAggregator;
use std::alloc::{AllocError, Global};

/// Two aggregates of the same items at once, as a sum and a count, of which a mean is made.
#[derive(Drop)]
pub struct Both<A, B> {
    pub first: A,
    pub second: B,
}

impl<A: GrowingAggregator, B: GrowingAggregator<Item = A::Item>> GrowingAggregator for Both<A, B> {
    type Item = A::Item;

    type Acc = (A::Acc, B::Acc);

    type Out = (A::Out, B::Out);

    ghost folding = { λ b. of_both (A.folding b.first) (B.folding b.second) };

    fn seed(&self, alloc: Global) -> (A::Acc, B::Acc) {
        (self.first.seed(alloc), self.second.seed(alloc))
    }

    fn update(
        &self,
        alloc: Global,
        acc: (A::Acc, B::Acc),
        x: A::Item,
    ) -> Result<(A::Acc, B::Acc), AllocError> {
        let first = self.first.update(alloc, acc.0, x)?;
        let second = self.second.update(alloc, acc.1, x)?;
        Ok((first, second))
    }

    fn combine(
        &self,
        alloc: Global,
        first: (A::Acc, B::Acc),
        second: (A::Acc, B::Acc),
    ) -> Result<(A::Acc, B::Acc), AllocError> {
        let one = self.first.combine(alloc, first.0, second.0)?;
        let other = self.second.combine(alloc, first.1, second.1)?;
        Ok((one, other))
    }

    fn result(&self, acc: (A::Acc, B::Acc)) -> (A::Out, B::Out) {
        (self.first.result(acc.0), self.second.result(acc.1))
    }

    ghost lawful = { λ b. of_both-lawful (A.folding b.first) (B.folding b.second) (A.lawful b.first) (B.lawful b.second) };
}
