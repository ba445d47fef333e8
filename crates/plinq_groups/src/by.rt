ghost use Rattle.plinq_groups.specs.Others.{of_field, of_field-lawful};

use crate::field_of::FieldOf;
use plinq_aggregate::GrowingAggregator;
use std::alloc::{AllocError, Global};

/// An aggregate of a field of each item (.NET's `Sum` and its like with a selector).
#[derive(Drop)]
pub struct By<F, A> {
    /// Which field.
    pub field: F,
    /// What becomes of the fields.
    pub each: A,
}

impl<F: FieldOf, A: GrowingAggregator<Item = F::Field>> GrowingAggregator for By<F, A> {
    type Item = F::Item;

    type Acc = A::Acc;

    type Out = A::Out;

    ghost folding = { λ b. of_field (F.fields b.field) (A.folding b.each) };

    fn seed(&self, alloc: Global) -> A::Acc {
        self.each.seed(alloc)
    }

    fn update(&self, alloc: Global, acc: A::Acc, x: F::Item) -> Result<A::Acc, AllocError> {
        self.each.update(alloc, acc, self.field.field_of(x))
    }

    fn combine(&self, alloc: Global, first: A::Acc, second: A::Acc) -> Result<A::Acc, AllocError> {
        self.each.combine(alloc, first, second)
    }

    fn result(&self, acc: A::Acc) -> A::Out {
        self.each.result(acc)
    }

    ghost lawful = { λ b. of_field-lawful (F.fields b.field) (A.folding b.each) (A.lawful b.each) };
}
