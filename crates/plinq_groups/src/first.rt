ghost use Rattle.std.specs.Prelude.{refl};
ghost use Rattle.plinq_aggregate.specs.Numbers.{picking};
ghost use Rattle.plinq_aggregate.specs.Lawful.{picking-lawful};

use plinq_aggregate::Aggregator;
use std::marker::PhantomData;

/// The first item; of none there is none. Within [`GroupBy`](crate::GroupBy) it gives the first item of each key (.NET's
/// `DistinctBy`).
#[derive(Drop)]
pub struct First<T> {
    of: PhantomData<T>,
}

impl<T> First<T> {
    pub fn new() -> First<T> {
        First { of: PhantomData }
    }
}

impl<T: Copy + Send + Sync> Aggregator for First<T> {
    type Item = T;

    type Acc = Option<T>;

    type Out = Option<T>;

    ghost folding = { λ _. picking (λ a b. a) };

    fn seed(&self) -> Option<T> {
        None
    }

    fn update(&self, acc: Option<T>, x: T) -> Option<T> {
        Some(acc.unwrap_or(x))
    }

    fn combine(&self, first: Option<T>, second: Option<T>) -> Option<T> {
        first.or(second)
    }

    fn result(&self, acc: Option<T>) -> Option<T> {
        acc
    }

    ghost lawful = { λ _. picking-lawful (λ a b. a) (λ a b c. refl) };
}
