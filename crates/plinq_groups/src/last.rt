ghost use Rattle.plinq_groups.specs.Lasting.{picking_last, picking_last-lawful};

use plinq_aggregate::Aggregator;
use std::marker::PhantomData;

/// The last item (.NET's `LastOrDefault`); of none there is none. Within [`GroupBy`](crate::GroupBy) it gives the last item of
/// each key.
///
/// ```text
/// let last = aggregate(&rt, alloc, &query, source, Growth::DEFAULT, &TimedGate::new(&rt), &Last::new())?;
/// ```
#[derive(Drop)]
pub struct Last<T> {
    of: PhantomData<T>,
}

impl<T> Last<T> {
    pub fn new() -> Last<T> {
        Last { of: PhantomData }
    }
}

impl<T: Copy + Send + Sync> Aggregator for Last<T> {
    type Item = T;

    type Acc = Option<T>;

    type Out = Option<T>;

    ghost folding = { λ _. picking_last };

    fn seed(&self) -> Option<T> {
        None
    }

    fn update(&self, _acc: Option<T>, x: T) -> Option<T> {
        Some(x)
    }

    fn combine(&self, first: Option<T>, second: Option<T>) -> Option<T> {
        second.or(first)
    }

    fn result(&self, acc: Option<T>) -> Option<T> {
        acc
    }

    ghost lawful = { λ _. picking_last-lawful };
}
