ghost use Rattle.plinq_groups.specs.Singles.{being_single, being_single-lawful};

use crate::only::Only;
use plinq_aggregate::Aggregator;
use std::marker::PhantomData;

/// The only item, or whether there is none or more than one (.NET's `Single`, which throws then). Within
/// [`GroupBy`](crate::GroupBy) it says of each key whether it is another item's as well.
///
/// It takes in all items: a `take(2)` at the end of the query has it leave the source after the second.
///
/// ```text
/// match aggregate(&rt, alloc, &query, source, Growth::DEFAULT, &TimedGate::new(&rt), &Single::new())? {
///     Only::One(item) => ..,
///     Only::NoElements | Only::MoreThanOne => ..,
/// }
/// ```
#[derive(Drop)]
pub struct Single<T> {
    of: PhantomData<T>,
}

impl<T> Single<T> {
    pub fn new() -> Single<T> {
        Single { of: PhantomData }
    }
}

impl<T: Copy + Send + Sync> Aggregator for Single<T> {
    type Item = T;

    type Acc = Only<T>;

    type Out = Only<T>;

    ghost folding = { λ _. being_single };

    fn seed(&self) -> Only<T> {
        Only::NoElements
    }

    fn update(&self, acc: Only<T>, x: T) -> Only<T> {
        self.combine(acc, Only::One(x))
    }

    fn combine(&self, first: Only<T>, second: Only<T>) -> Only<T> {
        match (first, second) {
            (Only::NoElements, second) => second,
            (first, Only::NoElements) => first,
            (_, _) => Only::MoreThanOne,
        }
    }

    fn result(&self, acc: Only<T>) -> Only<T> {
        acc
    }

    ghost lawful = { λ _. being_single-lawful };
}
