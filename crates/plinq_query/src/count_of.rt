ghost use Rattle.std.specs.Prelude.{◌≤◌, ◌^◌, length};
ghost use Rattle.plinq_collect.specs.ItemFoldings.{counting_items, counting_items-lawful};

use plinq_aggregate::Aggregator;
use plinq_source::Source;
use std::marker::PhantomData;

/// How many items are made, of any type, modulo 2^64.
#[derive(Drop)]
pub(crate) struct CountOf<T>(pub(crate) PhantomData<T>);

impl<T: Copy + Sync> Aggregator for CountOf<T> {
    type Item = T;

    type Acc = u64;

    type Out = u64;

    ghost folding = { λ _. counting_items };

    fn seed(&self) -> u64 {
        0
    }

    fn update(&self, acc: u64, _: T) -> u64 {
        acc.wrapping_add(1)
    }

    fn combine(&self, first: u64, second: u64) -> u64 {
        first.wrapping_add(second)
    }

    fn result(&self, acc: u64) -> u64 {
        acc
    }

    ghost lawful = { λ _. counting_items-lawful };
}

/// A source has so few items that a count of them is never cut. It does nothing.
#[inline(always)]
pub(crate) fn has_few<S: Source>(_source: &S)
    ensures { length (S.whole _source.now).items ≤ 2 ^ 40 }
{}
