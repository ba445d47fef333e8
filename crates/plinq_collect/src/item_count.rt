ghost use Rattle.plinq_collect.specs.ItemFoldings.{counting_items, counting_items-lawful};

use plinq_aggregate::Aggregator;
use plinq_lambda::SharedLambda;
use std::marker::PhantomData;

/// How many items a query over this lambda has, modulo 2^64.
#[derive(Drop)]
pub(crate) struct ItemCount<L>(pub(crate) PhantomData<L>);

impl<L: SharedLambda> Aggregator for ItemCount<L> {
    type Item = L::Item;

    type Acc = u64;

    type Out = u64;

    ghost folding = { λ _. counting_items };

    fn seed(&self) -> u64 {
        0
    }

    fn update(&self, acc: u64, _: L::Item) -> u64 {
        acc.wrapping_add(1)
    }

    fn combine(&self, first: u64, second: u64) -> u64 {
        first.wrapping_add(second)
    }

    fn result(&self, acc: u64) -> u64 {
        acc
    }

    ghost lawful = { λ _. counting_items-lawful };
}
