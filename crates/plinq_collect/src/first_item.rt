ghost use Rattle.plinq_collect.specs.ItemFoldings.{picking_first, picking_first-lawful};

use plinq_aggregate::Aggregator;
use plinq_lambda::SharedLambda;
use std::marker::PhantomData;

/// The first item of a query over this lambda; of none there is none.
#[derive(Drop)]
pub(crate) struct FirstItem<L>(pub(crate) PhantomData<L>);

impl<L: SharedLambda> Aggregator for FirstItem<L> {
    type Item = L::Item;

    type Acc = Option<L::Item>;

    type Out = Option<L::Item>;

    ghost folding = { λ _. picking_first };

    fn seed(&self) -> Option<L::Item> {
        None
    }

    fn update(&self, first: Option<L::Item>, item: L::Item) -> Option<L::Item> {
        first.or(Some(item))
    }

    fn combine(&self, first: Option<L::Item>, second: Option<L::Item>) -> Option<L::Item> {
        first.or(second)
    }

    fn result(&self, first: Option<L::Item>) -> Option<L::Item> {
        first
    }

    ghost lawful = { λ _. picking_first-lawful };
}
