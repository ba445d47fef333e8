ghost use Rattle.plinq_collect.specs.ItemFoldings.{being_there, being_there-lawful};

use plinq_aggregate::Aggregator;
use plinq_lambda::SharedLambda;
use std::marker::PhantomData;

/// Whether a query over this lambda has an item.
#[derive(Drop)]
pub(crate) struct IsThere<L>(pub(crate) PhantomData<L>);

impl<L: SharedLambda> Aggregator for IsThere<L> {
    type Item = L::Item;

    type Acc = bool;

    type Out = bool;

    ghost folding = { λ _. being_there };

    fn seed(&self) -> bool {
        false
    }

    fn update(&self, _: bool, _: L::Item) -> bool {
        true
    }

    fn combine(&self, first: bool, second: bool) -> bool {
        first || second
    }

    fn result(&self, is_there: bool) -> bool {
        is_there
    }

    ghost lawful = { λ _. being_there-lawful };
}
