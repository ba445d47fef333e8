ghost use Rattle.plinq_groups.specs.Collecting.{collecting, collecting-lawful};

use crate::items::Items;
use plinq_aggregate::GrowingAggregator;
use std::alloc::{AllocError, Global};
use std::marker::PhantomData;

/// All items in their order. Within [`GroupBy`](crate::GroupBy) it gives each group's items (.NET's `ToLookup`).
#[derive(Drop)]
pub struct Collect<T> {
    of: PhantomData<T>,
}

impl<T> Collect<T> {
    pub fn new() -> Collect<T> {
        Collect { of: PhantomData }
    }
}

impl<T: Copy + Send + Sync> GrowingAggregator for Collect<T> {
    type Item = T;

    type Acc = Items<T>;

    type Out = Items<T>;

    ghost folding = { λ _. collecting };

    fn seed(&self, alloc: Global) -> Items<T> {
        Items {
            items: Vec::new(alloc),
        }
    }

    fn update(&self, _alloc: Global, acc: Items<T>, x: T) -> Result<Items<T>, AllocError> {
        let mut items = acc.items;
        items.push(x)?;
        Ok(Items { items })
    }

    fn update_block(
        &self,
        _alloc: Global,
        acc: Items<T>,
        block: &[T],
    ) -> Result<Items<T>, AllocError> {
        let mut items = acc.items;
        items.extend_from_slice(block)?;
        Ok(Items { items })
    }

    fn combine(
        &self,
        _alloc: Global,
        first: Items<T>,
        second: Items<T>,
    ) -> Result<Items<T>, AllocError> {
        let mut items = first.items;
        items.extend_from_slice(second.items.as_slice())?;
        Ok(Items { items })
    }

    fn result(&self, acc: Items<T>) -> Items<T> {
        acc
    }

    ghost lawful = { λ _. collecting-lawful };
}
