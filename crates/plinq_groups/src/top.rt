ghost use Rattle.plinq_groups.specs.Topped.{topping, topping-lawful};

use crate::items::Items;
use crate::rank_of::RankOf;
use plinq_aggregate::GrowingAggregator;
use std::alloc::{AllocError, Global};

/// The `count` items of the greatest ranks, the greatest first, and of several that are equal the earlier ones first
/// (.NET's `OrderByDescending(..).Take(count)`).
///
/// It holds `count` items at most, and compares an item with those that it holds.
#[derive(Drop)]
pub struct Top<F> {
    pub rank: F,
    /// How many items at most.
    pub count: usize,
}

impl<F: RankOf> GrowingAggregator for Top<F> {
    type Item = F::Item;

    type Acc = Items<F::Item>;

    type Out = Items<F::Item>;

    ghost folding = { λ t. topping (F.ranks t.rank) F.Rank.cmp t.count };

    fn seed(&self, alloc: Global) -> Items<F::Item> {
        Items {
            items: Vec::new(alloc),
        }
    }

    fn update(
        &self,
        _alloc: Global,
        acc: Items<F::Item>,
        x: F::Item,
    ) -> Result<Items<F::Item>, AllocError> {
        let mut items = acc.items;
        let rank = self.rank.rank_of(x);
        let mut at = 0;
        while at < items.len() && !self.rank.rank_of(items[at]).cmp(&rank).is_lt() {
            at += 1;
        }
        if at < self.count {
            items.insert(at, x)?;
        }
        items.truncate(self.count);
        Ok(Items { items })
    }

    fn combine(
        &self,
        alloc: Global,
        first: Items<F::Item>,
        second: Items<F::Item>,
    ) -> Result<Items<F::Item>, AllocError> {
        self.update_block(alloc, first, second.as_slice())
    }

    fn result(&self, acc: Items<F::Item>) -> Items<F::Item> {
        acc
    }

    ghost lawful = { λ t. topping-lawful (F.ranks t.rank) F.Rank.cmp F.Rank.total t.count };
}
