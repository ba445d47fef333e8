ghost use Rattle.plinq_groups.specs.Groups.{grouping};
ghost use Rattle.plinq_groups.specs.Grouping.{grouping-lawful};

use crate::groups::Groups;
use crate::key_of::KeyOf;
use plinq_aggregate::GrowingAggregator;
use std::alloc::{AllocError, Global};

/// The groups of items with equal keys, each folded by an aggregator of its own, in the order of their first items
/// (.NET's `GroupBy` with a result selector).
///
/// ```text
/// let groups = aggregate(&rt, alloc, &query, source, growth, &TimedGate::new(&rt), &GroupBy { key: Customer, each: Sum })?;
/// ```
#[derive(Drop)]
pub struct GroupBy<F, A> {
    /// What the key of an item is.
    pub key: F,
    /// What becomes of the items of one key.
    pub each: A,
}

impl<F: KeyOf, A: GrowingAggregator<Item = F::Item>> GrowingAggregator for GroupBy<F, A> {
    type Item = F::Item;

    type Acc = Groups<F::Key, A::Acc>;

    type Out = Groups<F::Key, A::Acc>;

    ghost folding = { λ g. grouping F.Key.eq (F.keys g.key) (A.folding g.each) };

    fn seed(&self, alloc: Global) -> Groups<F::Key, A::Acc> {
        Groups::new(alloc)
    }

    fn update(
        &self,
        alloc: Global,
        acc: Groups<F::Key, A::Acc>,
        x: F::Item,
    ) -> Result<Groups<F::Key, A::Acc>, AllocError> {
        let mut map = acc.map;
        let filler = self.each.seed(alloc);
        let (index, before) = map.insert_full(self.key.key_of(x), filler)?;
        let before = before.unwrap_or(self.each.seed(alloc));
        map[index] = self.each.update(alloc, before, x)?;
        Ok(Groups { map })
    }

    fn update_block(
        &self,
        alloc: Global,
        acc: Groups<F::Key, A::Acc>,
        block: &[F::Item],
    ) -> Result<Groups<F::Key, A::Acc>, AllocError> {
        let roomy = acc.with_room(block.len())?;
        let mut map = roomy.map;
        for item in block {
            let filler = self.each.seed(alloc);
            let (index, before) = map.insert_full(self.key.key_of(*item), filler)?;
            let before = before.unwrap_or(self.each.seed(alloc));
            map[index] = self.each.update(alloc, before, *item)?;
        }
        Ok(Groups { map })
    }

    fn combine(
        &self,
        alloc: Global,
        first: Groups<F::Key, A::Acc>,
        second: Groups<F::Key, A::Acc>,
    ) -> Result<Groups<F::Key, A::Acc>, AllocError> {
        let mut map = first.map;
        for (key, acc) in second.map {
            let filler = self.each.seed(alloc);
            let (index, before) = map.insert_full(key, filler)?;
            map[index] = match before {
                Some(before) => self.each.combine(alloc, before, acc)?,
                None => acc,
            };
        }
        Ok(Groups { map })
    }

    fn result(&self, acc: Groups<F::Key, A::Acc>) -> Groups<F::Key, A::Acc> {
        acc
    }

    ghost lawful = { λ g. grouping-lawful F.Key.eq (F.keys g.key) (A.folding g.each) F.Key.Eq.laws (A.lawful g.each) };
}
