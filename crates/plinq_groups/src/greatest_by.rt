ghost use Rattle.plinq_aggregate.specs.Numbers.{picking};
ghost use Rattle.plinq_groups.specs.Ranked.{greater, greater-lawful};

use crate::rank_of::RankOf;
use plinq_aggregate::Aggregator;

/// The item of the greatest rank, and of several the first (.NET's `MaxBy`); of none there is none.
#[derive(Drop)]
pub struct GreatestBy<F> {
    pub rank: F,
}

impl<F: RankOf> Aggregator for GreatestBy<F> {
    type Item = F::Item;

    type Acc = Option<F::Item>;

    type Out = Option<F::Item>;

    ghost folding = { λ g. picking (greater (F.ranks g.rank) F.Rank.cmp) };

    fn seed(&self) -> Option<F::Item> {
        None
    }

    fn update(&self, acc: Option<F::Item>, x: F::Item) -> Option<F::Item> {
        self.combine(acc, Some(x))
    }

    fn combine(&self, first: Option<F::Item>, second: Option<F::Item>) -> Option<F::Item> {
        match (first, second) {
            (Some(a), Some(b)) => {
                if self.rank.rank_of(a).cmp(&self.rank.rank_of(b)).is_lt() {
                    Some(b)
                } else {
                    Some(a)
                }
            }
            (None, second) => second,
            (first, None) => first,
        }
    }

    fn result(&self, acc: Option<F::Item>) -> Option<F::Item> {
        acc
    }

    ghost lawful = { λ g. greater-lawful (F.ranks g.rank) F.Rank.cmp F.Rank.total };
}
