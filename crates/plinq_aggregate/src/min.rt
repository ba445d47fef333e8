ghost use Rattle.std.specs.Int.{int_min};
ghost use Rattle.plinq_aggregate.specs.Numbers.{picking};
ghost use Rattle.plinq_aggregate.specs.Lawful.{picking_min-lawful};

use crate::aggregator::Aggregator;

/// The least number; of none there is none.
///
/// .NET's `Min` throws if there are no numbers.
#[derive(Clone, Copy, Debug)]
pub struct Min;

impl Aggregator for Min {
    type Item = i64;

    type Acc = Option<i64>;

    type Out = Option<i64>;

    ghost folding = { λ _. picking int_min };

    fn seed(&self) -> Option<i64> {
        None
    }

    fn update(&self, acc: Option<i64>, x: i64) -> Option<i64> {
        match acc {
            None => Some(x),
            Some(best) => Some(best.min(x)),
        }
    }

    fn combine(&self, first: Option<i64>, second: Option<i64>) -> Option<i64> {
        match (first, second) {
            (Some(first), Some(second)) => Some(first.min(second)),
            (None, second) => second,
            (first, None) => first,
        }
    }

    fn result(&self, acc: Option<i64>) -> Option<i64> {
        acc
    }

    ghost lawful = { λ _. picking_min-lawful };
}
