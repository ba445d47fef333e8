ghost use Rattle.std.specs.Int.{int_max};
ghost use Rattle.plinq_aggregate.specs.Numbers.{picking};
ghost use Rattle.plinq_aggregate.specs.Lawful.{picking_max-lawful};

use crate::aggregator::Aggregator;

/// The greatest number; of none there is none.
///
/// .NET's `Max` throws if there are no numbers.
#[derive(Clone, Copy, Debug)]
pub struct Max;

impl Aggregator for Max {
    type Item = i64;

    type Acc = Option<i64>;

    type Out = Option<i64>;

    ghost folding = { λ _. picking int_max };

    fn seed(&self) -> Option<i64> {
        None
    }

    fn update(&self, acc: Option<i64>, x: i64) -> Option<i64> {
        match acc {
            None => Some(x),
            Some(best) => Some(best.max(x)),
        }
    }

    fn combine(&self, first: Option<i64>, second: Option<i64>) -> Option<i64> {
        match (first, second) {
            (Some(first), Some(second)) => Some(first.max(second)),
            (None, second) => second,
            (first, None) => first,
        }
    }

    fn result(&self, acc: Option<i64>) -> Option<i64> {
        acc
    }

    ghost lawful = { λ _. picking_max-lawful };
}
