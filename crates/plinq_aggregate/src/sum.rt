ghost use Rattle.plinq_aggregate.specs.Numbers.{summing};
ghost use Rattle.plinq_aggregate.specs.Lawful.{summing-lawful};

use crate::aggregator::Aggregator;

/// The sum, modulo 2^128, from -2^127 on. No sum of at most 2^63 numbers comes near the ends.
///
/// ```text
/// fold_sequential(&Sum, &[3, 1, 2])    // 6
/// ```
#[derive(Clone, Copy, Debug)]
pub struct Sum;

impl Aggregator for Sum {
    type Item = i64;

    type Acc = i128;

    type Out = i128;

    ghost folding = { λ _. summing };

    fn seed(&self) -> i128 {
        0
    }

    fn update(&self, acc: i128, x: i64) -> i128 {
        acc.wrapping_add(i128::from(x))
    }

    fn combine(&self, first: i128, second: i128) -> i128 {
        first.wrapping_add(second)
    }

    fn result(&self, acc: i128) -> i128 {
        acc
    }

    ghost lawful = { λ _. summing-lawful };
}
