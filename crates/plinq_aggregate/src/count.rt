ghost use Rattle.plinq_aggregate.specs.Numbers.{counting};
ghost use Rattle.plinq_aggregate.specs.Lawful.{counting-lawful};

use crate::aggregator::Aggregator;

/// How many items there are (.NET's `Count`), modulo 2^64.
#[derive(Clone, Copy, Debug)]
pub struct Count;

impl Aggregator for Count {
    type Item = i64;

    type Acc = u64;

    type Out = u64;

    ghost folding = { λ _. counting };

    fn seed(&self) -> u64 {
        0
    }

    fn update(&self, acc: u64, _x: i64) -> u64 {
        acc.wrapping_add(1)
    }

    fn update_block(&self, acc: u64, block: &[i64]) -> u64 {
        acc.wrapping_add(block.len() as u64)
    }

    fn combine(&self, first: u64, second: u64) -> u64 {
        first.wrapping_add(second)
    }

    fn result(&self, acc: u64) -> u64 {
        acc
    }

    ghost lawful = { λ _. counting-lawful };
}
