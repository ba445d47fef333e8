ghost use Rattle.plinq_bench.specs.Totals.{totalling, totalling-lawful};

use plinq_aggregate::Aggregator;

/// The sum of all numbers modulo 2^64, which doesn't depend on their order.
#[derive(Drop)]
pub(crate) struct Total;

impl Aggregator for Total {
    type Item = i64;

    type Acc = u64;

    type Out = u64;

    ghost folding = { λ _. totalling };

    fn seed(&self) -> u64 {
        0
    }

    fn update(&self, acc: u64, x: i64) -> u64 {
        acc.wrapping_add(x.cast_unsigned())
    }

    fn combine(&self, first: u64, second: u64) -> u64 {
        first.wrapping_add(second)
    }

    fn result(&self, acc: u64) -> u64 {
        acc
    }

    ghost lawful = { λ _. totalling-lawful };
}
