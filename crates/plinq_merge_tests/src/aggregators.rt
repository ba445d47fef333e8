//! Aggregators through their bound, each at a type.
ghost use Rattle.plinq_aggregate.specs.Numbers.{counting};
ghost use Rattle.plinq_aggregate.specs.Lawful.{counting-lawful};

use plinq_aggregate::{Aggregator, Count, Max, Min, Sum, fold_sequential};

/// How many numbers there are, of another type.
#[derive(Drop)]
struct CountOfSmall;

impl Aggregator for CountOfSmall {
    type Item = i32;

    type Acc = u64;

    type Out = u64;

    ghost folding = { λ _. counting };

    fn seed(&self) -> u64 {
        0
    }

    fn update(&self, acc: u64, _x: i32) -> u64 {
        acc.wrapping_add(1)
    }

    fn combine(&self, first: u64, second: u64) -> u64 {
        first.wrapping_add(second)
    }

    fn result(&self, acc: u64) -> u64 {
        acc
    }

    ghost lawful = { λ _. counting-lawful };
}

/// The folds of two parts, one item by item and one as a block, combined.
fn in_two_parts<A: Aggregator>(aggregator: &A, first: &[A::Item], second: &[A::Item]) -> A::Out {
    let mut acc = aggregator.seed();
    for item in first {
        acc = aggregator.update(acc, *item);
    }
    let other = aggregator.update_block(aggregator.seed(), second);
    aggregator.result(aggregator.combine(acc, other))
}

#[test]
fn aggregates_of_a_few_numbers(rt: HostRuntime) {
    assert!(rt; in_two_parts(&Sum, &[3, 1], &[2]) == 6);
    assert!(rt; in_two_parts(&Count, &[2, 4], &[6, 8, 10]) == 5);
    assert!(rt; in_two_parts(&Max, &[3, 9], &[4]) == Some(9));
    assert!(rt; in_two_parts(&Min, &[3], &[-1, 4]) == Some(-1));
}

#[test]
fn numbers_of_another_type_are_folded_as_well(rt: HostRuntime) {
    assert!(rt; fold_sequential(&CountOfSmall, &[i32::MIN, 7, 2]) == 3);
    assert!(rt; in_two_parts(&CountOfSmall, &[3, 4], &[]) == 2);
}
