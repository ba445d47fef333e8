//! Calls over lists: the checks of keys and of records, parts of a list, the fold of one.
ghost use Rattle.std.specs.Prelude.{Some};
ghost use Rattle.plinq_source.specs.Trace.{IsSourceEnding};

use plinq_aggregate::{Aggregator, Count, Max, Min, Sum, fold_sequential};
use plinq_enumerator::replays;
use plinq_keyed::{Keyed, Record, check_across, check_in_each, check_normalized};
use plinq_partition::{PairParts, PartFault, RangeParts};
use plinq_source::Ending;
use std::alloc::Global;
use std::test::*;

type Parts<T> = Result<Vec<Vec<Keyed<T>>>, PartFault>;

type OnDemand<T> = Result<Vec<Keyed<T>>, PartFault>;

fn checked<T>(parts: &[Vec<Keyed<T>>]) -> (bool, bool, bool) {
    (
        check_in_each(parts),
        check_across(parts),
        check_normalized(parts),
    )
}

fn replayed(records: &[Record], len: u64, ending: Ending) -> bool
    requires { IsSourceEnding (Some ending) }
{
    replays(records, len, ending)
}

fn indexed<T: Copy>(alloc: Global, values: Vec<T>) -> (Parts<T>, OnDemand<T>) {
    let parts: RangeParts<T> = RangeParts::new(alloc, values);
    (parts.partitions(2), parts.dynamic())
}

fn paired<T: Copy>(
    alloc: Global,
    pairs: Vec<Keyed<T>>,
) -> Result<(Parts<T>, OnDemand<T>), PartFault> {
    let parts: PairParts<T> = PairParts::new(alloc, pairs)?;
    Ok((parts.partitions(2), parts.dynamic()))
}

fn folded<A: Aggregator>(aggregator: &A, items: &[A::Item]) -> A::Out {
    fold_sequential(aggregator, items)
}

fn folded_by_hand<A: Aggregator>(aggregator: &A, x: A::Item) -> A::Out {
    let acc: A::Acc = aggregator.update(aggregator.seed(), x);
    aggregator.result(aggregator.combine(aggregator.seed(), acc))
}

fn are_four_aggregates() -> bool {
    let sum: i128 = folded(&Sum, &[4, 2]);
    let count: u64 = folded(&Count, &[4, 2]);
    let least: Option<i64> = folded(&Min, &[4, 2]);
    let greatest: Option<i64> = folded(&Max, &[4, 2]);
    sum == 6 && count == 2 && least == Some(2) && greatest == Some(4)
}

#[test]
fn four_aggregates_of_two_numbers(rt: HostRuntime) {
    assert!(&rt; are_four_aggregates());
}
