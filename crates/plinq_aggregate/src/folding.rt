ghost use Rattle.std.specs.Prelude.{◌≡◌};
ghost use Rattle.plinq_aggregate.specs.Folding.{aggregate_value};

use crate::aggregator::Aggregator;

/// The aggregate of a list on one thread (.NET's `Enumerable.Aggregate` with a seed and a result selector).
///
/// ```text
/// fold_sequential(&Count, &[5, 5])    // 2
/// fold_sequential(&Min, &[])          // None
/// ```
pub fn fold_sequential<A: Aggregator>(aggregator: &A, items: &[A::Item]) -> A::Out
    ensures { result ≡ aggregate_value (A.folding aggregator.now) items.now }
{
    aggregator.result(aggregator.update_block(aggregator.seed(), items))
}
