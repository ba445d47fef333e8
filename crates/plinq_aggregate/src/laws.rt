//! What the aggregators over `i64` come to, each law the contract of a function with nothing to do.
ghost use Rattle.std.specs.Prelude.{◌≡◌, ◌%◌, ◌^◌, ◌≤ℤ◌, ℤ, List, length};
ghost use Rattle.plinq_aggregate.specs.declared.count.Count.{Count as CountView};
ghost use Rattle.plinq_aggregate.specs.declared.max.Max.{Max as MaxView};
ghost use Rattle.plinq_aggregate.specs.declared.min.Min.{Min as MinView};
ghost use Rattle.plinq_aggregate.specs.declared.sum.Sum.{Sum as SumView};
ghost use Rattle.plinq_aggregate.specs.Folding.{aggregate_value};
ghost use Rattle.plinq_aggregate.specs.Numbers.{wrapped_number, whole_sum, IsBest};

use crate::aggregator::Aggregator;
use crate::count::Count;
use crate::max::Max;
use crate::min::Min;
use crate::sum::Sum;

/// The sum is the whole sum, modulo 2^128.
pub fn sum_is_the_whole_sum()
    ensures { (sum : SumView) (xs : List ℤ) → aggregate_value (⟦<Sum as Aggregator>⟧.folding sum) xs ≡ wrapped_number (whole_sum xs) }
{}

/// The count is the number of items, modulo 2^64.
pub fn count_is_the_length()
    ensures { (count : CountView) (xs : List ℤ) → aggregate_value (⟦<Count as Aggregator>⟧.folding count) xs ≡ length xs % 2 ^ 64 }
{}

/// The least number is one of the items, and no item is less; of none there is none.
pub fn min_is_the_least()
    ensures { (min : MinView) (xs : List ℤ) →
        IsBest (λ least x. least ≤ℤ x) xs (aggregate_value (⟦<Min as Aggregator>⟧.folding min) xs) }
{}

/// The greatest number is one of the items, and no item is greater; of none there is none.
pub fn max_is_the_greatest()
    ensures { (max : MaxView) (xs : List ℤ) →
        IsBest (λ greatest x. x ≤ℤ greatest) xs (aggregate_value (⟦<Max as Aggregator>⟧.folding max) xs) }
{}
