//! Aggregation in parallel: folds of parts that combine to the fold of the whole.
//!
//! An [`Aggregator`] takes an accumulator from a seed through items, puts two accumulators together, and tells a
//! value of one; its meaning is a `Folding`, four pure functions, and two laws tie them (`Aggregator::lawful`): the
//! accumulators of two parts combine to that of the whole, and the seed adds nothing. So parts may be folded apart
//! and combined in order. [`fold_sequential`] is the aggregate of a list on one thread. [`Sum`], [`Count`], [`Min`] and
//! [`Max`] are the aggregators over `i64`; what they come to is said by the laws `sum_is_the_whole_sum`,
//! `count_is_the_length`, `min_is_the_least` and `max_is_the_greatest`. These take no memory; a [`GrowingAggregator`] may.
#![tactic(auto)]

mod aggregator;
mod count;
mod folding;
mod growing_aggregator;
mod laws;
mod max;
mod min;
mod sum;

pub use aggregator::Aggregator;
pub use count::Count;
pub use folding::fold_sequential;
pub use growing_aggregator::GrowingAggregator;
pub use laws::{count_is_the_length, max_is_the_greatest, min_is_the_least, sum_is_the_whole_sum};
pub use max::Max;
pub use min::Min;
pub use sum::Sum;
