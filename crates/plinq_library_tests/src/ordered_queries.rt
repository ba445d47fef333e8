use plinq_lambda::Formula;
use plinq_ops::{Built, Query};
use std::alloc::Global;

/// The numbers as they are and in their order, in batches of 16.
pub(crate) fn ordered(alloc: Global, workers: u64) -> Built<Formula> {
    Query::new(alloc).as_ordered()?.with_degree(workers)
}
