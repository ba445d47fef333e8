use plinq_lambda::Lambda;
use plinq_ops::{BuildFault, Built, MergeOption, Op, Query};
use std::alloc::Global;

/// How many workers a test asks with: one, some, and the most that there can be.
pub const WORKERS: [u64; 3] = [1, 2, 64];

/// All merge options.
pub const OPTIONS: [MergeOption; 4] = [
    MergeOption::Default,
    MergeOption::NotBuffered,
    MergeOption::AutoBuffered,
    MergeOption::FullyBuffered,
];

/// What a builder call answered, without the query of one that failed.
pub fn built<L: Lambda>(answer: Built<L>) -> Result<Query<L>, BuildFault> {
    answer.map_err(|(_, fault)| fault)
}

/// A query without an operator, by key, which keeps the order, or by arrival.
pub fn unchanged<L: Lambda>(
    alloc: Global,
    is_by_key: bool,
    option: MergeOption,
    workers: u64,
) -> Result<Query<L>, BuildFault> {
    let query = Query::new(alloc);
    let query = if is_by_key {
        built(query.as_ordered())?
    } else {
        query
    };
    let query = built(query.with_merge(option))?;
    built(query.with_degree(workers))
}

/// A query without an operator that keeps the order.
pub fn ordered<L: Lambda>(
    alloc: Global,
    option: MergeOption,
    workers: u64,
) -> Result<Query<L>, BuildFault> {
    unchanged(alloc, true, option, workers)
}

fn with_all<L: Lambda + Copy>(query: Query<L>, ops: &[Op<L>]) -> Result<Query<L>, BuildFault> {
    let mut query = query;
    for op in ops {
        query = built(query.with_op(*op))?;
    }
    Ok(query)
}

/// A query that keeps the order, with these operators.
pub fn query_of<L: Lambda + Copy>(
    alloc: Global,
    ops: &[Op<L>],
    option: MergeOption,
    workers: u64,
) -> Result<Query<L>, BuildFault> {
    let query = ordered(alloc, option, workers)?;
    with_all(query, ops)
}
