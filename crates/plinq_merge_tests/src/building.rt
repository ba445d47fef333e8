use plinq_ops::{Built, Op, Query};
use std::alloc::Global;

/// The query with the builder call of this operator.
pub(crate) fn with<L: Drop>(query: Query<L>, op: Op<L>) -> Built<L> {
    match op {
        Op::Select(f) => query.select(f),
        Op::Filter(f) => query.filter(f),
        Op::SelectMany(f) => query.select_many(f),
        Op::Take(n) => query.take(n),
        Op::Skip(n) => query.skip(n),
        Op::TakeWhile(f) => query.take_while(f),
        Op::SkipWhile(f) => query.skip_while(f),
        Op::AsUnordered => query.as_unordered(),
    }
}

/// An ordered query of these operators, if there is room for it.
pub(crate) fn ordered<L: Copy + Drop>(alloc: Global, ops: &[Op<L>]) -> Option<Query<L>> {
    let Ok(mut query) = Query::new(alloc).as_ordered() else {
        return None;
    };
    for op in ops {
        match with(query, *op) {
            Ok(longer) => query = longer,
            Err(_) => return None,
        }
    }
    Some(query)
}
