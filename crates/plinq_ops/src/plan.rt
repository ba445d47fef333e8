use crate::op::Op;
use crate::order::Order;

/// How a query is shared among workers: each applies the `worker` part to its own elements, and the `after` part is
/// applied to what they give, once it is merged.
#[derive(Drop)]
pub struct Plan<'a, L> {
    /// The operators that a worker applies.
    pub worker: &'a [Op<L>],
    /// The operators after them.
    pub after: &'a [Op<L>],
    /// In which order the workers' results are merged.
    pub order: Order,
    /// Whether some operator is a Take of at most 0, so that the answer is nothing and the end.
    pub decided: bool,
}
