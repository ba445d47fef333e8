ghost use Rattle.std.specs.Prelude.{◌≡◌, length, true, false};
ghost use Rattle.std.specs.List.{list_any};
ghost use Rattle.plinq_ops.specs.Feeding.{is_empty_take};
ghost use Rattle.plinq_ops.specs.ByKey.{is_by_key};
ghost use Rattle.plinq_ops.specs.Plan.{order_of, worker_part, IsPlanOf};

use crate::decided::is_decided;
use crate::known::Known;
use crate::op::Op;
use crate::order::Order;
use crate::plan::Plan;
use crate::query::Query;

impl<L> Query<L> {
    /// How the query is shared among workers, who get the longest prefix of operators that they can apply to
    /// elements of their own.
    ///
    /// These are Select, Where and SelectMany, which look at each element alone. Of a query with `as_ordered` they are also
    /// TakeWhile, since a worker knows the order of its elements, and Take and Skip while no Where or SelectMany
    /// stands before them. Until then an element's key says how many stand before it. SkipWhile comes after the
    /// merge in any query: the first that fails may be another worker's. Takes no memory.
    ///
    /// ```text
    /// // as_ordered, select, take 5, filter, take 2
    /// let plan = query.split();
    /// // worker: select, take 5, filter; after: take 2
    /// ```
    pub fn split(&self) -> Plan<'_, L>
        ensures plan { IsPlanOf self.now result }
        ensures by_key { is_by_key result.worker.now ≡ true }
        ensures undecided { result.decided ≡ false →
            (list_any is_empty_take result.worker.now ≡ false) × (list_any is_empty_take result.after.now ≡ false) }
    {
        let ops = self.ops();
        let order = self.order();
        let (worker, after) = ops.split_at(worker_len(ops, order));
        Plan {
            worker,
            after,
            order,
            decided: is_decided(ops),
        }
    }

    fn order(&self) -> Order
        ensures { result ≡ order_of self.now.ordered }
    {
        if self.is_ordered() {
            Order::ByKey
        } else {
            Order::ByArrival
        }
    }
}

/// How many operators the worker part has.
fn worker_len<L>(ops: &[Op<L>], order: Order) -> usize
    ensures { result ≡ length (worker_part order ops.now) }
{
    let mut known = Known::at_source(order);
    for (at, op) in ops.iter().enumerate() {
        if !known.can_apply(op) {
            return at;
        }
        known = known.past(op);
    }
    ops.len()
}
