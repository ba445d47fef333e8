ghost use Rattle.std.proofs.Props.{props};
ghost use Rattle.plinq_merge.specs.Delivering.{can_deliver};
ghost use Rattle.plinq_merge.specs.Joining.{IsReady};

use crate::deliver::Deliver;
use crate::joiner::Joiner;
use plinq_lambda::Lambda;

/// Merges the results of a plan's workers, in whatever order they come, and delivers the batches of the answer.
///
/// By key the batches are those of the sequential answer; by arrival each result is merged as it comes. What waits for
/// earlier keys is held in memory.
///
/// ```text
/// let mut merger = Merger::new(alloc, &query.split(), query.merge_option())?;
/// while let More::Yes = merger.offer(results.next(), &mut sink)? {}
/// let ending = merger.finish()?;
/// ```
#[derive(Drop)]
pub struct Merger<'a, L: Lambda> {
    pub(crate) joiner: Joiner<Deliver<'a, L, L::Item>, L::Item>,
    /// Whether the plan was decided from the start.
    pub(crate) decided: bool,
    /// How many batches were delivered, or the greatest number if there were more.
    pub(crate) delivered: u64,
    ghost ready: { IsReady (can_deliver L.meaning) joiner } by { Prim.hlevel props },
}
