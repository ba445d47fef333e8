//! The delivery of a query's answer by one thread.
ghost use Rattle.std.specs.Prelude.{◌≡◌, ◌<◌, Some, IfOk, OnOk, true};
ghost use Rattle.std.specs.List.{list_any};
ghost use Rattle.plinq_merge.specs.Expanding.{is_select_many};
ghost use Rattle.plinq_ops.specs.Batches.{batch_size, batches};
ghost use Rattle.plinq_ops.specs.Operator.{stages_of};
ghost use Rattle.plinq_ops.specs.Query.{merge_in_force};
ghost use Rattle.plinq_ops.specs.Sequential.{answer_of, IsDecidingInBlocks, IsLeastDeciding};
ghost use Rattle.plinq_merge.specs.Sending.{Delivers};
ghost use Rattle.plinq_merge.specs.inner.OneThread.{DeliversAnswer};

use crate::buffer::buffer_of;
use crate::delivery_fault::DeliveryFault;
use crate::in_blocks::deliver_blocks;
use crate::sink::Sink;
use plinq_lambda::Lambda;
use plinq_ops::{Op, Pipeline, Query};
use plinq_source::{Ending, Source};
use std::alloc::Global;

/// How many elements a source is asked for at once.
const BLOCK: u64 = 512;

/// Delivers a query's answer on one thread, and returns how it ends. A batch goes to the sink as soon as the item has come that
/// fills it, so that no more items are held than a batch has, or one element's expansion; of FullyBuffered all are.
///
/// The source must have given nothing. It is asked for no element after the one that decides the answer.
///
/// # Errors
///
/// [`DeliveryFault::Memory`] if there is no room for what is left of the operators or for items, [`DeliveryFault::Sink`] if
/// the sink refused a batch. What was delivered then are the first batches. The source may have given some of its elements.
///
/// ```text
/// let ending = deliver_sequentially(alloc, &query, &mut source, &mut sink)?;
/// ```
#[tactic(auto, using(crate::proofs::Delivered::deciding))]
pub fn deliver_sequentially<L, S, K>(
    alloc: Global,
    query: &Query<L>,
    source: &mut S,
    sink: &mut K,
) -> Result<Ending, DeliveryFault>
where
    L: Lambda,
    S: Source<Item = L::Item>,
    K: Sink<Item = L::Item>,
    requires { S.given source.old ≡ 0 }
    ensures same { S.whole source.new ≡ S.whole source.old }
    ensures ending { IfOk result (λ e. (answer_of L.meaning query.now.ops (S.whole source.old)).ending ≡ Some e) }
    ensures delivered { Delivers K.accepts K.refuses sink.old
        (batches (merge_in_force query.now.merge) (answer_of L.meaning query.now.ops (S.whole source.old))) result sink.new }
    ensures least { OnOk result (IsLeastDeciding
        (stages_of L.meaning query.now.ops) (S.whole source.old) (S.given source.new)) }
{
    deliver_answer(alloc, query, 1, source, sink)
}

/// Delivers the batches and answers the ending of [`deliver_sequentially`], and asks the source for 512 elements at once. This
/// is for a source and functions that keep nobody waiting: the source may be asked for 511 elements more than the answer wants,
/// each operator sees a block before the next one does, and a batch waits for all of its block. A query with a SelectMany gets
/// one element at a time, since expansions may be long.
///
/// The source must have given nothing.
///
/// # Errors
///
/// Those of [`deliver_sequentially`].
///
/// ```text
/// let ending = deliver_in_blocks(alloc, &query, &mut source, &mut sink)?;
/// ```
#[tactic(auto, using(crate::proofs::Delivered::deciding))]
pub fn deliver_in_blocks<L, S, K>(
    alloc: Global,
    query: &Query<L>,
    source: &mut S,
    sink: &mut K,
) -> Result<Ending, DeliveryFault>
where
    L: Lambda,
    S: Source<Item = L::Item>,
    K: Sink<Item = L::Item>,
    requires { S.given source.old ≡ 0 }
    ensures same { S.whole source.new ≡ S.whole source.old }
    ensures ending { IfOk result (λ e. (answer_of L.meaning query.now.ops (S.whole source.old)).ending ≡ Some e) }
    ensures delivered { Delivers K.accepts K.refuses sink.old
        (batches (merge_in_force query.now.merge) (answer_of L.meaning query.now.ops (S.whole source.old))) result sink.new }
    ensures blocks { OnOk result (IsDecidingInBlocks 512
        (stages_of L.meaning query.now.ops) (S.whole source.old) (S.given source.new)) }
    ensures singly { list_any is_select_many query.now.ops ≡ true → OnOk result (IsLeastDeciding
        (stages_of L.meaning query.now.ops) (S.whole source.old) (S.given source.new)) }
{
    if expands(query.ops()) {
        return deliver_answer(alloc, query, 1, source, sink);
    }
    deliver_answer(alloc, query, BLOCK, source, sink)
}

/// Whether an operator is a SelectMany.
fn is_select_many<L>(op: &Op<L>) -> bool
    ensures { result ≡ is_select_many op.now }
{
    matches!(op, Op::SelectMany(_))
}

/// Whether there is a SelectMany.
fn expands<L>(ops: &[Op<L>]) -> bool
    ensures { result ≡ list_any is_select_many ops.now }
{
    ops.iter().any(|op| is_select_many(op))
}

/// Delivers a query's answer, and asks the source for so many elements at once.
#[tactic(auto, using(crate::proofs::Delivered::stopping))]
fn deliver_answer<L, S, K>(
    alloc: Global,
    query: &Query<L>,
    most: u64,
    source: &mut S,
    sink: &mut K,
) -> Result<Ending, DeliveryFault>
where
    L: Lambda,
    S: Source<Item = L::Item>,
    K: Sink<Item = L::Item>,
    requires some { 0 < most }
    requires fresh { S.given source.old ≡ 0 }
    ensures same { S.whole source.new ≡ S.whole source.old }
    ensures delivers { DeliversAnswer K.accepts K.refuses (batch_size (merge_in_force query.now.merge)) most
        (stages_of L.meaning query.now.ops) (S.whole source.old) sink.old (S.given source.new) result sink.new }
{
    if query.split().decided {
        return Ok(Ending::End);
    }
    let mut pipeline = Pipeline::new(alloc, query.ops())?;
    let mut buffer = buffer_of(alloc, query.merge_option())?;
    deliver_blocks(alloc, most, &mut pipeline, &mut buffer, source, sink)
}
