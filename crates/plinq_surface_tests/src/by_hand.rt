//! The calls that make a query's answer by hand: of an element, of a chunk, of the whole source, and of chunks as they come.
ghost use Rattle.std.specs.Prelude.{◌≡◌, ◌≤◌, ◌+◌, ◌^◌, true, false, length};
ghost use Rattle.std.specs.List.{list_any};
ghost use Rattle.plinq_ops.specs.ByKey.{is_by_key};
ghost use Rattle.plinq_ops.specs.Cut.{most_items};
ghost use Rattle.plinq_ops.specs.Feeding.{is_empty_take};
ghost use Rattle.plinq_ops.specs.Tails.{end_of_result};

use plinq_keyed::Chunk;
use plinq_lambda::Lambda;
use plinq_merge::{
    Cancel, DeliveryFault, MergeFault, Merger, More, Sink, deliver_in_blocks, deliver_sequentially,
};
use plinq_ops::{
    ChunkResult, Fragment, MergeOption, Op, Plan, Query, chunk_result, fragment, sequential,
};
use plinq_source::{Ending, OutOfMemory, Source};
use std::alloc::Global;

fn of_an_item<L: Lambda>(
    alloc: Global,
    worker: &[Op<L>],
    key: u64,
    x: L::Item,
) -> Result<Fragment<L::Item>, OutOfMemory>
    requires keyed { is_by_key worker.now ≡ true }
    requires some { list_any is_empty_take worker.now ≡ false }
{
    fragment(alloc, worker, key, x)
}

fn of_a_chunk<L: Lambda>(
    alloc: Global,
    plan: &Plan<'_, L>,
    chunk: &Chunk<L::Item>,
    cut: u64,
) -> Result<ChunkResult<L::Item>, OutOfMemory>
    requires keyed { is_by_key plan.now.worker.now ≡ true }
    requires some { list_any is_empty_take plan.now.worker.now ≡ false }
    requires within { chunk.now.first + length chunk.now.items.items ≤ most_items }
{
    chunk_result(alloc, plan, chunk, cut)
}

fn of_a_source<L: Lambda, S: Source<Item = L::Item>>(
    alloc: Global,
    query: &Query<L>,
    source: &mut S,
) -> Result<(Vec<L::Item>, Ending), OutOfMemory>
    requires { S.given source.old ≡ 0 }
{
    sequential(alloc, query, source)
}

fn delivered<L: Lambda, S: Source<Item = L::Item>, K: Sink<Item = L::Item>>(
    alloc: Global,
    query: &Query<L>,
    source: &mut S,
    sink: &mut K,
) -> Result<Ending, DeliveryFault>
    requires { S.given source.old ≡ 0 }
{
    deliver_sequentially(alloc, query, source, sink)
}

fn delivered_in_blocks<L: Lambda, S: Source<Item = L::Item>, K: Sink<Item = L::Item>>(
    alloc: Global,
    query: &Query<L>,
    source: &mut S,
    sink: &mut K,
) -> Result<Ending, DeliveryFault>
    requires { S.given source.old ≡ 0 }
{
    deliver_in_blocks(alloc, query, source, sink)
}

fn made<'a, L: Lambda>(
    alloc: Global,
    plan: &Plan<'a, L>,
    option: MergeOption,
) -> Result<Merger<'a, L>, MergeFault>
    requires { plan.now.decided ≡ false → list_any is_empty_take plan.now.after.now ≡ false }
{
    Merger::new(alloc, plan, option)
}

fn offered<'a, L: Lambda, K: Sink<Item = L::Item>>(
    merger: &mut Merger<'a, L>,
    offer: ChunkResult<L::Item>,
    sink: &mut K,
) -> Result<More, MergeFault>
    requires { end_of_result offer ≤ 2 ^ 40 }
{
    merger.offer(offer, sink)
}

fn offered_with<'a, L: Lambda, C: Cancel, K: Sink<Item = L::Item>>(
    merger: &mut Merger<'a, L>,
    offer: ChunkResult<L::Item>,
    token: &mut C,
    sink: &mut K,
) -> Result<More, MergeFault>
    requires { end_of_result offer ≤ 2 ^ 40 }
{
    merger.offer_with(offer, token, sink)
}

fn told<'a, L: Lambda>(merger: &Merger<'a, L>) -> (bool, u64, u64) {
    (merger.decided(), merger.delivered(), merger.next_key())
}

fn finished<'a, L: Lambda>(merger: Merger<'a, L>) -> Result<Ending, MergeFault> {
    merger.finish()
}
