ghost use Rattle.std.specs.Prelude.{◌≡◌, ◌+◌, ◌<◌, ◌≤◌, [], pos, true, false, length, IfOk};
ghost use Rattle.std.specs.List.{list_any};
ghost use Rattle.plinq_ops.specs.Stage.{some_takes_none};
ghost use Rattle.plinq_ops.specs.Feeding.{is_empty_take};
ghost use Rattle.plinq_ops.specs.ByKey.{is_by_key, left_at};
ghost use Rattle.plinq_ops.specs.Cut.{most_items};
ghost use Rattle.plinq_ops.specs.Chunk.{IsChunkResult, chunk_answer, stop_over};
ghost use Rattle.plinq_ops.specs.inner.Chunking.{Gives};

use crate::frag_end::FragEnd;
use crate::fragmenting::frag_end;
use crate::op::Op;
use crate::pipeline::Pipeline;
use crate::plan::Plan;
use crate::results::ChunkResult;
use plinq_keyed::Chunk;
use plinq_lambda::Lambda;
use plinq_source::OutOfMemory;
use std::alloc::Global;

/// Where a chunk's fragments stopped, and how the run goes on.
#[derive(Clone, Copy)]
struct Stop {
    key: u64,
    ending: FragEnd,
}

/// What the worker part of a plan gives for a chunk, up to the first key above `cut`.
///
/// Memory is taken for what is left of the operators and for as many items as the chunk has. A SelectMany can need more,
/// and so does a run that ends in the chunk.
///
/// # Errors
///
/// [`OutOfMemory`] if there is no room for these.
///
/// ```text
/// // as_ordered, select 10 / x: the chunk from key 7 on with the elements 5, 0 and 2
/// let result = chunk_result(alloc, &query.split(), &chunk, u64::MAX)?;
/// result.items     // 2
/// result.ending    // FragEnd::Fault(2), a division by 0
/// result.stop      // Some(8)
/// ```
pub fn chunk_result<L: Lambda>(
    alloc: Global,
    plan: &Plan<'_, L>,
    chunk: &Chunk<L::Item>,
    cut: u64,
) -> Result<ChunkResult<L::Item>, OutOfMemory>
    requires keyed { is_by_key plan.now.worker.now ≡ true }
    requires some { list_any is_empty_take plan.now.worker.now ≡ false }
    requires within { chunk.now.first + length chunk.now.items.items ≤ most_items }
    ensures { IfOk result (IsChunkResult L.meaning plan.now.worker.now cut chunk.now) }
{
    let mut items = Vec::with_capacity(alloc, chunk.items.len())?;
    let given = chunk.items.as_slice();
    let stop = work(alloc, plan.worker, chunk.first, given, cut, &mut items)?;
    Ok(ChunkResult {
        first: chunk.first,
        count: chunk.items.len() as u64,
        items,
        ending: stop.map_or(FragEnd::More, |stop| stop.ending),
        stop: stop.map(|stop| stop.key),
        tail: chunk.tail,
    })
}

/// Sends the items of a chunk that the cut reaches through the worker part: as one block, and if the run ends in it
/// once more, item by item, to find the key.
fn work<L: Lambda>(
    alloc: Global,
    worker: &[Op<L>],
    first: u64,
    items: &[L::Item],
    cut: u64,
    out: &mut Vec<L::Item>,
) -> Result<Option<Stop>, OutOfMemory>
    requires keyed { is_by_key worker.now ≡ true }
    requires some { list_any is_empty_take worker.now ≡ false }
    requires within { first + length items.now ≤ most_items }
    requires empty { out.old.items ≡ [] }

    ensures { IfOk result (Gives (chunk_answer L.meaning worker.now cut first items.now) out.new.items) }
{
    let mut pipeline = Pipeline::at_key(alloc, worker, first)?;
    if pipeline.is_over() {
        return Ok(stop_over(cut, first, items.len()));
    }
    let reached = count_within(first, items.len(), cut);
    let (block, rest) = items.split_at(reached);
    out.extend_from_slice(block)?;
    if pipeline.feed_block(alloc, out, None)?.is_some() {
        out.clear();
        return work_each(alloc, worker, first, items, cut, out);
    }
    if rest.is_empty() {
        return Ok(None);
    }
    Ok(Some(Stop {
        key: first + reached as u64,
        ending: FragEnd::Dropped,
    }))
}

/// Where a chunk stops whose first key stands after the last item of a Take.
fn stop_over(cut: u64, first: u64, len: usize) -> Option<Stop>
    ensures { result ≡ stop_over cut first len }
{
    if len == 0 {
        return None;
    }
    let ending = if first > cut {
        FragEnd::Dropped
    } else {
        FragEnd::End
    };
    Some(Stop { key: first, ending })
}

/// How many of the keys from `first` on the cut reaches.
fn count_within(first: u64, len: usize, cut: u64) -> usize
    ensures most { result ≤ len }
    ensures below { 0 < result → first + result ≤ cut + 1 }
    ensures above { result < len → cut < first + result }
{
    if first > cut {
        return 0;
    }
    let others = cut - first;
    if others >= len as u64 {
        return len;
    }
    others as usize + 1
}

/// Sends the items of a chunk through the worker part, up to the first that ends the run or whose key is above `cut`.
fn work_each<L: Lambda>(
    alloc: Global,
    worker: &[Op<L>],
    first: u64,
    items: &[L::Item],
    cut: u64,
    out: &mut Vec<L::Item>,
) -> Result<Option<Stop>, OutOfMemory>
    requires keyed { is_by_key worker.now ≡ true }
    requires some { list_any is_empty_take worker.now ≡ false }
    requires undecided { some_takes_none (left_at L.meaning worker.now (pos first)) ≡ false }
    requires within { first + length items.now ≤ most_items }
    requires empty { out.old.items ≡ [] }

    ensures { IfOk result (Gives (chunk_answer L.meaning worker.now cut first items.now) out.new.items) }
{
    let mut pipeline = Pipeline::at_key(alloc, worker, first)?;
    for (at, item) in items.iter().enumerate() {
        let key = first + at as u64;
        if key > cut {
            let ending = FragEnd::Dropped;
            return Ok(Some(Stop { key, ending }));
        }
        let ending = pipeline.feed(alloc, *item, out)?;
        if ending.is_some() {
            let ending = frag_end(ending);
            return Ok(Some(Stop { key, ending }));
        }
    }
    Ok(None)
}
