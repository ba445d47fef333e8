//! What the workers of a run send.
ghost use Rattle.std.specs.Prelude.{◌≡◌, IfOk};
ghost use Rattle.plinq_run.specs.inner.Folds.{IsFoldOf};
ghost use Rattle.plinq_crew.specs.Results.{IsOfSameChunk};

use crate::chunk_pieces::{counted, expands, folded, next_len, piece_len, piece_of};
use plinq_aggregate::GrowingAggregator;
use plinq_crew::{Gate, Task};
use plinq_keyed::Chunk;
use plinq_lambda::Lambda;
use plinq_ops::{ChunkResult, FragEnd, Plan, chunk_result};
use plinq_source::OutOfMemory;
use std::alloc::Global;

/// The task of a worker that sends each result as it is.
#[derive(Drop)]
pub(crate) struct Unchanged<'a, G> {
    pub(crate) gate: &'a G,
}

impl<'a, T: Copy + Send, G: Gate> Task<T> for Unchanged<'a, G> {
    type Part = T;

    ghost makes = { λ s r c. c ≡ r };

    fn before_take(&self, worker: u64) {
        self.gate.before_take(worker);
    }

    fn after_chunk(&self, worker: u64, first: u64) {
        self.gate.after_chunk(worker, first);
    }

    fn nanoseconds(&self) -> Option<u64> {
        self.gate.nanoseconds()
    }

    fn make(&self, _alloc: Global, made: ChunkResult<T>) -> Result<ChunkResult<T>, OutOfMemory>
        ensures makes { IfOk result (λ c. c ≡ made) }
        ensures same { IfOk result (IsOfSameChunk made) }
    {
        Ok(made)
    }
}

/// The task of a worker that sends the fold of each result's items in their place.
///
/// Of a chunk whose elements expand it folds the results of its pieces, so that no more than one of these is held: at first of
/// one element, and of twice as many, up to 32, while their results are short.
#[derive(Drop)]
pub(crate) struct FoldChunks<'a, A, G> {
    pub(crate) aggregator: &'a A,
    pub(crate) gate: &'a G,
}

impl<'a, T: Copy, A: GrowingAggregator<Item = T>, G: Gate> Task<T> for FoldChunks<'a, A, G> {
    type Part = A::Acc;

    ghost makes = { λ s r c. IsFoldOf (A.folding s.aggregator.now) r c };

    fn before_take(&self, worker: u64) {
        self.gate.before_take(worker);
    }

    fn after_chunk(&self, worker: u64, first: u64) {
        self.gate.after_chunk(worker, first);
    }

    fn nanoseconds(&self) -> Option<u64> {
        self.gate.nanoseconds()
    }

    fn make(&self, alloc: Global, made: ChunkResult<T>) -> Result<ChunkResult<A::Acc>, OutOfMemory>
        ensures makes { IfOk result (IsFoldOf (A.folding self.now.aggregator.now) made) }
        ensures same { IfOk result (IsOfSameChunk made) }
    {
        let aggregator = self.aggregator;
        let mut items = Vec::with_capacity(alloc, 1)?;
        let seed = aggregator.seed(alloc);
        items.push_reserved(aggregator.update_block(alloc, seed, made.items.as_slice())?);
        Ok(ChunkResult {
            first: made.first,
            count: made.count,
            items,
            ending: made.ending,
            stop: made.stop,
            tail: made.tail,
        })
    }

    fn work<L: Lambda<Item = T>>(
        &self,
        alloc: Global,
        plan: &Plan<'_, L>,
        chunk: &Chunk<T>,
        cut: u64,
    ) -> Result<ChunkResult<A::Acc>, OutOfMemory> {
        if !expands(plan.worker) {
            let made = chunk_result(alloc, plan, chunk, cut)?;
            let part = self.make(alloc, made)?;
            return Ok(part);
        }
        let mut len = 1;
        let mut acc = self.aggregator.seed(alloc);
        let mut count = 0;
        let mut first = chunk.first;
        let mut rest = chunk.items.as_slice();
        while !rest.is_empty() {
            let (block, others) = rest.split_at(piece_len(len, rest.len()));
            let made = chunk_result(alloc, plan, &piece_of(alloc, first, block)?, cut)?;
            count = counted(count, made.items.len())?;
            acc = self
                .aggregator
                .update_block(alloc, acc, made.items.as_slice())?;
            if made.stop.is_some() {
                let stopped = folded(alloc, chunk, acc, made.ending, made.stop)?;
                return Ok(stopped);
            }
            len = next_len(len, made.items.len());
            first += block.len() as u64;
            rest = others;
        }
        let all = folded(alloc, chunk, acc, FragEnd::More, None)?;
        Ok(all)
    }
}
