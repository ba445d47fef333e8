ghost use Rattle.std.specs.Prelude.{◌≡◌, ◌+◌, ◌≤◌, length, true, false, IfOk};
ghost use Rattle.std.specs.List.{list_any};
ghost use Rattle.plinq_ops.specs.ByKey.{is_by_key};
ghost use Rattle.plinq_ops.specs.Cut.{most_items};
ghost use Rattle.plinq_ops.specs.Feeding.{is_empty_take};
ghost use Rattle.plinq_ops.specs.declared.results.ChunkResult.{ChunkResult};
ghost use Rattle.plinq_crew.specs.Results.{IsMadeOf, IsOfSameChunk};

use plinq_keyed::Chunk;
use plinq_lambda::Lambda;
use plinq_ops::{ChunkResult, Plan, chunk_result};
use plinq_source::OutOfMemory;
use std::alloc::Global;

/// What a worker does besides taking chunks: the gates that it passes, with its number, and what it makes of a chunk's result
/// before it sends it.
pub trait Task<T: Copy>: Sync {
    /// What is sent in the place of a result's items.
    type Part: Send + Drop;

    // What is made of a result.
    ghost makes: { Self → ChunkResult T → ChunkResult Self.Part → Type 0 };

    /// A worker is about to take its next chunk.
    fn before_take(&self, worker: u64);

    /// A worker has taken the chunk whose first key is `first`, and computes its result next.
    fn after_chunk(&self, worker: u64, first: u64);

    /// A clock's time in nanoseconds, by which workers choose how large their chunks are; none if the growth says that.
    fn nanoseconds(&self) -> Option<u64> {
        None
    }

    /// What a worker sends of a result: of the same chunk, with the same ending.
    ///
    /// # Errors
    ///
    /// [`OutOfMemory`] if there is no room for it.
    fn make(
        &self,
        alloc: Global,
        made: ChunkResult<T>,
    ) -> Result<ChunkResult<Self::Part>, OutOfMemory>
        ensures makes { IfOk result (makes self.now made) }
        ensures same { IfOk result (IsOfSameChunk made) };

    /// What a worker sends of a chunk that it looks at under this cut.
    ///
    /// It is [`Task::make`] of the chunk's result; a task that does without the whole result has its own.
    ///
    /// # Errors
    ///
    /// [`OutOfMemory`] if there is no room for it.
    fn work<L: Lambda<Item = T>>(
        &self,
        alloc: Global,
        plan: &Plan<'_, L>,
        chunk: &Chunk<T>,
        cut: u64,
    ) -> Result<ChunkResult<Self::Part>, OutOfMemory>
        requires keyed { is_by_key plan.now.worker.now ≡ true }
        requires some { list_any is_empty_take plan.now.worker.now ≡ false }
        requires within { chunk.now.first + length chunk.now.items.items ≤ most_items }
        ensures { IfOk result (IsMadeOf L.meaning (makes self.now) plan.now.worker.now cut chunk.now) }
    {
        let made = chunk_result(alloc, plan, chunk, cut)?;
        let part = self.make(alloc, made)?;
        Ok(part)
    }
}
