ghost use Rattle.std.specs.Prelude.{◌≡◌, ℕ, [], true, Some, IfOk, OnOk};
ghost use Rattle.plinq_ops.specs.Batches.{batch_size};
ghost use Rattle.plinq_merge.specs.Buffer.{held_of, size_of, HasRoom};

use circular_buffer::HeapCircularBuffer;
use plinq_ops::MergeOption;
use plinq_source::OutOfMemory;
use std::alloc::Global;

/// Items that are held back until a batch of them is full.
#[derive(Drop)]
pub(crate) enum Buffer<T> {
    /// Batches of a fixed number of items.
    Ring(HeapCircularBuffer<T>),
    /// One batch of all items.
    All(Vec<T>),
}

/// How many items are given at once to a batch of all.
const PIECE_ITEMS: usize = 512;

impl<T> Buffer<T> {
    /// How many items more fill a batch. Of a batch of all it is how many are worth a call.
    pub(crate) fn missing(&self) -> usize {
        match self {
            Buffer::Ring(ring) => ring.capacity().saturating_sub(ring.len()),
            Buffer::All(_) => PIECE_ITEMS,
        }
    }

    /// Whether nothing is held back, and so many items are a batch.
    #[inline(always)]
    pub(crate) fn is_filled_by(&self, count: usize) -> bool
        ensures empty { result ≡ true → held_of self.now ≡ [] }
        ensures size { result ≡ true → size_of self.now ≡ Some count }
    {
        match self {
            Buffer::Ring(ring) => ring.is_empty() && ring.capacity() == count,
            Buffer::All(_) => false,
        }
    }
}

/// The buffer of a merge option, with nothing in it.
pub(crate) fn buffer_of<T>(alloc: Global, option: MergeOption) -> Result<Buffer<T>, OutOfMemory>
    ensures empty { IfOk result (λ buffer. held_of buffer ≡ []) }
    ensures size { IfOk result (λ buffer. size_of buffer ≡ batch_size option) }
    ensures room { IfOk result (λ buffer. HasRoom buffer) }
{
    let Some(size) = option.batch_size() else {
        return Ok(Buffer::All(Vec::new(alloc)));
    };
    Ok(Buffer::Ring(HeapCircularBuffer::with_capacity(alloc, size)?))
}
