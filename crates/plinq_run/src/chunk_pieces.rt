//! The pieces of a chunk whose results are folded one after another.
ghost use Rattle.std.specs.Prelude.{◌≡◌, ◌+◌, ◌<◌, ◌≤◌, ◌^◌, IfOk};
ghost use Rattle.plinq_run.specs.inner.Folds.{IsFoldOfChunk};

use plinq_keyed::Chunk;
use plinq_ops::{ChunkResult, FragEnd, Op};
use plinq_source::OutOfMemory;
use std::alloc::Global;

/// A piece is made longer while its result has fewer items than this.
const PIECE_ITEMS: usize = 8_192;

/// The most elements of a piece.
const PIECE_ELEMENTS: usize = 32;

/// The most items of a result, as many as a list may have.
const MOST_ITEMS: u64 = i64::MAX as u64;

/// Whether some operator makes more items of one.
pub(crate) fn expands<L>(ops: &[Op<L>]) -> bool {
    for op in ops {
        if let Op::SelectMany(_) = op {
            return true;
        }
    }
    false
}

/// How many elements the next piece has after one of so many whose result has so many items.
pub(crate) fn next_len(len: usize, items: usize) -> usize {
    if items < PIECE_ITEMS && len < PIECE_ELEMENTS {
        return len * 2;
    }
    len
}

/// How many of the items that are left the next piece has, one at least.
pub(crate) fn piece_len(len: usize, left: usize) -> usize
    requires { 0 < left }
    ensures some { 0 < result }
    ensures within { result ≤ left }
{
    len.clamp(1, left)
}

/// How many items there are with so many more, if a list may have as many.
pub(crate) fn counted(count: u64, more: usize) -> Result<u64, OutOfMemory>
    requires { count < 2 ^ 63 }
    ensures sum { IfOk result (λ both. both ≡ count + more) }
    ensures few { IfOk result (λ both. both < 2 ^ 63) }
{
    if more as u64 > MOST_ITEMS - count {
        return Err(OutOfMemory);
    }
    Ok(count + more as u64)
}

/// A piece of a chunk, as a chunk of its own.
pub(crate) fn piece_of<T: Copy>(
    alloc: Global,
    first: u64,
    block: &[T],
) -> Result<Chunk<T>, OutOfMemory>
    ensures first { IfOk result (λ piece. piece.first ≡ first) }
    ensures items { IfOk result (λ piece. piece.items.items ≡ block.now) }
{
    let mut items = Vec::with_capacity(alloc, block.len())?;
    items.extend_from_slice(block)?;
    Ok(Chunk {
        first,
        items,
        tail: None,
    })
}

/// The fold of a chunk's result that stopped so.
pub(crate) fn folded<T, C: Drop>(
    alloc: Global,
    chunk: &Chunk<T>,
    acc: C,
    ending: FragEnd,
    stop: Option<u64>,
) -> Result<ChunkResult<C>, OutOfMemory>
    ensures { IfOk result (IsFoldOfChunk chunk.now acc ending stop) }
{
    let mut items = Vec::with_capacity(alloc, 1)?;
    items.push_reserved(acc);
    Ok(ChunkResult {
        first: chunk.first,
        count: chunk.items.len() as u64,
        items,
        ending,
        stop,
        tail: chunk.tail,
    })
}
