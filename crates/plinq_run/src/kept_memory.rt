//! What the C library's allocator keeps of what it is given back.
use std::alloc::Global;

/// How many bytes the block has. The allocator then keeps twice as many.
const BLOCK: usize = 2_097_152;

/// Has the C library's allocator keep up to 4 MB at the end of each of its arenas, and not give it back to the system at once.
///
/// A worker's results are given back by the caller's thread, and the worker takes room for the next ones meanwhile. glibc learns
/// how much to keep from the largest block that was given back. So one is taken here, in which nothing is written, and given
/// back. If there is no room for it, or the allocator is another one, nothing changes.
pub(crate) fn keep_memory(alloc: Global) {
    let block: Result<Vec<u8>, _> = Vec::with_capacity(alloc, BLOCK);
    drop(block);
}
