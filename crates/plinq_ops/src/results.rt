use crate::frag_end::FragEnd;
use plinq_keyed::Tail;

/// What the worker part of a plan gives for a chunk: its fragments joined by key, up to and with the first that ends
/// the run.
#[derive(Debug, Drop, PartialEq, Eq)]
pub struct ChunkResult<T> {
    /// The key of the chunk's first item.
    pub first: u64,
    /// How many items the chunk had, also if some were dropped.
    pub count: u64,
    /// What the fragments gave, in order.
    pub items: Vec<T>,
    /// How the run goes on.
    pub ending: FragEnd,
    /// The key at which it stopped, if it did.
    pub stop: Option<u64>,
    /// The chunk's tail.
    pub tail: Option<Tail>,
}
