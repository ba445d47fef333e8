use plinq_enumerator::{Enumerator, Growth};
use plinq_source::Source;
use plinq_ticket::TicketLock;
use std::alloc::Global;

/// A source that is handed out in chunks to partitions that are made on demand, after .NET's `Partitioner.Create` over
/// an `IEnumerable`.
///
/// Partitions may take from several threads: a lock lets them in one after another. Their chunks grow as the [`Growth`]
/// says, and each element has its place in the source as key.
///
/// ```text
/// let (chunked, mut partition) = Chunked::new(alloc, source, Growth::DEFAULT)?;
/// let chunk = partition.take(&rt, &chunked)?;
/// let enumerator = chunked.give_back(partitions)?;    // with the history of all that was taken
/// ```
#[derive(Drop)]
pub struct Chunked<S: Source> {
    pub(crate) alloc: Global,
    pub(crate) lock: TicketLock<Enumerator<S>>,
    pub(crate) growth: Growth,
}
