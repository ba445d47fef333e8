use plinq_enumerator::Enumerator;
use plinq_source::Source;
use plinq_ticket::Pass;

/// A partition of a [`Chunked`](crate::Chunked) source: what one reader takes from it, chunk by chunk.
///
/// It remembers how many chunks it was given, which says how large the next one is, and which records of the
/// enumerator's history are its own. It is used with the `Chunked` that it came from.
#[derive(Drop)]
pub struct Partition<S: Source> {
    // It is away only while the partition is inside the lock.
    pub(crate) pass: Option<Pass<Enumerator<S>>>,
    pub(crate) requests: u64,
    // A list whose room the next chunk takes.
    pub(crate) spare: Option<Vec<S::Item>>,
}
