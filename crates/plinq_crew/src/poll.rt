use crossbeam_utils::sync::Key;
use plinq_ops::ChunkResult;

/// What the caller's thread finds at a poll.
#[derive(Drop)]
pub(crate) enum Poll<'a, M> {
    /// A worker has sent this.
    Came(ChunkResult<M>),
    /// Nothing is there; if that has been so for a while, the thread is to sleep.
    Nothing(Option<Key<'a>>),
    /// All workers have ended, and nothing seems to be left.
    Over,
}
