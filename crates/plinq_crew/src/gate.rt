/// What the workers of a run pass on their way, with their numbers from 0 on: a test holds them back there, or counts
/// them.
pub trait Gate: Sync {
    /// A worker is about to take its next chunk.
    fn before_take(&self, worker: u64);

    /// A worker has taken the chunk whose first key is `first`, and computes its result next.
    fn after_chunk(&self, worker: u64, first: u64);

    /// Whether it may hold a worker back until another one has passed. Then all workers are at work at once, also if they are
    /// many more than there are cores.
    fn may_block(&self) -> bool {
        true
    }

    /// A clock's time in nanoseconds. With one, workers choose how large their chunks are by how long they take; without one
    /// these are as large as the growth says.
    fn nanoseconds(&self) -> Option<u64> {
        None
    }
}

/// A gate that lets every worker pass.
#[derive(Clone, Copy, Debug)]
pub struct OpenGate;

impl Gate for OpenGate {
    fn before_take(&self, _worker: u64) {}

    fn after_chunk(&self, _worker: u64, _first: u64) {}

    fn may_block(&self) -> bool {
        false
    }
}
