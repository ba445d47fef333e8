use crate::result_stream::ResultPass;
use crate::worker::Worked;
use plinq_partition::Chunked;
use plinq_source::Source;
use std::snapshot::Snapshot;
use std::thread::{Promise, PromisedHandle};

/// That a worker brings back a partition of the same source and a pass of the same stream, and has sent under its number what
/// that partition's records say.
#[derive(Drop)]
pub(crate) struct WorkerPromise<S: Source, M> {
    pub(crate) chunked: Snapshot<Chunked<S>>,
    pub(crate) given: Snapshot<ResultPass<M>>,
    pub(crate) number: u64,
}

impl<S: Source, M> Promise<Worked<S, M>> for WorkerPromise<S, M> {
    ghost use Rattle.plinq_crew.specs.Working.{IsBack};

    ghost kept_by = { λ p w. IsBack p.chunked.value p.given.value p.number w };
}

/// A worker that was started.
pub(crate) type WorkerHandle<S, M> = PromisedHandle<Worked<S, M>, WorkerPromise<S, M>>;
