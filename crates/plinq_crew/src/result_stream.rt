//! The stream that carries results from the workers to the caller's thread, and what a run picks for it and for its cut.
ghost use Rattle.std.specs.Prelude.{⊤, ℕ, Bool, false};
ghost use Rattle.plinq_ops.specs.declared.results.ChunkResult.{ChunkResult};

use plinq_cut::StopKeys;
use plinq_ops::ChunkResult;
use plinq_stream::{Stream, StreamPass};
use std::marker::{Brand, PhantomData};

/// Which results go through a run's stream, and which keys end the run. Each run picks it.
pub trait RunSpec<T> {
    ghost is_result: { ChunkResult T → Type 0 };

    ghost stops_at: { ℕ → Bool };
}

impl<T> RunSpec<T> for Brand {
    ghost is_result = { λ _. ⊤ };

    ghost stops_at = { λ _. false };
}

/// The keys that end a run, for its cut.
pub struct RunStopKeys<T, J> {
    of: PhantomData<(T, J)>,
}

impl<T, J: RunSpec<T>> StopKeys for RunStopKeys<T, J> {
    ghost stops_at = { J.stops_at };
}

/// The results of a run, for its stream.
pub struct RunResults<T, J> {
    of: PhantomData<(T, J)>,
}

impl<T, J: RunSpec<T>> plinq_stream::Admits<ChunkResult<T>> for RunResults<T, J> {
    ghost admits = { J.is_result };
}

/// What a worker sends to the caller's thread goes through such a stream, under the worker's number.
pub type ResultStream<T, J> = Stream<ChunkResult<T>, RunResults<T, J>>;

/// What a thread of a run has of its stream.
pub type ResultPass<T> = StreamPass<ChunkResult<T>>;
