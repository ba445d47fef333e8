//! The workers of a run and the thread that starts them: workers take chunks of one source and send what is made of the
//! chunks' results to that thread, which passes it to a consumer.
//!
//! - [`conduct`] starts the workers of a [`Crew`], has what they send accepted by a [`Consumer`], and joins them (`Conducts`).
//!   All that they were to send was received: the parts of each worker's records, in their order (`HasReturned`).
//! - Each part is made of the result of a chunk of the source, under a cut of its own (`IsPart`). A [`Task`] says what a worker
//!   makes of a result before it sends it, and which gates it passes.
//! - The source is closed once the consumer wants nothing more, or after a fault (`ClosesInTime`,
//!   and after the last poll `ClosesAtLast`).
//! - [`Progress`] tells the threads of a run when to wait and when to go on; no answer rests on it.
#![tactic(auto)]

mod ahead;
mod closing;
mod conducting;
mod consumer;
mod coordinator;
mod gate;
mod handle;
mod pace;
mod poll;
mod progress;
mod ramp_up;
mod result_stream;
mod starting;
mod task;
mod timed_gate;
mod window;
mod worker;
mod worker_count;

pub use conducting::{Returned, conduct};
pub use consumer::Consumer;
pub use gate::{Gate, OpenGate};
pub use progress::Progress;
pub use result_stream::{ResultPass, ResultStream, RunSpec, RunStopKeys};
pub use starting::WorkerFaults;
pub use task::Task;
pub use timed_gate::TimedGate;
pub use worker::{Crew, WorkerContext};
pub use worker_count::WorkerCount;
