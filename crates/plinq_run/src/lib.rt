//! The run of a query: workers take chunks from one source and turn them into results, and the caller's thread merges
//! these.
//!
//! - [`run`] delivers exactly the batches of an answer that the query may have and reports its ending, or after a fault the
//!   first of these batches (`Reports`). That holds for every number of workers and every order in which results come.
//! - For a query with `as_ordered` that is the sequential answer ([`laws`]).
//! - [`run_with`] asks a token before each batch and at the end, and delivers the first batches if that stops it
//!   (`ReportsWith`).
//! - The records that it reports are a legal history of the source, which was closed unless the query is decided. What
//!   they hand out has the answer that was delivered (`handed_trace`).
//! - [`aggregate`] reports the value of such an answer's items, or how that answer ended otherwise (`AggregatesSome`).
//! - [`fold_into`] gives a taker the accumulators of the parts of such an answer as their turn comes (`GivesSome`).
//! - [`fold_sequentially`] folds the sequential answer as its items come, and keeps none (`HasFinished`).
//! - Workers send results of chunks of the source as they are, or for a fold with nothing after the merge the fold of each in
//!   its place (`IsPart` of `plinq_crew`).
//! - A [`Gate`] is what workers pass on their way.
#![tactic(auto)]

mod accepting;
mod aggregate_fault;
mod aggregating;
mod cancelling;
mod chunk_pieces;
mod combined;
mod combiner;
mod fold_blocks;
mod kept_memory;
pub mod laws;
mod parting;
mod planning;
mod report;
mod reporting;
mod run_ahead;
mod run_fault;
mod run_request;
mod run_types;
mod running;
mod sequential_fold;
mod tasks;
mod valuing;

pub use aggregate_fault::AggregateFault;
pub use aggregating::aggregate;
pub use cancelling::run_with;
pub use combined::Combined;
pub use parting::fold_into;
pub use plinq_crew::{Gate, OpenGate, TimedGate};
pub use report::Report;
pub use run_fault::RunFault;
pub use running::run;
pub use sequential_fold::fold_sequentially;
