//! Queries whose items change their types from step to step.
//!
//! - [`from`] begins a query, [`Query::select`] and [`Query::filter`] put steps on it, and [`Query::as_parallel`] has it run by
//!   threads.
//! - [`Query::to_vec`], [`Query::count`], [`Query::aggregate`], [`Query::group_by`] and [`Query::top`] run it. The workers apply the
//!   steps and fold what is made, in the order of the source.
//! - [`Query::to_vec_and_ending`] has what came before a refusal as well.
//! - [`Query::first`], [`Query::element_at`], [`Query::any`], [`Query::all`] and [`Query::contains`] leave the source once their
//!   answer is known.
//! - [`Query::take`], [`Query::skip`], [`Query::take_while`], [`Query::skip_while`], [`Query::index`] and [`Query::zip`] go by an
//!   item's position, on the thread that asks ([`Merged`]).
//! - [`Query::for_each`], [`Query::try_for_each`] and [`Query::run_into`] pass on what is made as it comes, in the order of the
//!   source.
//! - A closure serves if its contract says that it may always be called, in one way, and that it has one answer to each item.
//!   A clause `ensures { result ≡ .. }` says all of it.
//! - [`Steps`] is what a query's steps have in common; no query of a user's own needs it.
#![tactic(auto)]

mod by_threads_calls;
mod by_threads_runs;
mod calling;
mod count_of;
mod ended_lists;
mod merged;
mod merged_alone;
mod merged_by_threads;
mod merged_calling;
mod merged_searches;
mod merged_searches_alone;
mod on_one_thread;
mod on_one_thread_runs;
mod pairs;
mod query;
mod tops;

pub use merged::Merged;
pub use plinq_passing::{ByThreads, QueryFault};
pub use plinq_steps::{
    Filtered, Indexed, Positional, Selected, Skipped, SkippedWhile, Start, Steps, Taken,
    TakenWhile, Then, Whole, Zipped,
};
pub use query::{OneThread, Query, from};
