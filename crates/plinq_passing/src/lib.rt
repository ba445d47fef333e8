//! The run of steps over a source, by threads and on one thread: what it passes on, and how it ended.
//!
//! - [`aggregate_steps`] folds what the steps make, [`run_steps_into`] delivers it to a sink in batches, [`call_by_threads`] calls with
//!   each item ([`Visits`]). [`pass_by_threads`] does so with what steps by position make of it ([`Passed`]).
//! - [`run_left_into`] and [`call_left_by_threads`] deliver what steps by position leave, in batches or call by call.
//! - [`aggregate_steps_alone`], [`call_alone`], [`pass_alone`] and [`call_left_alone`] are the same on the caller's thread, and return.
//! - What is called may be a closure ([`Tells`], [`Tries`]), an accumulator ([`Folded`]), or what keeps the first item
//!   ([`KeepFirst`]). [`told_folded`], [`told_list`], [`told_first`], [`told_found`] and [`told_not`] make a call's result of
//!   how the run ended.
//! - [`QueryFault`] says why there is no answer, [`ByThreads`] has the settings of a run by threads.
//!
//! `plinq_query` has the queries that users write.
#![tactic(auto)]

mod aggregating;
mod alone;
mod by_threads;
mod call_each;
mod calling;
mod folds;
mod gathers;
mod keep_first;
mod leaving;
mod lends;
mod limited;
mod limiting;
mod lists;
mod made;
mod passes;
mod passing;
mod plain;
mod planning;
mod query_fault;
mod running;
mod visits;

pub use aggregating::{aggregate_steps, aggregate_steps_alone};
pub use by_threads::ByThreads;
pub use calling::{call_alone, call_by_threads};
pub use folds::{Folded, Folds, told_folded};
pub use keep_first::{First, KeepFirst};
pub use leaving::{call_left_alone, call_left_by_threads, run_left_into};
pub use lists::{empty_list, told_list};
pub use passes::{Passed, Passes};
pub use passing::{pass_alone, pass_by_threads};
pub use query_fault::QueryFault;
pub use running::{run_steps_into, told_first, told_found, told_not};
pub use visits::{Tells, Tries, Visits};
