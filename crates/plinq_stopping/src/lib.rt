//! Runs that a token may stop, whatever is made of their items.
//!
//! [`aggregate_with`] is `aggregate` of `plinq_run`, and [`run_mapped_with`] is `run_mapped` of `plinq_mapped`, with a token
//! ([`Cancel`](plinq_merge::Cancel)) that is asked before each chunk's part of the answer is merged. So a query that filters everything
//! out can be stopped as well.
#![tactic(auto)]

mod aggregating;
mod mapped_runs;
mod outcomes;
mod sums;
mod watched;

pub use aggregating::aggregate_with;
pub use mapped_runs::run_mapped_with;
