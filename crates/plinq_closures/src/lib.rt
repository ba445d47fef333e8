//! Closures as the steps of a query.
//!
//! - A [`Chain`] has any number of steps, each a closure or a count. Its calls return what one thread's answer gives
//!   (`Tells`, `GathersSome`), for some functions that the closures' clauses allow (`Steps::does`).
//! - [`Chain::sequentially`] has the same calls on one thread.
//! - A closure serves if its contract says that it may always be called, in one way, and that it has one answer to each
//!   item. A clause `ensures { result ≡ .. }` says all of it.
//! - [`Steps`] is what a chain's steps have in common; no query of a user's own needs it.
#![tactic(auto)]

mod asking;
mod at;
mod block_closures;
mod chain;
mod chain_aggregates;
mod chain_calls;
mod chain_fault;
mod chain_queries;
mod chain_sequentially;
mod counted;
mod lent;
mod mapped;
mod searching;
mod searching_sequentially;
mod steps;
mod tested;
mod whole;

pub use chain::Chain;
pub use chain_fault::ChainFault;
pub use chain_sequentially::Sequentially;
pub use counted::Counted;
pub use mapped::Mapped;
pub use steps::Steps;
pub use tested::Tested;
pub use whole::Whole;
