//! The enumerator: it hands out a source's items in chunks, and keeps a record of each request.
//!
//! - [`Enumerator`] is a guarded value: `ask` and `close` are steps of the enumerator relation of `plinq_keyed`, add
//!   exactly one record at the end of the history, and keep it legal. After a refusal nothing has changed.
//! - `replays` is true exactly for the histories that are legal for a source of that length and ending.
//! - [`Growth`] says how many items to ask for (`Growth::size`).
#![tactic(auto)]

mod enumerator;
mod growth;
mod growth_fault;
mod replay;
mod replaying;
mod taking;

pub use enumerator::Enumerator;
pub use growth::Growth;
pub use growth_fault::GrowthFault;
pub use replaying::replays;
