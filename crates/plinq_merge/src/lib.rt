//! The merger: results of chunks in any order, batches of the answer in order.
//!
//! - A [`Merger`] is for lists of offers (`IsFor`). What they show is the answer so far (`answer`). By key that is the
//!   unbroken row of results from key 0 on, by arrival the results as they came, sent through the operators after the
//!   merge.
//! - Each offer delivers exactly the batches that the answer gains by it, or after a fault the first of them
//!   (`Merger::offer`). `decided`, `finish` and [`More`] report whether and how the answer ends.
//! - What offers of one source show by key is at each moment a beginning of the sequential answer, and all of it if
//!   all was offered ([`laws`]).
//! - A [`Joiner`] is what a merger stands on: it joins results by key for a [`Taker`] of the items whose turn has come. A
//!   merger's taker is a [`Deliver`], and so is a run's; a run of folds has one that combines them.
//! - A [`Sink`] takes the batches; what it says of a call is `accepts` and `refuses`.
//! - A [`Cancel`] is asked before each batch (`Merger::offer_with`), and may stop the delivery: what was delivered then are
//!   the first batches (`IsKeptBack`). [`WithCancellation`] is such a token and a sink as one sink.
#![tactic(auto)]

mod buffer;
mod cancel;
mod cancel_after;
mod cancel_flag;
mod deliver;
mod delivery_fault;
mod flag_token;
mod in_blocks;
mod joined;
mod joiner;
mod joiner_state;
mod joining;
pub mod laws;
mod merge_fault;
mod merger;
mod merging;
mod more;
mod never_cancel;
mod offering;
mod one_thread;
mod pending;
mod row;
mod sending;
mod singly;
mod sink;
mod taker;
mod with_cancellation;

pub use cancel::Cancel;
pub use cancel_after::CancelAfter;
pub use cancel_flag::CancelFlag;
pub use deliver::Deliver;
pub use delivery_fault::DeliveryFault;
pub use flag_token::FlagToken;
pub use joined::Joined;
pub use joiner::Joiner;
pub use merge_fault::MergeFault;
pub use merger::Merger;
pub use more::More;
pub use never_cancel::NeverCancel;
pub use one_thread::{deliver_in_blocks, deliver_sequentially};
pub use sink::Sink;
pub use taker::{TakeInto, Taker};
pub use with_cancellation::WithCancellation;
