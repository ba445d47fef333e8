//! Sources over what a program already has: a slice that it lends, a list of any length, lines of a text, an item for each key.
//!
//! - A [`SliceSource`] borrows its items, so that a query that runs twice needs no copy of them.
//! - [`list_source`] tests the number of items that a source may have, so that its caller owes nothing.
//! - [`lines_source`] gives the lines of a text.
//! - An [`IndexSource`] computes its items by what has an [`ItemAt`] each key.
#![tactic(auto)]

mod index;
mod item_at;
mod lines;
mod listing;
mod slice;

pub use index::IndexSource;
pub use item_at::ItemAt;
pub use lines::lines_source;
pub use listing::list_source;
pub use slice::SliceSource;
