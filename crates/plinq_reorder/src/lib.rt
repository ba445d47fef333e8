//! A reorder buffer: intervals of keys come in any order, and go in the order of their keys.
//!
//! - A [`ReorderBuffer`] is an interval map with payloads. A contract sees the next key and the intervals that it holds
//!   (`Buffered`): they rise from the next key on, each has a key at least, and no key is in two.
//! - `insert` hands the payload back at once if its interval begins with the next key; else the buffer holds it.
//! - `take_next` takes the interval that begins with the next key, up to the first gap. `overlaps` reports whether a key
//!   came before.
//! - Five [`laws`] are of any intervals: what is true of each is so after an insert, which keys there are then, that they
//!   stay apart, the first gap, and the unbroken row up to it.
#![tactic(auto)]

pub mod laws;
mod reorder_buffer;
mod span;

pub use reorder_buffer::ReorderBuffer;
pub use span::Span;
