//! Keyed elements: what partitioners hand out, and what is written down about it.
//!
//! - The key properties of partitions, and checks that are exactly these (`check_in_each`, `check_across`,
//!   `check_normalized`).
//! - [`Guarded`], a value whose `records` are always a legal history of its source: one run of requests and their
//!   answers from the source's start, under tickets that rise.
//! - What a legal history hands out is a prefix of its source under the keys 0, 1, 2 and so on
//!   (`handed_out_is_a_prefix`, `handed_out_keys_count_up`).
#![tactic(auto)]

mod checks;
mod chunk;
mod event;
mod guarded;
mod keyed;
mod laws;
mod normalized;
mod properties;
mod record;
mod tail;

pub use checks::{check_across, check_in_each};
pub use chunk::Chunk;
pub use event::Event;
pub use guarded::Guarded;
pub use keyed::Keyed;
pub use laws::{handed_out_is_a_prefix, handed_out_keys_count_up, legality_counts_items};
pub use normalized::check_normalized;
pub use properties::KeyProperties;
pub use record::Record;
pub use tail::Tail;
