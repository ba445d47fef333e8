//! Lines: what is written is exactly the lines of an answer, and after a failure a beginning of them.
//!
//! - Each function here `Writes` a text: at `Ok` the writer has all of it after what it had, at an `Err` a beginning
//!   of it (`specs/Written.antt`). None takes memory, and none flushes.
//! - A [`LineSink`] writes each batch that a run delivers as its line (`TakesLine`, `RefusesLine`): batches that it took
//!   one after another are their lines ([`laws`]).
//! - [`write_batch`] writes the line of one batch (`batch_line`), and [`write_ending`] the line of how an answer ended
//!   (`ending_words`). The lines of an answer's batches and of its ending are its text (`answer_text`).
//! - [`write_aggregate`] writes an aggregated answer (`aggregate_text`): the value's line, which [`write_value`] writes
//!   (`value_line`), if it ended well, and the line of its ending.
//! - [`write_plan`] writes the five lines of a query's plan (`plan_text`), [`write_parts`] those of a source cut into
//!   partitions (`properties_line`, `part_lines`, `ending_words`), [`write_history`] those of a history of requests
//!   (`history_text`).
//! - [`write_bytes`] writes bytes as they are.
#![tactic(auto)]

mod aggregate_lines;
mod batch_lines;
mod bytes;
mod ending_lines;
mod history_lines;
pub mod laws;
mod line_sink;
mod op_words;
mod parts_lines;
mod piece;
mod pieces;
mod placing;
mod plan_lines;
mod write_fault;

pub use aggregate_lines::{write_aggregate, write_value};
pub use batch_lines::write_batch;
pub use bytes::write_bytes;
pub use ending_lines::write_ending;
pub use history_lines::write_history;
pub use line_sink::{LineSink, WRITE_FAILED};
pub use parts_lines::write_parts;
pub use plan_lines::write_plan;
pub use write_fault::WriteFault;
