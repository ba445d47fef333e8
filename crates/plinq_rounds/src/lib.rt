//! A stream of text in rounds: the lines that a reader gives are answered part by part, by threads.
//!
//! - [`answer_lines`] writes what a query's steps make of the lines of a reader's bytes (`AnswersLines`), while it reads. After a
//!   failure it has written what they make of whole lines before that. A [`ReadBuffer`] holds what was read and isn't answered yet.
//! - [`tally_lines`] takes in the lines of the answer in place of writing them (`TakesLines`): a tally counts how often each comes,
//!   figures what their numbers come to. [`write_tally`], [`write_total`] and [`write_figures`] write that.
//! - [`answer_round`] does so with a text of whole lines, and leaves what is left of the steps. The text is cut into blocks of
//!   whole lines, which are the elements of a query of the engine: workers make the output of blocks, which comes in order.
#![tactic(auto)]

mod block;
mod cutting;
mod lines_fault;
mod making;
mod read_buffer;
mod round;
mod stream;
mod tallying;

pub use lines_fault::LinesFault;
pub use read_buffer::ReadBuffer;
pub use round::answer_round;
pub use stream::answer_lines;
pub use tallying::{tally_lines, write_figures, write_tally, write_total};
