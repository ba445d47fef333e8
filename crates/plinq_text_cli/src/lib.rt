//! `plinq lines`: the words of a command line give a query over lines, and the lines of files or of standard input are answered.
//!
//! - [`read_query`] reads the steps of a query from its words, as `filter contains "disk full" | select field 1 | take 10`.
//! - [`perform_lines`] does what the words ask for. Each file is answered by `plinq_rounds::answer_lines`, with what is left of the
//!   steps after the files before it. Of a count, `plinq_rounds::tally_lines` counts each file's lines, and what it counted is written
//!   after the last.
#![tactic(auto)]

mod ended;
mod performing;
mod query;
mod query_fault;
mod tokens;
mod words;

pub use performing::perform_lines;
pub use query::{FiguresEnd, LinesEnd, LinesQuery, read_query};
pub use query_fault::QueryFault;
