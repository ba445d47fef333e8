//! How often each text comes among lines, and what the numbers of lines come to.
//!
//! A [`Tally`] takes the lines of texts, one text after another ([`TakeLines`]). A contract sees a list of texts with their counts, in
//! the order in which they came first (`tallied`). [`laws`] says what these counts are. [`Figures`] take numbers with their keys
//! (`figured_lines`), and write what is [`Told`] of them (`figures_text`).
#![tactic(auto)]

mod figure;
mod figure_text;
mod figures;
pub mod laws;
mod take_lines;
mod tally;

pub use figure::Figure;
pub use figure_text::Told;
pub use figures::Figures;
pub use take_lines::TakeLines;
pub use tally::Tally;
