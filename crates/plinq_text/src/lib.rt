//! What a query's steps make of the lines of a text.
//!
//! - A text's lines are `lines_of` it, each with the line feed that ends it. [`LineStep`]s filter them, select a part of each, take
//!   and skip: of a list of lines they make `answer`.
//! - [`first_line`] parts a text's first line from the others, and [`line_count`] counts them.
//! - [`patterns`] compiles the regular expressions of steps, once for any number of texts.
//! - [`make_lines`] appends what steps make of a block of lines by which none of them changes (`steady_lines`).
//! - [`pass_lines`] does so of any lines, leaves what is left of the steps (`left`), and says which line failed a check (`bad_line`).
//! - [`steady`] says how many steps change by few lines at most, and [`is_over`] whether no line more is wanted.
//! - [`number_of`] reads a number.
#![tactic(auto)]

mod fields;
mod known;
mod line_step;
mod line_test;
mod making;
mod number;
mod outcome;
mod passing;
mod pattern;
mod ready;
mod seen;
mod splitting;

pub use fields::{Parts, part_at};
pub use line_step::{Field, Fields, Known, LineStep, Separator};
pub use line_test::{LineTest, TestKind};
pub use making::make_lines;
pub use number::{Number, number_of};
pub use passing::{has_check, is_over, pass_lines, steady};
pub use pattern::{Pattern, has_pattern, patterns};
pub use seen::Seen;
pub use splitting::{LineAt, first_line, line_count};
