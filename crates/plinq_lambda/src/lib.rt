//! Lambdas: what a query's operators do to one element.
//!
//! A [`Lambda`] maps, tests and expands an element, and each answer is the value of its `meaning`, three pure
//! functions (`Lambda::map`, `Lambda::test`, `Lambda::expand`). An expansion has at most 65,536 items (`short`).
//! A [`SharedLambda`] is one that threads may share.
//! A [`Formula`] is the lambda over `i64` that a document can name; its meaning is `formula_meaning`, over whole
//! numbers with a check of the range at the end. Only `expand` takes memory, and that at once. Documents and plans call a
//! formula by its name and number (`formula_name`, [`Formula::named`]).
#![tactic(auto)]

mod expand_fault;
mod formula;
mod formula_kind;
mod formula_words;
mod lambda;
pub mod laws;
mod sums;

pub use expand_fault::ExpandFault;
pub use formula::Formula;
pub use lambda::{Lambda, SharedLambda};
