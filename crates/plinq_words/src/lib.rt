//! What has a name is found by it.
//!
//! Formulas, operators and merge options are [`Named`]: documents, plans and command lines call them by name, and [`first_named`]
//! is the first of some that has this name. `specs/Tables.antt` has tables of words, as of a document's names.
#![tactic(auto)]

mod named;

pub use named::{Named, first_named};
