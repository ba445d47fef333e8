//! What a program's `main` needs of the system: its words, its streams, and whether errors are to be explained.
//!
//! [`words`] and [`open_output`] say what is wrong on standard error if there is none, and return the status then.
#![tactic(auto)]

mod command_line;
mod streams;

pub use command_line::{explains, words};
pub use streams::{Output, let_go, open_output};
