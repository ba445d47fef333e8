//! The words of a command line give a command and its settings, by `clap`'s rules.
//!
//! - [`read_arguments`] answers what the words ask for (`IsAsked`), or what `clap` shows in its place (`Refuses`).
#![tactic(auto)]

mod arguments;
mod command;
mod reading;

pub use arguments::Arguments;
pub use command::Command;
pub use reading::read_arguments;
