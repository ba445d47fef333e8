//! What a command line asks for beside its command: how many workers, how results are handed over, and when a run stops.
//!
//! [`Settings`] are the options of the program. A [`Degree`] is a number of workers from 1 to 64 (`degree_of`).
#![tactic(auto)]

mod degree;
mod settings;

pub use degree::Degree;
pub use settings::Settings;
