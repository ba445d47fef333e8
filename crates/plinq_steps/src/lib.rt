//! What the steps of a query make of an item, and of a list, item by item.
//!
//! - [`Steps`] go by the item alone, so threads may apply them to items in any order: [`Start`], [`Selected`], [`Filtered`].
//! - [`Positional`] steps go by where an item stands, so items come to them one after another: [`Whole`], [`Taken`], [`Skipped`],
//!   [`TakenWhile`], [`SkippedWhile`], [`Indexed`], [`Zipped`], and [`Then`] other steps.
//!
//! A closure's contract says what it may return; a step says what may come of it, as a relation (`Steps::makes`,
//! `Positional::turns`). Steps by position also say what they make of a list, and whether that is decided, whatever comes after
//! the list (`Positional::means`). The laws say that both go on with each item.
#![tactic(auto)]

mod equal;
mod filtered;
mod indexed;
mod positional;
mod selected;
mod skipped;
mod skipped_while;
mod start;
mod steps;
mod taken;
mod taken_while;
mod then;
mod whole;
mod zipped;

pub use equal::Equal;
pub use filtered::Filtered;
pub use indexed::Indexed;
pub use positional::Positional;
pub use selected::Selected;
pub use skipped::Skipped;
pub use skipped_while::SkippedWhile;
pub use start::Start;
pub use steps::Steps;
pub use taken::Taken;
pub use taken_while::TakenWhile;
pub use then::Then;
pub use whole::Whole;
pub use zipped::Zipped;
