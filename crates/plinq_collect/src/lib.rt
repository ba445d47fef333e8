//! What a program asks of a query: all items in a list, the first, whether there is any, how many.
//!
//! - [`to_vec`] answers the items and how the answer ended (`GathersSome`).
//! - [`for_each`] calls a closure that it is lent with these items, one after another (`CallsSome`).
//! - [`first`], [`element_at`], [`any`], [`contains`], [`all`] put a step on the query that ends it early, and [`count`] needs
//!   all of it. Each says what it makes of one of the query's answers (`TellsSome`); with `as_ordered` that is the sequential
//!   one.
//! - [`build`] makes a query in one expression, and [`run_into`] is a run whose workers choose their chunks' sizes by time.
//! - [`sequentially`] has the same calls on one thread, with the same arguments.
#![tactic(auto)]

mod building;
mod call_each;
mod calling;
mod collect;
mod collecting;
mod equal_to;
mod first_item;
mod is_there;
mod item_count;
mod same;
pub mod sequentially;
mod telling;
mod visits;

pub use building::build;
pub use calling::for_each;
pub use collect::Collect;
pub use collecting::{run_into, to_vec};
pub use equal_to::EqualTo;
pub use same::Same;
pub use telling::{all, any, contains, count, element_at, first};
