//! A lock that is taken in the order of tickets, round a value that keeps the history of what was done to it.
//!
//! - Whoever holds the value knows its history: `enter` and `try_enter` give it with exactly the records of all passes, in
//!   the order of their tickets, and with the whole share of the pass that entered.
//! - Between any two steps of any passes the tickets of those that wait or are inside are the numbers from `serving` up to
//!   `next`, each once. One pass at most is inside, and the value is home exactly if none is.
//! - `finish` gives the value back exactly if no record of it is missing from the pass.
//! - Whenever the lock is free, what was handed out is a prefix of the source: `free_lock_has_handed_out_a_prefix`.
#![tactic(auto)]

mod entering;
mod finishing;
mod held;
mod laws;
mod leaving;
mod lock_fault;
mod making;
mod pass;
mod phase;
mod plays;
mod sharing;
mod standing;
mod table_steps;
mod ticket_lock;
mod view;

pub use held::{Entry, Held};
pub use laws::{free_lock_has_handed_out_a_prefix, one_pass_is_inside};
pub use lock_fault::LockFault;
pub use pass::{Pass, Token};
pub use ticket_lock::TicketLock;
