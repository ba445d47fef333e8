//! Threads that wait for what others change: they look again for a while, and then sleep until they are woken.
//!
//! A [`WaitQueue`] is for those that wait for one thing. It promises nothing that a contract could say: that a thread goes on,
//! and goes on soon, is for tests and measurements. So no answer rests on it.
#![tactic(auto)]

mod patience;
mod wait_queue;
mod waiter;

pub use patience::Patience;
pub use wait_queue::WaitQueue;
pub use waiter::Waiter;
