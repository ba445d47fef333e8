//! The cut that the workers of a query share: no key above it needs to be looked at.
//!
//! It is for a query that is merged by key; by arrival no key stands before another, and nothing may be left off.
//!
//! A [`CutWord`] is one atomic number, at first the greatest. A worker whose chunk ends the run lowers it to the key
//! at which that happened ([`CutWord::lower`]), and each worker reads it before it works on a chunk ([`CutWord::read`]);
//! [`cut_off`] and [`cut_now`] do so by key, and neither by arrival. Between any two steps of any passes the number is the
//! greatest one or a key whose fragment ends the run, and no pass has seen a lesser one. So a chunk may be left off above it,
//! which the law of rows in `plinq_ops` makes harmless. Nothing takes memory but making the word.
#![tactic(auto)]

mod cut_pass;
mod cut_word;
mod cutting;
mod plays;
mod shared_cut;
mod stop_keys;
mod view;

pub use cut_pass::CutPass;
pub use cut_word::CutWord;
pub use shared_cut::{cut_now, cut_off};
pub use stop_keys::StopKeys;
