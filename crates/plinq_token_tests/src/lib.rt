//! The tests of typed queries with a token: each call that runs a query by threads asks its token and is stopped by it, whatever the
//! query's other settings are.
//!
//! They stand in a crate of their own, since a crate with tests is proved twice.
#![tactic(auto)]

#[cfg(test)]
mod after_positions;
#[cfg(test)]
mod each_call;
#[cfg(test)]
mod questions;
