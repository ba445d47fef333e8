//! Queries of LINQ's samples as typed queries, each beside what a plain loop makes of the same items, by threads and on one thread.
//!
//! They stand in a crate of their own, since a crate with tests is proved twice.
#![tactic(auto)]

#[cfg(test)]
mod groups;
#[cfg(test)]
mod samples;
#[cfg(test)]
mod sets;
