//! The tests of what a program asks of a query, each of what no contract says: that calls succeed with ample memory and
//! threads, that they answer what a plain loop over a `Vec` does, and how many items leave a source that isn't needed whole.
//!
//! They stand in a crate of their own, since a crate with tests is proved twice.
#![tactic(auto)]

#[cfg(test)]
mod against_a_loop;
#[cfg(test)]
mod asked_by_workers;
#[cfg(test)]
mod called_closures;
#[cfg(test)]
mod chains;
#[cfg(test)]
mod early_ends;
#[cfg(test)]
mod ordered_queries;
#[cfg(test)]
mod refused_room;
