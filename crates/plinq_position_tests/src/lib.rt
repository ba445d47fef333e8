//! The tests of typed queries with steps by position, each of what no contract says: that calls succeed with ample memory and threads,
//! that they return what a plain loop does by any number of workers, and how many items leave a source that isn't needed whole.
//!
//! They stand in a crate of their own, since a crate with tests is proved twice.
#![tactic(auto)]

#[cfg(test)]
mod beside;
#[cfg(test)]
mod limits;
#[cfg(test)]
mod passed_on;
#[cfg(test)]
mod positions;
#[cfg(test)]
mod searched_positions;
