//! The names that the interface has, at their places and in their shapes: a change that loses one is refused here. Each function
//! names what a caller may name: a fault's cases, the fields of a record, a call with all that goes in and comes out, under no other
//! condition than the stated one. What they compute is tested elsewhere. Those of the program's crates are in `program`.
//!
//! And the program's edge, of what neither a contract says nor the built program shows: what writers bring about that no stream of
//! the program is (`writers`), lines of values that none of its commands comes to (`lines`), and texts of faults that it never meets
//! (`fault_words`). Documents, command lines and streams, with what is printed for them, are tried on the built program, in the
//! folder `tests/` of the repository.
//!
//! They stand in a crate of their own, since a crate with tests is proved twice, and in one, since each costs the reading of the
//! libraries below it.
#![tactic(auto)]

#[cfg(test)]
mod by_hand;
#[cfg(test)]
mod calls;
#[cfg(test)]
mod fails_once;
#[cfg(test)]
mod fault_words;
#[cfg(test)]
mod faults;
#[cfg(test)]
mod lines;
#[cfg(test)]
mod lists;
#[cfg(test)]
mod locks;
#[cfg(test)]
mod made_sources;
#[cfg(test)]
mod narrow;
#[cfg(test)]
mod partitions;
#[cfg(test)]
mod program;
#[cfg(test)]
mod runs;
#[cfg(test)]
mod shapes;
#[cfg(test)]
mod traits;
#[cfg(test)]
mod writers;
