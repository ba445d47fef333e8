//! The tests of all that stands below a run, from `plinq_source` up to `plinq_merge`, of what no contract says: that calls succeed
//! with ample memory, and what they answer if there is none; sources, formulas, aggregators and keys; enumerators and the lock,
//! also if many threads take from one source; lists that are given back; lambdas and results over another type, how often a
//! source is asked and an item tested, when a batch is sent, which word a cut has, flags of another thread, streams, and texts.
//!
//! They stand in a crate of their own, since a crate with tests is proved twice, and in one, since each costs the reading of the
//! libraries below it.
#![tactic(auto)]

#[cfg(test)]
mod aggregators;
#[cfg(test)]
mod another_inside;
#[cfg(test)]
mod answers;
#[cfg(test)]
mod asked_parts;
#[cfg(test)]
mod buffers;
#[cfg(test)]
mod builder_words;
#[cfg(test)]
mod building;
#[cfg(test)]
mod counted_steps;
#[cfg(test)]
mod cut_words;
#[cfg(test)]
mod enumerators;
#[cfg(test)]
mod expecting;
#[cfg(test)]
mod fault_words;
#[cfg(test)]
mod formulas;
#[cfg(test)]
mod full_queue;
#[cfg(test)]
mod keys;
#[cfg(test)]
mod lists;
#[cfg(test)]
mod load;
#[cfg(test)]
mod lock;
#[cfg(test)]
mod no_room_to_merge;
#[cfg(test)]
mod offers;
#[cfg(test)]
mod on_one_thread;
#[cfg(test)]
mod pipelines;
#[cfg(test)]
mod refusals;
#[cfg(test)]
mod refused_room;
#[cfg(test)]
mod rows;
#[cfg(test)]
mod sent_at_once;
#[cfg(test)]
mod tested;
#[cfg(test)]
mod tokens;
#[cfg(test)]
mod walked_sources;
