//! The tests of runs and aggregates, each of what no contract says: that they succeed with ample memory and threads, that their
//! answers are those of one thread whatever the workers, the growth and the gates, that workers run side by side; what a gate, a
//! sink and the source of a decided query are asked. And what threads do meanwhile: that workers fold what they compute, wait while
//! the queue is full or too many items are ahead, and go on after a refusal; that batches come while some are held back; what a
//! run delivers that was stopped, in which a worker fails, or for which there is no room.
//!
//! They stand in a crate of their own, since a crate with tests is proved twice, and in one, since each costs the reading of the
//! libraries below it. `plinq_testing` has what they share with other tests, `asking` a run over numbers, `beside_one_thread` one
//! query that threads and one thread answer.
#![tactic(auto)]

#[cfg(test)]
mod aggregates;
#[cfg(test)]
mod asking;
#[cfg(test)]
mod beside_one_thread;
#[cfg(test)]
mod by_chance;
#[cfg(test)]
mod cancelled;
#[cfg(test)]
mod cut_off;
#[cfg(test)]
mod enough;
#[cfg(test)]
mod failing_worker;
#[cfg(test)]
mod fault_words;
#[cfg(test)]
mod folds;
#[cfg(test)]
mod full_queue;
#[cfg(test)]
mod held_refusals;
#[cfg(test)]
mod idle_sinks;
#[cfg(test)]
mod items_ahead;
#[cfg(test)]
mod keys_ahead;
#[cfg(test)]
mod late_faults;
#[cfg(test)]
mod no_room;
#[cfg(test)]
mod passed_gates;
#[cfg(test)]
mod records;
#[cfg(test)]
mod refused_batches;
#[cfg(test)]
mod refused_room;
#[cfg(test)]
mod side_by_side;
#[cfg(test)]
mod streams;
#[cfg(test)]
mod unasked_sources;
#[cfg(test)]
mod unordered;
#[cfg(test)]
mod wide_items;
