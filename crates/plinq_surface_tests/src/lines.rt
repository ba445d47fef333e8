//! The lines of answers, partitions and histories.
mod failures;
mod histories;
mod parts;
mod sinks;
mod values;
