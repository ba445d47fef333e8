//! Partitioners: what splits keyed elements for several readers.
//!
//! - [`RangeParts`] and [`PairParts`] cut a list into a given number of partitions that differ by one element at most.
//! - [`Chunked`] hands a source out in chunks to partitions that are made on demand, from several threads. A chunk that
//!   [`Partition::take`] answers is that of the one record that it adds to the partition's share (`IsTaken`). The
//!   shares of all partitions are the history of the enumerator, which `Chunked::give_back` hands back (`IsGivenBack`).
//! - What an [`OrderablePartitioner`] calls true in `properties`, its partitions have: static ones by `partitions`,
//!   dynamic ones by `chunked_keeps_its_promise`.
#![tactic(auto)]

mod chunked;
mod elements;
mod even_parts;
mod laws;
mod pair_parts;
mod part_fault;
mod partition;
mod partitioner;
mod partitioning;
mod range_parts;
mod requesting;
mod take_fault;

pub use chunked::Chunked;
pub use laws::{
    chunked_keeps_its_promise, keys_of_a_partition_rise, keys_of_all_partitions_are_normalized,
};
pub use pair_parts::PairParts;
pub use part_fault::PartFault;
pub use partition::Partition;
pub use partitioner::OrderablePartitioner;
pub use range_parts::RangeParts;
pub use take_fault::TakeFault;
