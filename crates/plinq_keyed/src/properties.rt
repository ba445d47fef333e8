/// What a partitioner promises of its keys, after .NET's `OrderablePartitioner<TSource>`.
#[derive(Clone, Copy, Debug, PartialEq, Eq)]
pub struct KeyProperties {
    /// Each partition yields its elements by rising keys (`KeysOrderedInEachPartition`).
    pub in_each: bool,
    /// Each key of an earlier partition is below each key of a later one (`KeysOrderedAcrossPartitions`).
    pub across: bool,
    /// The keys of all partitions are the numbers from 0 on, each once (`KeysNormalized`).
    pub normalized: bool,
}
