//! Lists in partitions, whose keys are those of the contract: what is asked for are rooms, and words.
use plinq_keyed::{KeyProperties, Keyed};
use plinq_partition::{OrderablePartitioner, PairParts, PartFault, RangeParts};
use plinq_testing::says;
use std::alloc::Global;

/// The numbers 0, 1 and 2, which are their own keys.
fn numbers(alloc: Global) -> Option<RangeParts<u64>> {
    match vec![in alloc; 0, 1, 2] {
        Ok(numbers) => Some(RangeParts::new(alloc, numbers)),
        Err(_) => None,
    }
}

/// An element whose value is its key.
fn own(key: u64) -> Keyed<u64> {
    Keyed { key, value: key }
}

/// Three elements under keys that rise.
fn pairs(alloc: Global) -> Option<PairParts<u64>> {
    let Ok(pairs) = vec![in alloc; own(3), own(10), own(11)] else {
        return None;
    };
    PairParts::new(alloc, pairs).ok()
}

/// What a partitioner promises, through the bound.
fn promised_by<P: OrderablePartitioner>(partitioner: &P) -> KeyProperties {
    partitioner.properties()
}

#[test]
fn partitioners_promise_that_keys_rise(rt: HostRuntime) {
    let (Some(numbers), Some(pairs)) = (numbers(rt.alloc()), pairs(rt.alloc())) else {
        panic!(rt; "no room");
    };
    let promised = promised_by(&numbers);
    assert!(rt; promised.in_each && promised.across && promised.normalized);
    let promised = promised_by(&pairs);
    assert!(rt; promised.in_each && promised.across && !promised.normalized);
}

/// How many of two lists in so many partitions are refused.
fn refusals(numbers: &RangeParts<u64>, pairs: &PairParts<u64>, n: u64) -> usize {
    let first = usize::from(numbers.partitions(n).is_err());
    first.wrapping_add(usize::from(pairs.partitions(n).is_err()))
}

/// There is no room for so many lists: that is told at once, and not after trying.
#[test]
fn too_many_partitions_are_memory(rt: HostRuntime) {
    let (Some(numbers), Some(pairs)) = (numbers(rt.alloc()), pairs(rt.alloc())) else {
        panic!(rt; "no room");
    };
    assert!(rt; refusals(&numbers, &pairs, u64::MAX) == 2);
}

/// A refused growth is Memory, and the next call answers. Run with each allocation failing in turn.
#[test]
fn a_refused_growth_is_memory(rt: HostRuntime) {
    let (Some(numbers), Some(pairs)) = (numbers(rt.alloc()), pairs(rt.alloc())) else {
        return;
    };
    let first = refusals(&numbers, &pairs, 2);
    assert!(rt; first.wrapping_add(refusals(&numbers, &pairs, 2)) <= 1);
}

#[test]
fn faults_in_words(rt: HostRuntime) {
    for (fault, text) in [
        (PartFault::NoPartitions, "no partitions"),
        (PartFault::NotSupported, "no dynamic partitions"),
        (PartFault::KeysNotRising, "keys not rising"),
        (PartFault::Memory, "out of memory"),
    ] {
        assert!(rt; says(rt.alloc(), &fault, text), "{text}");
    }
}
