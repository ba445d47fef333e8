//! How a merger says why it refuses, and how a delivery does.
use plinq_merge::{DeliveryFault, MergeFault};
use plinq_testing::says;

#[test]
fn faults_of_a_merger_in_words(rt: HostRuntime) {
    for (fault, text) in [
        (MergeFault::Memory, "out of memory"),
        (MergeFault::Sink(4_294_967_295), "sink refused: 4294967295"),
        (MergeFault::Twice, "offered twice"),
        (MergeFault::Gap, "results are missing"),
        (MergeFault::Failed, "failed before"),
        (MergeFault::Cancelled, "cancelled"),
    ] {
        assert!(rt; says(rt.alloc(), &fault, text), "{text}");
    }
}

#[test]
fn faults_of_a_delivery_in_words(rt: HostRuntime) {
    for (fault, text) in [
        (DeliveryFault::Memory, "out of memory"),
        (DeliveryFault::Sink(9), "sink refused: 9"),
    ] {
        assert!(rt; says(rt.alloc(), &fault, text), "{text}");
    }
}
