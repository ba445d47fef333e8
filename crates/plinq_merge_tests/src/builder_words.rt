//! How the builder says why it refuses a call.
use plinq_ops::BuildFault;
use plinq_testing::says;

#[test]
fn faults_in_words(rt: HostRuntime) {
    for (fault, text) in [
        (BuildFault::NotAtSource, "not at source"),
        (BuildFault::MergeTwice, "merge twice"),
        (BuildFault::DegreeTwice, "degree twice"),
        (BuildFault::DegreeOutOfRange, "degree out of range"),
        (BuildFault::Memory, "out of memory"),
    ] {
        assert!(rt; says(rt.alloc(), &fault, text), "{text}");
    }
}
