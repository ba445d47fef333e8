//! How a run says why it gives no report.
use plinq_run::{AggregateFault, RunFault};
use plinq_source::Ending;
use plinq_testing::says;

#[test]
fn faults_of_a_run_in_words(rt: HostRuntime) {
    for (fault, text) in [
        (RunFault::Memory, "out of memory"),
        (RunFault::Sink(4_294_967_295), "sink refused: 4294967295"),
        (RunFault::Tickets, "tickets spent"),
        (RunFault::Thread, "no thread"),
        (RunFault::Incomplete, "incomplete"),
        (RunFault::Cancelled, "cancelled"),
    ] {
        assert!(rt; says(rt.alloc(), &fault, text), "{text}");
    }
}

#[test]
fn faults_of_an_aggregate_in_words(rt: HostRuntime) {
    let ended = AggregateFault::Ended(Ending::Refused(7));
    assert!(rt; says(rt.alloc(), &ended, "the answer didn't end well"));
    let run = AggregateFault::Run(RunFault::Thread);
    assert!(rt; says(rt.alloc(), &run, "no thread"));
}
