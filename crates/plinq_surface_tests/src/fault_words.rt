//! What is said of faults that the program doesn't meet, or says in other words.
use plinq_cli::{DocFault, Failure, InputFault, ServeFault};
use plinq_lines::WriteFault;
use plinq_partition::TakeFault;
use plinq_run::RunFault;
use plinq_testing::says;
use std::alloc::Global;

#[test]
fn faults_of_lines_input_and_documents(rt: HostRuntime) {
    assert!(rt; says(rt.alloc(), &WriteFault, "write failed"));
    for (fault, text) in [
        (InputFault::Read, "read failed"),
        (InputFault::TooLong, "too long"),
        (InputFault::Memory, "out of memory"),
    ] {
        assert!(rt; says(rt.alloc(), &fault, text), "{text}");
    }
    assert!(rt; says(rt.alloc(), &DocFault::TooLong, "too long"));
    assert!(rt; says(rt.alloc(), &DocFault::Memory, "out of memory"));
}

/// What becomes of a fault of partitions, and the line that is shown.
fn fails_as(alloc: Global, fault: TakeFault, failure: Failure, line: &str) -> bool {
    let told = Failure::from(ServeFault::from(fault));
    told == failure && says(alloc, &told, line)
}

/// Faults of partitions, none of which one thread meets.
#[test]
fn faults_of_partitions(rt: HostRuntime) {
    for (fault, failure, line) in [
        (TakeFault::Memory, Failure::Memory, "out of memory"),
        (TakeFault::Spent, Failure::Tickets, "tickets spent"),
        (BUSY, Failure::Tickets, "tickets spent"),
        (MISSING, Failure::Incomplete, "incomplete"),
        (TakeFault::Away, Failure::Incomplete, "incomplete"),
    ] {
        assert!(rt; fails_as(rt.alloc(), fault, failure, line), "{line}");
    }
    assert!(rt; ServeFault::from(TakeFault::Memory) == ServeFault::Memory);
    assert!(rt; ServeFault::from(TakeFault::Away) == ServeFault::Take(TakeFault::Away));
}

const BUSY: TakeFault = TakeFault::Busy {
    served: 3,
    drawn: 5,
};

const MISSING: TakeFault = TakeFault::Incomplete { have: 1, all: 2 };

/// What a fault of a command says itself, and the line of the failure that it becomes.
fn becomes(alloc: Global, fault: ServeFault, text: &str, line: &str) -> bool {
    says(alloc, &fault, text) && says(alloc, &Failure::from(fault), line)
}

#[test]
fn faults_of_a_command(rt: HostRuntime) {
    for (fault, text, line) in [
        (ServeFault::Memory, "out of memory", "out of memory"),
        (ServeFault::Write, "write failed", "write failed"),
        (ServeFault::Take(TakeFault::Away), "away", "incomplete"),
    ] {
        assert!(rt; becomes(rt.alloc(), fault, text, line), "{text}");
    }
    for (fault, text) in [
        (RunFault::Memory, "out of memory"),
        (RunFault::Thread, "no thread"),
        (RunFault::Tickets, "tickets spent"),
        (RunFault::Incomplete, "incomplete"),
        (RunFault::Cancelled, "cancelled"),
    ] {
        assert!(rt;
            becomes(rt.alloc(), ServeFault::Run(fault), text, text),
            "{text}"
        );
    }
}
