//! The cases of each fault, all of them.
use plinq_enumerator::GrowthFault;
use plinq_lambda::ExpandFault;
use plinq_merge::MergeFault;
use plinq_ops::BuildFault;
use plinq_partition::{PartFault, TakeFault};
use plinq_run::{AggregateFault, RunFault};
use plinq_source::{Ending, SourceFault};
use plinq_ticket::LockFault;
use std::test::*;

fn of_source(fault: SourceFault) -> u64 {
    match fault {
        SourceFault::TooLarge => 1,
    }
}

fn of_lock(fault: LockFault) -> u64 {
    match fault {
        LockFault::Spent => 1,
        LockFault::Busy { served, drawn } => served.max(drawn),
        LockFault::Incomplete { have, all } => have.max(all),
        LockFault::Memory => 4,
        LockFault::Away => 5,
    }
}

fn of_growth(fault: GrowthFault) -> u64 {
    match fault {
        GrowthFault::Zero => 1,
        GrowthFault::FirstAboveMax => 2,
        GrowthFault::MaxTooLarge => 3,
    }
}

fn of_take(fault: TakeFault) -> u64 {
    match fault {
        TakeFault::Memory => 1,
        TakeFault::Spent => 2,
        TakeFault::Busy { served, drawn } => served.max(drawn),
        TakeFault::Incomplete { have, all } => have.max(all),
        TakeFault::Away => 5,
    }
}

fn of_parts(fault: PartFault) -> u64 {
    match fault {
        PartFault::NoPartitions => 1,
        PartFault::NotSupported => 2,
        PartFault::KeysNotRising => 3,
        PartFault::Memory => 4,
    }
}

fn of_expansion(fault: ExpandFault) -> u32 {
    match fault {
        ExpandFault::Code(code) => code,
        ExpandFault::Memory => 2,
    }
}

fn of_building(fault: BuildFault) -> u64 {
    match fault {
        BuildFault::NotAtSource => 1,
        BuildFault::MergeTwice => 2,
        BuildFault::DegreeTwice => 3,
        BuildFault::DegreeOutOfRange => 4,
        BuildFault::Memory => 5,
    }
}

fn of_merge(fault: MergeFault) -> u32 {
    match fault {
        MergeFault::Memory => 1,
        MergeFault::Sink(code) => code,
        MergeFault::Twice => 3,
        MergeFault::Gap => 4,
        MergeFault::Failed => 5,
        MergeFault::Cancelled => 6,
    }
}

fn of_run(fault: RunFault) -> u32 {
    match fault {
        RunFault::Memory => 1,
        RunFault::Sink(code) => code,
        RunFault::Tickets => 3,
        RunFault::Thread => 4,
        RunFault::Incomplete => 5,
        RunFault::Cancelled => 6,
    }
}

fn of_aggregate(fault: AggregateFault) -> Option<Ending> {
    match fault {
        AggregateFault::Ended(ending) => Some(ending),
        AggregateFault::Run(_) => None,
    }
}

fn faults_carry_what_they_are_about() -> bool {
    let busy = LockFault::Busy {
        served: 3,
        drawn: 7,
    };
    let incomplete = TakeFault::Incomplete { have: 2, all: 9 };
    let ended = AggregateFault::Ended(Ending::Refused(7));
    of_lock(busy) == 7
        && of_take(incomplete) == 9
        && of_source(SourceFault::TooLarge) == 1
        && of_growth(GrowthFault::MaxTooLarge) == 3
        && of_parts(PartFault::KeysNotRising) == 3
        && of_expansion(ExpandFault::Code(8)) == 8
        && of_building(BuildFault::DegreeTwice) == 3
        && of_merge(MergeFault::Sink(9)) == 9
        && of_run(RunFault::Sink(9)) == 9
        && of_aggregate(ended) == Some(Ending::Refused(7))
}

#[test]
fn faults(rt: HostRuntime) {
    assert!(&rt; faults_carry_what_they_are_about());
}
