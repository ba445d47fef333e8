ghost use Rattle.std.specs.Prelude.{◌≡◌};
ghost use Rattle.plinq_partition.specs.Faults.{take_fault_of};
ghost use Rattle.plinq_partition.specs.declared.take_fault.TakeFault.TheVariants.{Memory};

use plinq_source::OutOfMemory;
use plinq_ticket::LockFault;
use thiserror::Error;

/// Why a partition was given no chunk, or an enumerator wasn't given back.
#[derive(Clone, Copy, Debug, PartialEq, Eq, Error)]
pub enum TakeFault {
    /// A growth was refused.
    #[error("out of memory")]
    Memory,
    /// All tickets were drawn: there are 2^62 of them, counted from 0.
    #[error("tickets spent")]
    Spent,
    /// Other partitions came before: tickets below `drawn` were drawn, and those below `served` have left.
    #[error("busy, {served} served of {drawn} drawn")]
    Busy {
        /// How many tickets were served.
        served: u64,
        /// How many tickets were drawn.
        drawn: u64,
    },
    /// The partitions that were given back have `have` records of `all`: some partition is missing.
    #[error("incomplete, {have} records of {all}")]
    Incomplete {
        /// The records of the partitions that were given back.
        have: u64,
        /// The records of the enumerator.
        all: u64,
    },
    /// A partition waits or is inside, so the enumerator isn't there.
    #[error("away")]
    Away,
}

impl From<LockFault> for TakeFault {
    ghost from_gives = { λ fault f. f ≡ take_fault_of fault };

    fn from(fault: LockFault) -> TakeFault {
        match fault {
            LockFault::Spent => TakeFault::Spent,
            LockFault::Busy { served, drawn } => TakeFault::Busy { served, drawn },
            LockFault::Incomplete { have, all } => TakeFault::Incomplete { have, all },
            LockFault::Memory => TakeFault::Memory,
            LockFault::Away => TakeFault::Away,
        }
    }
}

impl From<OutOfMemory> for TakeFault {
    ghost from_gives = { λ _ f. f ≡ Memory };

    fn from(_: OutOfMemory) -> TakeFault {
        TakeFault::Memory
    }
}
