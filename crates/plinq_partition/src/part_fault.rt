ghost use Rattle.std.specs.Prelude.{◌≡◌};
ghost use Rattle.plinq_partition.specs.declared.part_fault.PartFault.TheVariants.{Memory};

use std::alloc::AllocError;
use thiserror::Error;

/// Why there are no partitions.
#[derive(Clone, Copy, Debug, PartialEq, Eq, Error)]
pub enum PartFault {
    /// No partitions were asked for.
    #[error("no partitions")]
    NoPartitions,
    /// The partitioner can't make partitions on demand.
    #[error("no dynamic partitions")]
    NotSupported,
    /// The keys don't rise strictly.
    #[error("keys not rising")]
    KeysNotRising,
    /// A growth was refused.
    #[error("out of memory")]
    Memory,
}

impl From<AllocError> for PartFault {
    ghost from_gives = { λ _ f. f ≡ Memory };

    fn from(_: AllocError) -> PartFault {
        PartFault::Memory
    }
}
