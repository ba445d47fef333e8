ghost use Rattle.std.specs.Prelude.{◌≡◌};
ghost use Rattle.plinq_merge.specs.declared.delivery_fault.DeliveryFault.TheVariants.{Memory};

use plinq_source::OutOfMemory;
use std::alloc::{AllocError, AllocFailed};
use thiserror::Error;

/// Why batches weren't all delivered.
#[derive(Clone, Copy, Debug, PartialEq, Eq, Error)]
pub enum DeliveryFault {
    /// Memory ran out.
    #[error("out of memory")]
    Memory,
    /// The sink refused a batch, with its code.
    #[error("sink refused: {0}")]
    Sink(u32),
}

impl From<OutOfMemory> for DeliveryFault {
    ghost from_gives = { λ _ e. e ≡ Memory };

    fn from(_: OutOfMemory) -> DeliveryFault {
        DeliveryFault::Memory
    }
}

impl From<AllocError> for DeliveryFault {
    ghost from_gives = { λ _ e. e ≡ Memory };

    fn from(_: AllocError) -> DeliveryFault {
        DeliveryFault::Memory
    }
}

impl<T: Drop> From<AllocFailed<T>> for DeliveryFault {
    ghost from_gives = { λ _ e. e ≡ Memory };

    fn from(_: AllocFailed<T>) -> DeliveryFault {
        DeliveryFault::Memory
    }
}
