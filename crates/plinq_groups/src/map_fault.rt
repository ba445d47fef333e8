ghost use Rattle.std.specs.Prelude.{◌≡◌};
ghost use Rattle.plinq_groups.specs.declared.map_fault.MapFault.TheVariants.{Memory};

use std::alloc::{AllocError, AllocFailed};
use thiserror::Error;

/// Why nothing was made of an item.
#[derive(Clone, Copy, Debug, PartialEq, Eq, Error)]
pub enum MapFault {
    /// Nothing can be made of it, for the reason that has this code.
    #[error("fault {0}")]
    Code(u32),
    /// There was no room.
    #[error("out of memory")]
    Memory,
}

impl From<AllocError> for MapFault {
    ghost from_gives = { λ _ e. e ≡ Memory };

    fn from(_: AllocError) -> MapFault {
        MapFault::Memory
    }
}

impl<T: Drop> From<AllocFailed<T>> for MapFault {
    ghost from_gives = { λ _ e. e ≡ Memory };

    fn from(_: AllocFailed<T>) -> MapFault {
        MapFault::Memory
    }
}
