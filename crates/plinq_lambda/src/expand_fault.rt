ghost use Rattle.std.specs.Prelude.{◌≡◌};
ghost use Rattle.plinq_lambda.specs.declared.expand_fault.ExpandFault.TheVariants.{Memory};

use std::alloc::{AllocError, AllocFailed};
use thiserror::Error;

/// Why an expansion has no items.
#[derive(Clone, Copy, Debug, PartialEq, Eq, Error)]
pub enum ExpandFault {
    /// The lambda faulted, with its code.
    #[error("fault {0}")]
    Code(u32),
    /// A growth was refused.
    #[error("out of memory")]
    Memory,
}

impl From<AllocError> for ExpandFault {
    ghost from_gives = { λ _ e. e ≡ Memory };

    fn from(_: AllocError) -> ExpandFault {
        ExpandFault::Memory
    }
}

impl<T: Drop> From<AllocFailed<T>> for ExpandFault {
    ghost from_gives = { λ _ e. e ≡ Memory };

    fn from(_: AllocFailed<T>) -> ExpandFault {
        ExpandFault::Memory
    }
}
