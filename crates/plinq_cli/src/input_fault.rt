ghost use Rattle.std.specs.Prelude.{◌≡◌};
ghost use Rattle.plinq_cli.specs.declared.input_fault.InputFault.TheVariants.{Memory};

use std::alloc::AllocError;
use thiserror::Error;

/// Why the input isn't read.
#[derive(Clone, Copy, Debug, PartialEq, Eq, Error)]
pub enum InputFault {
    /// A read failed.
    #[error("read failed")]
    Read,
    /// More than 16,777,216 bytes.
    #[error("too long")]
    TooLong,
    /// Memory ran out.
    #[error("out of memory")]
    Memory,
}

impl From<AllocError> for InputFault {
    ghost from_gives = { λ _ e. e ≡ Memory };

    fn from(_: AllocError) -> InputFault {
        InputFault::Memory
    }
}
