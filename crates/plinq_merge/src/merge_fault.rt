ghost use Rattle.std.specs.Prelude.{◌≡◌};
ghost use Rattle.plinq_merge.specs.declared.merge_fault.MergeFault.TheVariants.{Memory};

use plinq_source::OutOfMemory;
use thiserror::Error;

/// Why a merger refuses.
#[derive(Clone, Copy, Debug, PartialEq, Eq, Error)]
pub enum MergeFault {
    /// Memory ran out.
    #[error("out of memory")]
    Memory,
    /// The sink refused a batch, with its code.
    #[error("sink refused: {0}")]
    Sink(u32),
    /// A key was offered before.
    #[error("offered twice")]
    Twice,
    /// The answer isn't decided.
    #[error("results are missing")]
    Gap,
    /// Memory ran out before, the sink refused a batch, or the token stopped the delivery.
    #[error("failed before")]
    Failed,
    /// The token stopped the delivery.
    #[error("cancelled")]
    Cancelled,
}

impl From<OutOfMemory> for MergeFault {
    ghost from_gives = { λ _ e. e ≡ Memory };

    fn from(_: OutOfMemory) -> MergeFault {
        MergeFault::Memory
    }
}
