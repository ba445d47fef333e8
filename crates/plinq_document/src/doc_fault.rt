ghost use Rattle.std.specs.Prelude.{◌≡◌};
ghost use Rattle.plinq_document.specs.declared.doc_fault.DocFault.TheVariants.{Source, Growth, Memory};

use plinq_enumerator::GrowthFault;
use plinq_ops::BuildFault;
use plinq_source::SourceFault;
use std::alloc::AllocError;
use thiserror::Error;

/// Why a document is refused, in the order in which the causes are looked for; that memory ran out is answered where it
/// did, whatever stands later.
#[derive(Clone, Copy, Debug, PartialEq, Eq, Error)]
pub enum DocFault {
    /// More than 16,777,216 bytes.
    #[error("too long")]
    TooLong,
    /// No JSON text.
    #[error("not JSON")]
    NotJson,
    /// No document of this kind: a name or a value that the format doesn't have.
    #[error("wrong shape")]
    Shape,
    /// A version that isn't known.
    #[error("unknown version")]
    Version,
    /// A source of more than 2^40 items, or a range whose last number is no `i64`.
    #[error("source too large")]
    Source,
    /// Three counts that are no growth of chunks.
    #[error("{0}")]
    Growth(GrowthFault),
    /// A step that isn't known, or that the query refuses.
    #[error("step {at}: {why}")]
    Step {
        /// Its place in the query, counted from 0.
        at: u64,
        /// What is wrong with it.
        why: StepFault,
    },
    /// Memory ran out.
    #[error("out of memory")]
    Memory,
}

/// Why a step is refused.
#[derive(Clone, Copy, Debug, PartialEq, Eq, Error)]
pub enum StepFault {
    /// It isn't in the table of steps.
    #[error("unknown")]
    Unknown,
    /// The query refuses the call.
    #[error("{0}")]
    Build(BuildFault),
}

impl From<SourceFault> for DocFault {
    ghost from_gives = { λ _ e. e ≡ Source };

    fn from(_: SourceFault) -> DocFault {
        DocFault::Source
    }
}

impl From<GrowthFault> for DocFault {
    ghost from_gives = { λ why e. e ≡ Growth why };

    fn from(why: GrowthFault) -> DocFault {
        DocFault::Growth(why)
    }
}

impl From<AllocError> for DocFault {
    ghost from_gives = { λ _ e. e ≡ Memory };

    fn from(_: AllocError) -> DocFault {
        DocFault::Memory
    }
}
