ghost use Rattle.std.specs.Prelude.{◌≡◌, false};
ghost use Rattle.plinq_rounds.specs.Streams.{fails};
ghost use Rattle.plinq_rounds.specs.declared.lines_fault.LinesFault.TheVariants.{Memory, Write};

use plinq_lines::WriteFault;
use plinq_run::RunFault;
use std::alloc::AllocError;
use thiserror::Error;

/// Why lines aren't answered to their end.
#[derive(Clone, Copy, Debug, PartialEq, Eq, Error)]
pub enum LinesFault {
    /// Memory ran out.
    #[error("out of memory")]
    Memory,
    /// The input couldn't be read.
    #[error("read failed")]
    Read,
    /// A line failed a check. So many lines stand before it, modulo 2^64.
    #[error("a line failed a check after {0} lines")]
    Check(u64),
    /// The output couldn't be written.
    #[error("write failed")]
    Write,
    /// A thread couldn't be started.
    #[error("no thread")]
    Thread,
    /// Results of a run are missing.
    #[error("incomplete")]
    Incomplete,
}

impl From<AllocError> for LinesFault {
    ghost from_gives = { λ _ fault. fault ≡ Memory };

    fn from(_: AllocError) -> LinesFault {
        LinesFault::Memory
    }
}

impl From<WriteFault> for LinesFault {
    ghost from_gives = { λ _ fault. fault ≡ Write };

    fn from(_: WriteFault) -> LinesFault {
        LinesFault::Write
    }
}

impl From<RunFault> for LinesFault {
    ghost from_gives = { λ _ fault. fails fault ≡ false };

    fn from(fault: RunFault) -> LinesFault {
        match fault {
            RunFault::Memory => LinesFault::Memory,
            RunFault::Thread => LinesFault::Thread,
            RunFault::Sink(_) | RunFault::Tickets | RunFault::Incomplete | RunFault::Cancelled => {
                LinesFault::Incomplete
            }
        }
    }
}
