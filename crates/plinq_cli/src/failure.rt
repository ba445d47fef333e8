ghost use Rattle.std.specs.Prelude.{◌≡◌};
ghost use Rattle.plinq_cli.specs.Performed.{failure_of_document, failure_of_input, failure_of_run, failure_of_serve, failure_of_take};

use crate::input_fault::InputFault;
use crate::serve_fault::ServeFault;
use plinq_document::DocFault;
use plinq_partition::TakeFault;
use plinq_run::RunFault;
use thiserror::Error;

/// Why the program has no answer. Its text is the line on standard error, after the program's name.
#[derive(Clone, Copy, Debug, PartialEq, Eq, Error)]
pub enum Failure {
    /// The document is refused.
    #[error("document: {0}")]
    Document(DocFault),
    /// Memory ran out.
    #[error("out of memory")]
    Memory,
    /// The input couldn't be read.
    #[error("read failed")]
    Read,
    /// The output couldn't be written.
    #[error("write failed")]
    Write,
    /// A thread couldn't be started.
    #[error("no thread")]
    Thread,
    /// All tickets were drawn, or another request came first.
    #[error("tickets spent")]
    Tickets,
    /// Records of the history are missing, or the enumerator is, or results of a run.
    #[error("incomplete")]
    Incomplete,
    /// The run was cancelled.
    #[error("cancelled")]
    Cancelled,
}

impl From<DocFault> for Failure {
    ghost from_gives = { λ fault e. e ≡ failure_of_document fault };

    fn from(fault: DocFault) -> Failure {
        match fault {
            DocFault::Memory => Failure::Memory,
            _ => Failure::Document(fault),
        }
    }
}

impl From<InputFault> for Failure {
    ghost from_gives = { λ fault e. e ≡ failure_of_input fault };

    fn from(fault: InputFault) -> Failure {
        match fault {
            InputFault::Read => Failure::Read,
            InputFault::TooLong => Failure::Document(DocFault::TooLong),
            InputFault::Memory => Failure::Memory,
        }
    }
}

impl From<ServeFault> for Failure {
    ghost from_gives = { λ fault e. e ≡ failure_of_serve fault };

    fn from(fault: ServeFault) -> Failure {
        match fault {
            ServeFault::Memory => Failure::Memory,
            ServeFault::Write => Failure::Write,
            ServeFault::Run(fault) => Failure::from(fault),
            ServeFault::Take(fault) => Failure::from(fault),
        }
    }
}

impl From<RunFault> for Failure {
    ghost from_gives = { λ fault e. e ≡ failure_of_run fault };

    fn from(fault: RunFault) -> Failure {
        match fault {
            RunFault::Memory => Failure::Memory,
            RunFault::Sink(_) => Failure::Write,
            RunFault::Tickets => Failure::Tickets,
            RunFault::Thread => Failure::Thread,
            RunFault::Incomplete => Failure::Incomplete,
            RunFault::Cancelled => Failure::Cancelled,
        }
    }
}

impl From<TakeFault> for Failure {
    ghost from_gives = { λ fault e. e ≡ failure_of_take fault };

    fn from(fault: TakeFault) -> Failure {
        match fault {
            TakeFault::Memory => Failure::Memory,
            TakeFault::Spent | TakeFault::Busy { .. } => Failure::Tickets,
            TakeFault::Incomplete { .. } | TakeFault::Away => Failure::Incomplete,
        }
    }
}
