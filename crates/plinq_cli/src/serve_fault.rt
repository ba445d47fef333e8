ghost use Rattle.std.specs.Prelude.{◌≡◌};
ghost use Rattle.plinq_cli.specs.ServeFaults.{serve_fault_of, serve_fault_of_delivery, serve_fault_of_run};
ghost use Rattle.plinq_cli.specs.declared.serve_fault.ServeFault.TheVariants.{Memory, Write};

use plinq_lines::WriteFault;
use plinq_merge::DeliveryFault;
use plinq_partition::TakeFault;
use plinq_run::RunFault;
use plinq_source::OutOfMemory;
use thiserror::Error;

/// Why a command has no answer.
#[derive(Clone, Copy, Debug, PartialEq, Eq, Error)]
pub enum ServeFault {
    /// Memory ran out, but in a run.
    #[error("out of memory")]
    Memory,
    /// The writer took no more.
    #[error("write failed")]
    Write,
    /// A run broke off; never since the writer took no more.
    #[error("{0}")]
    Run(RunFault),
    /// A partition was given no chunk, or the enumerator wasn't given back; never since memory ran out.
    #[error("{0}")]
    Take(TakeFault),
}

impl From<OutOfMemory> for ServeFault {
    ghost from_gives = { λ _ e. e ≡ Memory };

    fn from(_: OutOfMemory) -> ServeFault {
        ServeFault::Memory
    }
}

impl From<WriteFault> for ServeFault {
    ghost from_gives = { λ _ e. e ≡ Write };

    fn from(_: WriteFault) -> ServeFault {
        ServeFault::Write
    }
}

impl From<DeliveryFault> for ServeFault {
    ghost from_gives = { λ fault e. e ≡ serve_fault_of_delivery fault };

    fn from(fault: DeliveryFault) -> ServeFault {
        match fault {
            DeliveryFault::Memory => ServeFault::Memory,
            DeliveryFault::Sink(_) => ServeFault::Write,
        }
    }
}

impl From<TakeFault> for ServeFault {
    ghost from_gives = { λ fault e. e ≡ serve_fault_of fault };

    fn from(fault: TakeFault) -> ServeFault {
        match fault {
            TakeFault::Memory => ServeFault::Memory,
            _ => ServeFault::Take(fault),
        }
    }
}

impl From<RunFault> for ServeFault {
    ghost from_gives = { λ fault e. e ≡ serve_fault_of_run fault };

    fn from(fault: RunFault) -> ServeFault {
        match fault {
            RunFault::Sink(_) => ServeFault::Write,
            _ => ServeFault::Run(fault),
        }
    }
}
