use plinq_ops::BuildFault;
use plinq_run::RunFault;
use plinq_source::Ending;
use thiserror::Error;

/// Why a chain has no answer.
#[derive(Clone, Copy, Debug, PartialEq, Eq, Error)]
pub enum ChainFault {
    /// The query can't be built.
    #[error("{0}")]
    Build(BuildFault),
    /// The answer ended with a fault or a refusal.
    #[error("the answer didn't end well")]
    Ended(Ending),
    /// The run has no answer.
    #[error("{0}")]
    Run(RunFault),
}
