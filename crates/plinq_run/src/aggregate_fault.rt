use crate::run_fault::RunFault;
use plinq_source::Ending;
use thiserror::Error;

/// Why a query has no aggregate.
#[derive(Clone, Copy, Debug, PartialEq, Eq, Error)]
pub enum AggregateFault {
    /// The answer ended so, and not with [`Ending::End`].
    #[error("the answer didn't end well")]
    Ended(Ending),
    /// The run has no answer.
    #[error("{0}")]
    Run(RunFault),
}
