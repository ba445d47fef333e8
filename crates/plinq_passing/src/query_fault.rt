use plinq_enumerator::GrowthFault;
use plinq_run::RunFault;
use plinq_source::Ending;
use thiserror::Error;

/// Why a query has no answer.
#[derive(Clone, Copy, Debug, PartialEq, Eq, Error)]
pub enum QueryFault {
    /// The number of workers isn't from 1 to 64.
    #[error("a query has 1 to 64 workers")]
    Degree,
    /// The numbers of the growth make none.
    #[error("{0}")]
    Growth(GrowthFault),
    /// The source refused, or the answer ended with a fault.
    #[error("the query ended with {0:?}")]
    Ended(Ending),
    /// The run has no answer.
    #[error("{0}")]
    Run(RunFault),
}
