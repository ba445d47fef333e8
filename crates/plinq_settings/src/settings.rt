use crate::degree::Degree;
use plinq_ops::MergeOption;

/// What the command line asks for; the first two count as settings calls at the head of the query.
#[derive(Clone, Copy, Debug, PartialEq, Eq)]
pub struct Settings {
    /// The degree of parallelism.
    pub workers: Option<Degree>,
    /// The merge option.
    pub merge: Option<MergeOption>,
    /// After how many batches a run is cancelled.
    pub cancel_after: Option<u64>,
}
