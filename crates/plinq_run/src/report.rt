use plinq_keyed::Record;
use plinq_source::Ending;

/// What a run reports when it has delivered its answer.
#[derive(Debug, Drop)]
pub struct Report {
    /// How the answer ended.
    pub ending: Ending,
    /// The history of the requests to the source.
    pub records: Vec<Record>,
}
