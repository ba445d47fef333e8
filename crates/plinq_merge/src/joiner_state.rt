use plinq_source::Ending;

/// How a joiner stands.
#[derive(Clone, Copy, Debug, PartialEq, Eq)]
pub(crate) enum JoinerState {
    /// The answer is open.
    Open,
    /// The answer is decided, and all its batches were delivered.
    Decided(Ending),
    /// A batch couldn't be delivered.
    Failed,
}
