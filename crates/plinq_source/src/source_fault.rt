use thiserror::Error;

/// Why a source can't be made.
#[derive(Clone, Copy, Debug, PartialEq, Eq, Error)]
pub enum SourceFault {
    /// It would have more than 2^40 items, or its last item wouldn't be an `i64`.
    #[error("source too large")]
    TooLarge,
}
