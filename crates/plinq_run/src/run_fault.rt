use thiserror::Error;

/// Why a run gives no report. If there are several causes, the first of sink, cancellation, memory, thread, tickets and
/// missing results is reported.
#[derive(Clone, Copy, Debug, PartialEq, Eq, Error)]
pub enum RunFault {
    /// Memory ran out.
    #[error("out of memory")]
    Memory,
    /// The sink refused a batch, with its code.
    #[error("sink refused: {0}")]
    Sink(u32),
    /// All tickets were drawn.
    #[error("tickets spent")]
    Tickets,
    /// A thread couldn't be started.
    #[error("no thread")]
    Thread,
    /// What was given back isn't the whole history, a key came twice, or results are missing.
    #[error("incomplete")]
    Incomplete,
    /// Its token stopped it.
    #[error("cancelled")]
    Cancelled,
}
