use crate::event::Event;
use crate::tail::Tail;

/// One request to an enumerator, and what was handed out for it.
#[derive(Clone, Copy, Debug, PartialEq, Eq)]
pub struct Record {
    /// The ticket under which the request came; tickets rise strictly.
    pub ticket: u64,
    /// The request.
    pub asked: Event,
    /// The key of the first item that was handed out, or that would have come next.
    pub first: u64,
    /// How many items were handed out.
    pub count: u64,
    /// The tail of the chunk that was handed out. A request to close has [`Tail::Closed`].
    pub tail: Option<Tail>,
}
