/// Why a chunk is the last of its enumerator.
#[derive(Clone, Copy, Debug, PartialEq, Eq)]
pub enum Tail {
    /// The source has ended.
    Ended,
    /// The source refused to go on, with a code of its own.
    Refused(u32),
    /// The enumerator was closed before.
    Closed,
}
