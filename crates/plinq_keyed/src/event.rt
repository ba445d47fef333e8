/// What an enumerator was asked to do.
#[derive(Clone, Copy, Debug, PartialEq, Eq)]
pub enum Event {
    /// To hand out the next items, at most that many.
    Ask(u64),
    /// To hand out no more.
    Close,
}
