/// Whether a merger still wants results.
#[derive(Clone, Copy, Debug, PartialEq, Eq)]
pub enum More {
    /// The answer is open.
    Yes,
    /// The answer is decided: whatever else is offered changes nothing.
    No,
}
