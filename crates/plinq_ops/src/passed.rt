use plinq_source::Ending;

/// What becomes of one item at an operator.
#[derive(Clone, Copy)]
pub(crate) enum Passed {
    /// It goes on.
    Item,
    /// It goes on, and after it the operator takes no other.
    Last,
    /// It is dropped.
    Nothing,
    /// It is dropped, and the run ends.
    Ends(Ending),
}
