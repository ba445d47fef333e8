use plinq_source::Ending;

/// The fold of an answer's items, and how the answer ends.
#[derive(Debug, Drop)]
pub struct Combined<C> {
    /// The accumulator of the answer's items.
    pub acc: C,
    /// How the answer ends.
    pub ending: Ending,
}
