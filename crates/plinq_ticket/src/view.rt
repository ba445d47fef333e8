use crate::standing::Standing;
use plinq_keyed::Record;
use plinq_source::Ending;
use std::collections::LinkedList;

/// What a pass knows. No value of it is made.
pub struct View<T> {
    pub standing: Standing,
    // The trace that the lock's value hands out.
    pub items: LinkedList<T>,
    pub ending: Option<Ending>,
    // The records that the pass found when it came inside.
    pub found: LinkedList<Record>,
    // The records that are the pass's own.
    pub share: LinkedList<Record>,
}
