use crate::tail::Tail;

/// Elements that stand one after another in a source: item `i` has key `first + i`.
///
/// A chunk with a tail is the last one: nothing comes after its items.
#[derive(Debug, Drop, PartialEq, Eq)]
pub struct Chunk<T> {
    /// The key of the first item, also if there are none.
    pub first: u64,
    /// The elements, in the source's order.
    pub items: Vec<T>,
    /// Why nothing comes after them; none if more may come.
    pub tail: Option<Tail>,
}
