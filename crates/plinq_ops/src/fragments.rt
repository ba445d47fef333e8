use crate::frag_end::FragEnd;

/// What the worker part of a plan gives for one keyed element.
#[derive(Debug, Drop, PartialEq, Eq)]
pub struct Fragment<T> {
    /// The items in order.
    pub items: Vec<T>,
    /// How the run goes on.
    pub ending: FragEnd,
}
