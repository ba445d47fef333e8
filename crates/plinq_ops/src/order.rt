/// In which order a query's results are merged.
#[derive(Clone, Copy, Debug, PartialEq, Eq)]
pub enum Order {
    /// By the keys of the source's elements, for a query with `as_ordered`.
    ByKey,
    /// As they arrive.
    ByArrival,
}
