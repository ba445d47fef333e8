/// An element with the key that gives its place in the order.
#[derive(Clone, Copy, Debug, PartialEq, Eq)]
pub struct Keyed<T> {
    /// Its place: only how keys compare counts, but if they are normalized they are indexes.
    pub key: u64,
    /// The element itself.
    pub value: T,
}
