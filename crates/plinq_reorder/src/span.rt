/// What stands under the first key of an interval.
#[derive(Drop)]
pub struct Span<P> {
    /// The key after the last one.
    pub end: u64,
    /// What the interval carries.
    pub payload: P,
}
