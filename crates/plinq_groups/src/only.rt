/// What [`Single`](crate::Single) finds.
#[derive(Clone, Copy, Debug, Drop, PartialEq)]
pub enum Only<T> {
    /// There is no item.
    NoElements,
    /// There is this one alone.
    One(T),
    /// There are several.
    MoreThanOne,
}
