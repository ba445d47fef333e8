/// A piece of a line.
#[derive(Clone, Copy)]
pub(crate) enum Piece<'a> {
    /// A text, as it is.
    Text(&'a str),
    /// A count, by its decimal.
    Count(u64),
    /// A whole number, by its decimal, which begins with `-` below zero.
    Number(i64),
    /// A whole number of up to 128 bits, in the same way.
    Value(i128),
}
