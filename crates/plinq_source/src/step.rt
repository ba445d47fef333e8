/// What a source answers when it is asked for its next element.
#[derive(Clone, Copy, Debug, PartialEq, Eq)]
pub enum Step<T> {
    /// The next element.
    Item(T),
    /// There are no more.
    End,
    /// The source refuses to go on, with a code of its own.
    Refused(u32),
}
