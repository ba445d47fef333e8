/// How a source or a query ends.
#[derive(Clone, Copy, Debug, PartialEq, Eq)]
pub enum Ending {
    /// All items were given.
    End,
    /// The source refused to go on, with a code of its own.
    Refused(u32),
    /// A lambda of the query faulted, with its code.
    Fault(u32),
}
