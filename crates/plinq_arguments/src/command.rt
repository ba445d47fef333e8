/// What the program is asked to do with a document.
#[derive(Clone, Copy, Debug, PartialEq, Eq)]
pub enum Command {
    /// Answers the query.
    Run,
    /// Answers the query on one thread.
    Seq,
    /// Shows how the query is shared among workers.
    Plan,
    /// Shows the source cut into partitions.
    Parts,
    /// Shows the requests of partitions that take from the source in turn.
    History,
}
