use plinq_lambda::Formula;

/// What stands after an operator's name in documents and plans.
#[derive(Clone, Copy, Debug, PartialEq, Eq)]
pub enum Argument {
    /// Nothing.
    Nothing,
    /// A formula.
    Formula(Formula),
    /// A number of elements.
    Number(i64),
}
