ghost use Rattle.plinq_collect.specs.Equal.{IsTestOf};

use plinq_lambda::{Formula, Lambda};

/// A lambda that can test whether an item equals a given one.
pub trait EqualTo: Lambda<Item: PartialEq> {
    /// The lambda whose test the items pass that equal this one, and no others.
    fn equal_to(item: Self::Item) -> Self
        ensures { IsTestOf Self.Item.eq (Self.meaning result) item };
}

impl EqualTo for Formula {
    fn equal_to(item: i64) -> Formula {
        Formula::Equal(item)
    }
}
