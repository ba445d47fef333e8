ghost use Rattle.std.specs.Prelude.{Ok, Err};

use crate::equal_to::EqualTo;
use plinq_lambda::{ExpandFault, Lambda};
use std::alloc::Global;

/// The lambda whose test the items pass that equal this one: for a query that has no step, over items of any type.
///
/// ```text
/// let query = build::<Same<&str>, _>(alloc, |query| query.as_ordered()?.with_degree(4))?;
/// let is_there = contains(rt, alloc, query, lines_source(alloc, text)?, "a line")?;
/// ```
#[derive(Clone, Copy)]
pub struct Same<T>(pub T);

impl<T: Copy + PartialEq> Lambda for Same<T> {
    type Item = T;

    ghost meaning = { λ l. record { map = λ x. Ok x; test = λ x. Ok (T.eq x l.0); expand = λ x. Err 0 } };

    ghost short = { λ _ _. tt };

    fn map(&self, x: T) -> Result<T, u32> {
        Ok(x)
    }

    fn test(&self, x: T) -> Result<bool, u32> {
        Ok(x == self.0)
    }

    fn expand(&self, _: Global, _: T) -> Result<Vec<T>, ExpandFault> {
        Err(ExpandFault::Code(0))
    }
}

impl<T: Copy + PartialEq> EqualTo for Same<T> {
    fn equal_to(item: T) -> Same<T> {
        Same(item)
    }
}
