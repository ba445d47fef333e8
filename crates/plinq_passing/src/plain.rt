ghost use Rattle.std.specs.Prelude.{◌≡◌, Err};

use plinq_lambda::{ExpandFault, Lambda};
use std::alloc::Global;
use std::marker::PhantomData;

/// The lambda of a query without an operator.
#[derive(Drop)]
pub(crate) struct Plain<T> {
    item: PhantomData<T>,
}

impl<T: Copy> Lambda for Plain<T> {
    type Item = T;

    ghost meaning = { λ _. record { map = λ x. Err 0; test = λ x. Err 0; expand = λ x. Err 0 } };

    ghost short = { λ _ _. tt };

    fn map(&self, _: T) -> Result<T, u32> {
        Err(0)
    }

    fn test(&self, _: T) -> Result<bool, u32> {
        Err(0)
    }

    fn expand(&self, _: Global, _: T) -> Result<Vec<T>, ExpandFault> {
        Err(ExpandFault::Code(0))
    }
}
