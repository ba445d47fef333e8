ghost use Rattle.std.specs.Prelude.{Ok, Err, int_lt, pos};

use crate::orders::Order;
use plinq_lambda::{ExpandFault, Lambda};
use std::alloc::Global;
use std::marker::PhantomData;

/// Keeps the orders that cost something.
#[derive(Clone, Copy)]
pub(crate) struct Paid<'a>(pub(crate) PhantomData<&'a str>);

impl<'a> Lambda for Paid<'a> {
    type Item = Order<'a>;

    ghost meaning = { λ _. record { map = λ order. Ok order; test = λ order. Ok (int_lt (pos 0) order.cents); expand = λ _. Err 1 } };

    ghost short = { λ _ _. tt };

    fn map(&self, order: Order<'a>) -> Result<Order<'a>, u32> {
        Ok(order)
    }

    fn test(&self, order: Order<'a>) -> Result<bool, u32> {
        Ok(0 < order.cents)
    }

    fn expand(&self, _: Global, _: Order<'a>) -> Result<Vec<Order<'a>>, ExpandFault> {
        Err(ExpandFault::Code(1))
    }
}
