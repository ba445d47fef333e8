ghost use Rattle.std.specs.Prelude.{List, ℕ, ◌∷◌, ◌++◌, Some, Ok, string_bytes};

use crate::orders::Order;
use plinq_groups::{MakeOf, MapFault};
use std::alloc::Global;
use std::marker::{Model, PhantomData};

/// A line of a list of orders. A contract sees its bytes.
#[derive(Drop)]
pub(crate) struct Line {
    pub(crate) text: String,
}

impl Model for Line {
    ghost Value = { List ℕ };

    ghost view = { λ line. string_bytes line.text };
}

/// Makes the line of an order: the customer and the article.
#[derive(Drop)]
pub(crate) struct Print<'a>(pub(crate) PhantomData<&'a str>);

impl<'a> MakeOf for Print<'a> {
    type Item = Order<'a>;

    type Made = Line;

    ghost makes = { λ _ order. Ok (Some (order.customer.now ++ 58 ∷ 32 ∷ order.article.now)) };

    fn make_of(&self, alloc: Global, order: Order<'a>) -> Result<Option<Line>, MapFault> {
        let mut text = String::new(alloc);
        text.push_str(order.customer)?;
        text.push_str(": ")?;
        text.push_str(order.article)?;
        Ok(Some(Line { text }))
    }
}
