//! What orders are grouped, added up and compared by.
ghost use Rattle.plinq_orders_example.specs.declared.orders.Order.{Order};

use crate::orders::Order;
use plinq_groups::{FieldOf, KeyOf, RankOf};
use std::marker::PhantomData;

/// The customer of an order.
#[derive(Clone, Copy)]
pub(crate) struct Customer<'a>(pub(crate) PhantomData<&'a str>);

impl<'a> KeyOf for Customer<'a> {
    type Item = Order<'a>;

    type Key = &'a str;

    ghost keys = { λ _ order. order.customer };

    fn key_of(&self, order: Order<'a>) -> &'a str {
        order.customer
    }
}

/// What an order costs.
#[derive(Clone, Copy)]
pub(crate) struct Cents<'a>(pub(crate) PhantomData<&'a str>);

impl<'a> FieldOf for Cents<'a> {
    type Item = Order<'a>;

    type Field = i64;

    ghost fields = { λ _ order. order.cents };

    fn field_of(&self, order: Order<'a>) -> i64 {
        order.cents
    }
}

impl<'a> RankOf for Cents<'a> {
    type Item = Order<'a>;

    type Rank = i64;

    ghost ranks = { λ _ order. order.cents };

    fn rank_of(&self, order: Order<'a>) -> i64 {
        order.cents
    }
}
