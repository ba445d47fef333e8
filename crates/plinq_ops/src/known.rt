ghost use Rattle.std.specs.Prelude.{◌≡◌};
ghost use Rattle.plinq_ops.specs.ByKey.{can_apply, known_after};
ghost use Rattle.plinq_ops.specs.Plan.{known_at_source};

use crate::op::Op;
use crate::order::Order;

/// What a worker knows of an element that reaches an operator, beside the element.
#[derive(Clone, Copy, Debug, PartialEq, Eq)]
pub(crate) enum Known {
    /// Nothing.
    Nothing,
    /// The key of the source's element that it came from, which gives its order among the others.
    Key,
    /// The key, which says how many elements reach the operator before it, too.
    Position,
}

impl Known {
    /// What is known of a source's elements.
    pub(crate) fn at_source(order: Order) -> Known
        ensures { result ≡ known_at_source order }
    {
        match order {
            Order::ByKey => Known::Position,
            Order::ByArrival => Known::Nothing,
        }
    }

    /// Whether a worker that knows so much can apply the operator.
    pub(crate) fn can_apply<L>(self, op: &Op<L>) -> bool
        ensures { result ≡ can_apply self op.now }
    {
        match op.needed() {
            None => false,
            Some(Known::Nothing) => true,
            Some(Known::Key) => self != Known::Nothing,
            Some(Known::Position) => self == Known::Position,
        }
    }

    /// What is known after the operator.
    pub(crate) fn past<L>(self, op: &Op<L>) -> Known
        ensures { result ≡ known_after self op.now }
    {
        if self == Known::Position && !op.keeps_count() {
            return Known::Key;
        }
        self
    }
}
