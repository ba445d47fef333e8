ghost use Rattle.std.specs.Prelude.{◌≡◌};
ghost use Rattle.plinq_ops.specs.Operator.{counted_off, needed, keeps_count, op_name, op_argument, op_named};

use crate::argument::Argument;
use crate::known::Known;
use plinq_lambda::Formula;
use plinq_words::{Named, first_named};

/// One operator of a query, over lambdas `L`.
#[derive(Clone, Copy, Debug, PartialEq, Eq, Drop)]
pub enum Op<L> {
    /// `Select`: each element mapped.
    Select(L),
    /// `Where`: the elements that pass.
    Filter(L),
    /// `SelectMany`: each element's expansion, one after another.
    SelectMany(L),
    /// `Take`: the first so many elements; a negative number counts as 0.
    Take(i64),
    /// `Skip`: all but the first so many elements; a negative number counts as 0.
    Skip(i64),
    /// `TakeWhile`: the elements before the first that fails.
    TakeWhile(L),
    /// `SkipWhile`: the elements from the first that fails on.
    SkipWhile(L),
    /// `AsUnordered`: from here on the order need not be kept, unless `as_ordered` was called.
    AsUnordered,
}

impl<L> Op<L> {
    /// How many items a Take or a Skip counts off; 0 at the others.
    pub(crate) fn counted_off(&self) -> u64
        ensures { result ≡ counted_off self.now }
    {
        match self {
            Op::Take(n) | Op::Skip(n) => (*n).max(0) as u64,
            _ => 0,
        }
    }

    /// What a worker must know of the elements that reach the operator to apply it; `None` if no worker can.
    pub(crate) fn needed(&self) -> Option<Known>
        ensures { result ≡ needed self.now }
    {
        match self {
            Op::Select(_) | Op::Filter(_) | Op::SelectMany(_) => Some(Known::Nothing),
            Op::Take(_) | Op::Skip(_) => Some(Known::Position),
            Op::TakeWhile(_) => Some(Known::Key),
            Op::SkipWhile(_) | Op::AsUnordered => None,
        }
    }

    /// Whether the key of an element says how many elements the operator has given before it.
    pub(crate) fn keeps_count(&self) -> bool
        ensures { result ≡ keeps_count self.now }
    {
        !matches!(self, Op::Filter(_) | Op::SelectMany(_))
    }
}

impl Named for Op<Formula> {
    ghost its_name = { op_name };

    fn name(&self) -> &'static str {
        match self {
            Op::Select(_) => "select",
            Op::Filter(_) => "filter",
            Op::SelectMany(_) => "select_many",
            Op::Take(_) => "take",
            Op::Skip(_) => "skip",
            Op::TakeWhile(_) => "take_while",
            Op::SkipWhile(_) => "skip_while",
            Op::AsUnordered => "as_unordered",
        }
    }
}

impl Op<Formula> {
    /// What stands after its name.
    pub fn argument(self) -> Argument
        ensures { result ≡ op_argument self }
    {
        match self {
            Op::Select(f) | Op::Filter(f) | Op::SelectMany(f) => Argument::Formula(f),
            Op::TakeWhile(f) | Op::SkipWhile(f) => Argument::Formula(f),
            Op::Take(n) | Op::Skip(n) => Argument::Number(n),
            Op::AsUnordered => Argument::Nothing,
        }
    }

    /// The operator of this name, with this after it. Takes no memory.
    ///
    /// ```text
    /// Op::named("take", Argument::Number(5))               // Some(Op::Take(5))
    /// Op::named("take", Argument::Formula(Formula::Even))   // None
    /// ```
    pub fn named(name: &str, argument: Argument) -> Option<Op<Formula>>
        ensures { result ≡ op_named argument name.now }
    {
        match argument {
            Argument::Nothing => first_named(&[Op::AsUnordered], name),
            Argument::Number(n) => first_named(&[Op::Take(n), Op::Skip(n)], name),
            Argument::Formula(f) => first_named(
                &[
                    Op::Select(f),
                    Op::Filter(f),
                    Op::SelectMany(f),
                    Op::TakeWhile(f),
                    Op::SkipWhile(f),
                ],
                name,
            ),
        }
    }
}
