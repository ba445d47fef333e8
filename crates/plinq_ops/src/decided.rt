ghost use Rattle.std.specs.Prelude.{◌≡◌};
ghost use Rattle.std.specs.List.{list_any};
ghost use Rattle.plinq_ops.specs.Feeding.{is_empty_take};

use crate::op::Op;

/// Whether an operator is a Take of none.
fn is_empty_take<L>(op: &Op<L>) -> bool
    ensures { result ≡ is_empty_take op.now }
{
    matches!(op, Op::Take(n) if *n <= 0)
}

/// Whether some operator is a Take of none, so that the answer is nothing and the end, whatever the source holds.
pub(crate) fn is_decided<L>(ops: &[Op<L>]) -> bool
    ensures { result ≡ list_any is_empty_take ops.now }
{
    ops.iter().any(|op| is_empty_take(op))
}
