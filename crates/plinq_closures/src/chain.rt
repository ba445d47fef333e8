ghost use Rattle.std.specs.Prelude.{◌≡◌};
ghost use Rattle.plinq_ops.specs.declared.op.Op.{Op};

use crate::counted::Counted;
use crate::mapped::Mapped;
use crate::steps::Steps;
use crate::tested::Tested;
use crate::whole::Whole;
use plinq_ops::Op;

/// The steps of a query, each a closure or a count, in the order in which they are applied.
///
/// ```text
/// let chain = Chain::new()
///     .filter(|x: i64| -> Result<bool, u32> ensures { result ≡ Ok (int_lt (pos 0) x) } { Ok(x > 0) })
///     .take(10);
/// let (items, ending) = chain.to_vec(&rt, alloc, 4, source)?;
/// ```
///
/// A closure answers a value, or `Err(code)`, which is the query's fault. Its clause says what it answers to each item.
#[derive(Drop)]
pub struct Chain<S> {
    pub steps: S,
}

impl<T> Chain<Whole<T>> {
    /// No step: the items of a source as they are.
    pub fn new() -> Chain<Whole<T>> {
        Chain {
            steps: Whole::new(),
        }
    }
}

impl<S: Steps> Chain<S> {
    /// Maps each item (.NET's `Select`, rayon's `map`).
    pub fn select<F: Fn(S::Item) -> Result<S::Item, u32>>(self, by: F) -> Chain<Mapped<S, F>>
        ensures { (result.steps.before ≡ self.steps) × (result.steps.by ≡ by) }
    {
        Chain {
            steps: Mapped {
                before: self.steps,
                by,
            },
        }
    }

    /// Keeps the items that pass (.NET's `Where`, rayon's `filter`).
    pub fn filter<P: Fn(S::Item) -> Result<bool, u32>>(self, by: P) -> Chain<Tested<S, P>>
        ensures { (result.steps.before ≡ self.steps) × (result.steps.kind ≡ Op.Filter tt) × (result.steps.by ≡ by) }
    {
        tested(self, Op::Filter(()), by)
    }

    /// Keeps the items before the first that fails (.NET's `TakeWhile`).
    pub fn take_while<P: Fn(S::Item) -> Result<bool, u32>>(self, by: P) -> Chain<Tested<S, P>>
        ensures { (result.steps.before ≡ self.steps) × (result.steps.kind ≡ Op.TakeWhile tt) × (result.steps.by ≡ by) }
    {
        tested(self, Op::TakeWhile(()), by)
    }

    /// Passes over the items before the first that fails (.NET's `SkipWhile`).
    pub fn skip_while<P: Fn(S::Item) -> Result<bool, u32>>(self, by: P) -> Chain<Tested<S, P>>
        ensures { (result.steps.before ≡ self.steps) × (result.steps.kind ≡ Op.SkipWhile tt) × (result.steps.by ≡ by) }
    {
        tested(self, Op::SkipWhile(()), by)
    }

    /// Keeps the first `n` items, none if `n` is negative (.NET's `Take`).
    pub fn take(self, n: i64) -> Chain<Counted<S>>
        ensures { (result.steps.before ≡ self.steps) × (result.steps.kind ≡ Op.Take n) }
    {
        Chain {
            steps: Counted {
                before: self.steps,
                kind: Op::Take(n),
            },
        }
    }

    /// Passes over the first `n` items, none if `n` is negative (.NET's `Skip`).
    pub fn skip(self, n: i64) -> Chain<Counted<S>>
        ensures { (result.steps.before ≡ self.steps) × (result.steps.kind ≡ Op.Skip n) }
    {
        Chain {
            steps: Counted {
                before: self.steps,
                kind: Op::Skip(n),
            },
        }
    }
}

/// The chain with a step of this kind at its end.
fn tested<S, P>(chain: Chain<S>, kind: Op<()>, by: P) -> Chain<Tested<S, P>>
    ensures { (result.steps.before ≡ chain.steps) × (result.steps.kind ≡ kind) × (result.steps.by ≡ by) }
{
    Chain {
        steps: Tested {
            before: chain.steps,
            kind,
            by,
        },
    }
}
