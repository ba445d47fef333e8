//! How many items a run asks its source for, where that is known before it begins.
ghost use Rattle.std.specs.Prelude.{◌≡◌, ◌≤◌, ◌^◌, List, Bool, Option, length};
ghost use Rattle.plinq_source.specs.Trace.{Trace};
ghost use Rattle.plinq_passing.specs.inner.Limits.{limited};
ghost use Rattle.plinq_passing.specs.Ran.{left_trace};

use plinq_steps::{Positional, Steps};

/// After how many of a source's items it is decided what is left of what is made of them, if that is known before one comes; else more
/// than any source has.
pub(crate) fn limit_of<S: Steps, L: Positional<From = S::To>>(steps: &S, later: &L) -> u64
    ensures { (f : S.From → Option S.To) → ((x : S.From) → S.makes steps.now x (f x)) → (g : List S.To → List L.To) (d : List S.To → Bool)
        → L.means later.now g d → (t : Trace S.From) → length t.items ≤ 2 ^ 40 → left_trace f g d (limited result t) ≡ left_trace f g d t }
{
    if !steps.keeps_all() {
        return u64::MAX;
    }
    match later.enough() {
        Some(n) => n,
        None => u64::MAX,
    }
}
