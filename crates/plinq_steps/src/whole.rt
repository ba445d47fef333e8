ghost use Rattle.std.specs.Prelude.{◌≡◌, refl, ⊤, Option, Some, [], false};
ghost use Rattle.plinq_steps.specs.Means.{Unchanged, unchanged_on, unchanged_few, not_ended};

use crate::positional::Positional;
use std::marker::PhantomData;

/// No step by position: all items as they come.
#[derive(Drop)]
pub struct Whole<T> {
    item: PhantomData<T>,
}

impl<T> Whole<T> {
    pub fn new() -> Whole<T> {
        Whole { item: PhantomData }
    }
}

impl<T: Copy> Positional for Whole<T> {
    type From = T;

    type To = T;

    ghost is_called = { λ _. ⊤ };

    ghost in_one_way = { λ _. ⊤ };

    ghost gives_one = { λ _. ⊤ };

    ghost turns = { λ _ x r _. r ≡ Some x };

    ghost ended = { λ _. false };

    ghost means = { λ _ g d. Unchanged g d };

    #[inline(always)]
    fn next(&mut self, x: T) -> Option<T> {
        Some(x)
    }

    #[inline(always)]
    fn has_ended(&self) -> bool {
        false
    }

    fn needs(&self, count: u64) -> Option<u64> {
        Some(count)
    }

    ghost one_call = { λ s way a b. refl };

    ghost goes_on = { λ s one more g d means x o t is. unchanged_on g d means x o is };

    ghost at_end = { λ s ended g d means xs. not_ended ended };

    ghost of_none = { λ s more g d means. (means.0 [], means.1 []) };

    ghost few = { λ s g d means xs. unchanged_few g d means xs };
}
