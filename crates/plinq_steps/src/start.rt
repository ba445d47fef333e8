ghost use Rattle.std.specs.Prelude.{◌≡◌, ⊤, refl, Option, Some};
ghost use Rattle.plinq_steps.specs.Makes.{some_item, one_item};

use crate::steps::Steps;
use std::marker::PhantomData;

/// No step: the items as they are.
#[derive(Drop)]
pub struct Start<T> {
    item: PhantomData<T>,
}

impl<T> Start<T> {
    pub fn new() -> Start<T> {
        Start { item: PhantomData }
    }
}

impl<T: Copy> Steps for Start<T> {
    type From = T;

    type To = T;

    ghost is_called = { λ _. ⊤ };

    ghost in_one_way = { λ _. ⊤ };

    ghost gives = { λ _. ⊤ };

    ghost gives_one = { λ _. ⊤ };

    ghost makes = { λ _ x r. r ≡ Some x };

    #[inline(always)]
    fn step(&self, x: T) -> Option<T> {
        Some(x)
    }

    fn keeps_all(&self) -> bool {
        true
    }

    ghost one_call = { λ s way a b. refl };

    ghost makes_some = { λ s some x. some_item x };

    ghost makes_one = { λ s one x r q. one_item x r q };
}
