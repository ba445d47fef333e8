ghost use Rattle.std.specs.Prelude.{◌≡◌, [], ⊤, refl};
ghost use Rattle.plinq_closures.specs.Steps.{IsNothing};
ghost use Rattle.plinq_closures.specs.Laws.{nothing_given, nothing_else, no_steps};

use crate::block_closures::nothing_done;
use crate::steps::Steps;
use plinq_ops::Op;
use std::marker::PhantomData;

/// No step: the items as they are.
#[derive(Drop)]
pub struct Whole<T> {
    item: PhantomData<T>,
}

impl<T> Whole<T> {
    pub(crate) fn new() -> Whole<T> {
        Whole { item: PhantomData }
    }
}

impl<T: Copy> Steps for Whole<T> {
    type Item = T;

    ghost is_called = { λ _. ⊤ };

    ghost in_one_way = { λ _. ⊤ };

    ghost gives = { λ _. ⊤ };

    ghost gives_one = { λ _. ⊤ };

    ghost does = { λ _ ops. ops ≡ [] };

    ghost kinds = { λ _. [] };

    ghost maps = { λ _ at x r. IsNothing r };

    ghost tests = { λ _ at x r. IsNothing r };

    fn count(&self) -> Option<u64> {
        Some(0)
    }

    fn kind(&self, _: u64) -> Op<()> {
        Op::AsUnordered
    }

    fn map(&self, _: u64, _: T) -> Result<T, u32> {
        Err(0)
    }

    fn test(&self, _: u64, _: T) -> Result<bool, u32> {
        Err(0)
    }

    fn map_block(&self, _: u64, block: &mut [T]) -> (usize, Option<u32>) {
        nothing_done(block)
    }

    fn filter_block(&self, _: u64, block: &mut [T]) -> (usize, Option<u32>) {
        nothing_done(block)
    }

    fn count_passing(&self, _: u64, block: &[T]) -> (usize, Option<u32>) {
        nothing_done(block)
    }

    ghost one_call = { λ s way a b. refl };

    ghost map_gives = { λ s some at x. nothing_given x };

    ghost test_gives = { λ s some at x. nothing_given x };

    ghost map_gives_one = { λ s one at x. nothing_else x };

    ghost test_gives_one = { λ s one at x. nothing_else x };

    ghost comes_to = { λ s one m is ops does. no_steps m ops does };
}
