ghost use Rattle.std.specs.Prelude.{◌∷◌};
ghost use Rattle.plinq_closures.specs.Functions.{tests};
ghost use Rattle.plinq_closures.specs.Steps.{over, here_or, IsNothing, does_nothing, DoesThen};
ghost use Rattle.plinq_closures.specs.Laws.{nothing_given, nothing_else, some_then, one_then, comes_to-tested};

use crate::block_closures::nothing_done;
use crate::steps::Steps;
use plinq_ops::Op;

/// These steps, and then one that counts items, as a Take does.
#[derive(Drop)]
pub struct Counted<S> {
    pub before: S,
    pub kind: Op<()>,
}

impl<S: Steps> Steps for Counted<S> {
    type Item = S::Item;

    ghost is_called = { λ s. S.is_called s.before };

    ghost in_one_way = { λ s. S.in_one_way s.before };

    ghost gives = { λ s. S.gives s.before };

    ghost gives_one = { λ s. S.gives_one s.before };

    ghost does = { λ s ops. DoesThen (S.does s.before) does_nothing (λ f. over (λ _. tests f) s.kind) ops };

    ghost kinds = { λ s. s.kind ∷ S.kinds s.before };

    ghost maps = { λ s at x r. here_or (IsNothing r) (λ n. S.maps s.before n x r) at };

    ghost tests = { λ s at x r. here_or (IsNothing r) (λ n. S.tests s.before n x r) at };

    fn count(&self) -> Option<u64> {
        self.before.count()?.checked_add(1)
    }

    fn kind(&self, at: u64) -> Op<()> {
        if at == 0 {
            self.kind
        } else {
            self.before.kind(at - 1)
        }
    }

    fn map(&self, at: u64, x: S::Item) -> Result<S::Item, u32> {
        if at == 0 {
            Err(0)
        } else {
            self.before.map(at - 1, x)
        }
    }

    fn test(&self, at: u64, x: S::Item) -> Result<bool, u32> {
        if at == 0 {
            Err(0)
        } else {
            self.before.test(at - 1, x)
        }
    }

    fn map_block(&self, at: u64, block: &mut [S::Item]) -> (usize, Option<u32>) {
        if at == 0 {
            nothing_done(block)
        } else {
            self.before.map_block(at - 1, block)
        }
    }

    fn filter_block(&self, at: u64, block: &mut [S::Item]) -> (usize, Option<u32>) {
        if at == 0 {
            nothing_done(block)
        } else {
            self.before.filter_block(at - 1, block)
        }
    }

    fn count_passing(&self, at: u64, block: &[S::Item]) -> (usize, Option<u32>) {
        if at == 0 {
            nothing_done(block)
        } else {
            self.before.count_passing(at - 1, block)
        }
    }

    ghost one_call = { λ s way. S.one_call s.before way };

    ghost map_gives = { λ s some. some_then (λ x r. IsNothing r) (S.maps s.before) nothing_given (S.map_gives s.before some) };

    ghost test_gives = { λ s some. some_then (λ x r. IsNothing r) (S.tests s.before) nothing_given (S.test_gives s.before some) };

    ghost map_gives_one = { λ s one. one_then (λ x r. IsNothing r) (S.maps s.before) nothing_else (S.map_gives_one s.before one) };

    ghost test_gives_one = { λ s one. one_then (λ x r. IsNothing r) (S.tests s.before) nothing_else (S.test_gives_one s.before one) };

    ghost comes_to = { λ s one. comes_to-tested (S.kinds s.before) (S.maps s.before) (S.tests s.before) (S.does s.before)
        s.kind does_nothing nothing_else (S.comes_to s.before one) };
}
