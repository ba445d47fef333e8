ghost use Rattle.std.specs.Prelude.{◌≡◌, ℕ, ◌∷◌, Bool, Result};
ghost use Rattle.std.specs.Coded.{Π_prop, ×_prop};
ghost use Rattle.plinq_closures.specs.Functions.{tests};
ghost use Rattle.plinq_closures.specs.Steps.{over, here_or, IsNothing, DoesThen};
ghost use Rattle.plinq_closures.specs.Laws.{nothing_given, nothing_else, some_then, one_then, comes_to-tested};

use crate::block_closures::{count_each, filter_each, nothing_done};
use crate::steps::Steps;
use plinq_ops::Op;

/// These steps, and then one of this kind that tests each item by a closure.
#[derive(Drop)]
pub struct Tested<S, P> {
    pub before: S,
    pub kind: Op<()>,
    pub by: P,
}

impl<S: Steps, P: Fn(S::Item) -> Result<bool, u32>> Steps for Tested<S, P> {
    type Item = S::Item;

    ghost is_called = { λ s. ((x : S.Item) → P.pre s.by x) × S.is_called s.before };

    ghost in_one_way = { λ s. ((x : S.Item) (a b : P.pre s.by x) → a ≡ b) × S.in_one_way s.before };

    ghost gives = { λ s. ((x : S.Item) → (r : Result Bool ℕ) × P.post s.by x r) × S.gives s.before };

    ghost gives_one = { λ s. ((x : S.Item) (r q : Result Bool ℕ) → P.post s.by x r → P.post s.by x q → q ≡ r) × S.gives_one s.before };

    ghost does = { λ s ops. DoesThen (S.does s.before) (P.post s.by) (λ f. over (λ _. tests f) s.kind) ops };

    ghost kinds = { λ s. s.kind ∷ S.kinds s.before };

    ghost maps = { λ s at x r. here_or (IsNothing r) (λ n. S.maps s.before n x r) at };

    ghost tests = { λ s at x r. here_or (P.post s.by x r) (λ n. S.tests s.before n x r) at };

    fn count(&self) -> Option<u64> {
        self.before.count()?.checked_add(1)
    }

    fn kind(&self, at: u64) -> Op<()> {
        if at == 0 {
            self.kind
        } else {
            self.before.kind(at - 1)
        }
    }

    fn map(&self, at: u64, x: S::Item) -> Result<S::Item, u32> {
        if at == 0 {
            Err(0)
        } else {
            self.before.map(at - 1, x)
        }
    }

    fn test(&self, at: u64, x: S::Item) -> Result<bool, u32> {
        if at == 0 {
            (self.by)(x)
        } else {
            self.before.test(at - 1, x)
        }
    }

    fn map_block(&self, at: u64, block: &mut [S::Item]) -> (usize, Option<u32>) {
        if at == 0 {
            nothing_done(block)
        } else {
            self.before.map_block(at - 1, block)
        }
    }

    fn filter_block(&self, at: u64, block: &mut [S::Item]) -> (usize, Option<u32>) {
        if at == 0 {
            filter_each(&self.by, block)
        } else {
            self.before.filter_block(at - 1, block)
        }
    }

    fn count_passing(&self, at: u64, block: &[S::Item]) -> (usize, Option<u32>) {
        if at == 0 {
            count_each(&self.by, block)
        } else {
            self.before.count_passing(at - 1, block)
        }
    }

    ghost one_call = { λ s way. ×_prop (Π_prop way.0) (S.one_call s.before way.1) };

    ghost map_gives = { λ s some. some_then (λ x r. IsNothing r) (S.maps s.before) nothing_given (S.map_gives s.before some.1) };

    ghost test_gives = { λ s some. some_then (P.post s.by) (S.tests s.before) some.0 (S.test_gives s.before some.1) };

    ghost map_gives_one = { λ s one. one_then (λ x r. IsNothing r) (S.maps s.before) nothing_else (S.map_gives_one s.before one.1) };

    ghost test_gives_one = { λ s one. one_then (P.post s.by) (S.tests s.before) one.0 (S.test_gives_one s.before one.1) };

    ghost comes_to = { λ s one. comes_to-tested (S.kinds s.before) (S.maps s.before) (S.tests s.before) (S.does s.before)
        s.kind (P.post s.by) one.0 (S.comes_to s.before one.1) };
}
