ghost use Rattle.std.specs.Prelude.{◌≡◌, ℕ, Result, Err};
ghost use Rattle.std.specs.Coded.{Π_prop};
ghost use Rattle.plinq_closures.specs.inner.Only.{MayCall, MayCall-prop, HasOne, HasOne-prop, answer_in};

use crate::steps::Steps;
use plinq_lambda::{ExpandFault, Lambda};
use std::alloc::Global;

/// The step of this number as a lambda, so that a query over one type has all steps of a chain.
#[derive(Drop)]
pub(crate) struct At<'a, S: Steps> {
    pub(crate) steps: &'a S,
    pub(crate) at: u64,
    ghost called: { MayCall (S.is_called steps.now) } by { MayCall-prop (S.is_called steps.now) },
    ghost one_map: { (x : S.Item) → HasOne (S.maps steps.now at x) } by { Π_prop λ x. HasOne-prop (S.maps steps.now at x) },
    ghost one_test: { (x : S.Item) → HasOne (S.tests steps.now at x) } by { Π_prop λ x. HasOne-prop (S.tests steps.now at x) },
}

impl<'a, S: Steps> Lambda for At<'a, S> {
    type Item = S::Item;

    ghost meaning = { λ l. record { map = λ x. answer_in (l.one_map x); test = λ x. answer_in (l.one_test x); expand = λ x. Err 0 } };

    ghost short = { λ _ _. tt };

    fn map(&self, x: S::Item) -> Result<S::Item, u32> {
        self.steps.map(self.at, x)
    }

    fn test(&self, x: S::Item) -> Result<bool, u32> {
        self.steps.test(self.at, x)
    }

    // (the step is looked up once a block)
    fn map_block(&self, block: &mut [S::Item]) -> (usize, Option<u32>) {
        self.steps.map_block(self.at, block)
    }

    fn filter_block(&self, block: &mut [S::Item]) -> (usize, Option<u32>) {
        self.steps.filter_block(self.at, block)
    }

    fn count_passing(&self, block: &[S::Item]) -> (usize, Option<u32>) {
        self.steps.count_passing(self.at, block)
    }

    fn expand(&self, _: Global, _: S::Item) -> Result<Vec<S::Item>, ExpandFault> {
        Err(ExpandFault::Code(0))
    }
}
