ghost use Rattle.std.specs.Prelude.{◌≡◌, Option, Ok};
ghost use Rattle.std.specs.Coded.{Π_prop};
ghost use Rattle.plinq_closures.specs.inner.Only.{MayCall, MayCall-prop, HasOne, HasOne-prop, answer_in};

use plinq_groups::{MakeOf, MapFault};
use plinq_steps::Steps;
use std::alloc::Global;

/// What lent steps make of each item, as the workers of a run ask for it.
#[derive(Drop)]
pub(crate) struct Made<'a, S: Steps> {
    steps: &'a S,
    ghost called: { MayCall (S.is_called steps.now) } by { MayCall-prop (S.is_called steps.now) },
    ghost one: { (x : S.From) → HasOne (S.makes steps.now x) } by { Π_prop λ x. HasOne-prop (S.makes steps.now x) },
}

impl<'a, S: Steps<To: Send> + Sync> MakeOf for Made<'a, S> {
    type Item = S::From;

    type Made = S::To;

    ghost makes = { λ m x. Ok (answer_in (m.one x)) };

    #[inline(always)]
    fn make_of(&self, _: Global, x: S::From) -> Result<Option<S::To>, MapFault> {
        Ok(self.step_of(x))
    }
}

impl<'a, S: Steps> Made<'a, S> {
    pub(crate) fn of(steps: &'a S) -> Made<'a, S>
        requires is_called { S.is_called steps.now }
        requires in_one_way { S.in_one_way steps.now }
        requires gives { S.gives steps.now }
        requires gives_one { S.gives_one steps.now }
        ensures { result.steps.now ≡ steps.now }
    {
        Made { steps }
    }

    /// What they make of an item.
    #[inline(always)]
    pub(crate) fn step_of(&self, x: S::From) -> Option<S::To>
        ensures { result ≡ answer_in (self.now.one x) }
    {
        self.steps.step(x)
    }
}
