ghost use Rattle.std.specs.Prelude.{◌≡◌, refl};
ghost use Rattle.std.proofs.Common.{◌∙◌, sym};
ghost use Rattle.plinq_steps.specs.Makes.{GivesThen, Passes, some_then, one_then, some_passed, one_passed};

use crate::steps::Steps;

/// These steps, and then the items that equal one.
#[derive(Drop)]
pub struct Equal<S: Steps> {
    pub before: S,
    pub to: S::To,
}

impl<S: Steps<To: PartialEq>> Steps for Equal<S> {
    type From = S::From;

    type To = S::To;

    ghost is_called = { λ s. S.is_called s.before };

    ghost in_one_way = { λ s. S.in_one_way s.before };

    ghost gives = { λ s. S.gives s.before };

    ghost gives_one = { λ s. S.gives_one s.before };

    ghost makes = { λ s x r. GivesThen (S.makes s.before x) (Passes (λ y b. b ≡ S.To.eq y s.to)) r };

    #[inline(always)]
    fn step(&self, x: S::From) -> Option<S::To> {
        match self.before.step(x) {
            Some(y) => { if y == self.to { Some(y) } else { None } }
            None => None,
        }
    }

    ghost one_call = { λ s way. S.one_call s.before way };

    ghost makes_some = { λ s some x. some_then (S.makes s.before x) (Passes (λ y b. b ≡ S.To.eq y s.to)) (S.makes_some s.before some x)
        (some_passed (λ y b. b ≡ S.To.eq y s.to) (λ y. (S.To.eq y s.to, refl))) };

    ghost makes_one = { λ s one x. one_then (S.makes s.before x) (Passes (λ y b. b ≡ S.To.eq y s.to)) (S.makes_one s.before one x)
        (one_passed (λ y b. b ≡ S.To.eq y s.to) (λ y r q is so. so ∙ sym is)) };
}
