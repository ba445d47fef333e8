ghost use Rattle.std.specs.Prelude.{◌≡◌, Bool, Option};
ghost use Rattle.std.specs.Coded.{Π_prop, ×_prop};
ghost use Rattle.plinq_steps.specs.Makes.{GivesThen, Passes, some_then, one_then, some_passed, one_passed};

use crate::steps::Steps;

/// These steps, and then the items that a closure lets pass.
#[derive(Drop)]
pub struct Filtered<S, F> {
    pub before: S,
    pub by: F,
}

impl<S: Steps, F: Fn(S::To) -> bool> Steps for Filtered<S, F> {
    type From = S::From;

    type To = S::To;

    ghost is_called = { λ s. ((y : S.To) → F.pre s.by y) × S.is_called s.before };

    ghost in_one_way = { λ s. ((y : S.To) (a b : F.pre s.by y) → a ≡ b) × S.in_one_way s.before };

    ghost gives = { λ s. ((y : S.To) → (r : Bool) × F.post s.by y r) × S.gives s.before };

    ghost gives_one = { λ s. ((y : S.To) (r q : Bool) → F.post s.by y r → F.post s.by y q → q ≡ r) × S.gives_one s.before };

    ghost makes = { λ s x r. GivesThen (S.makes s.before x) (Passes (F.post s.by)) r };

    #[inline(always)]
    fn step(&self, x: S::From) -> Option<S::To> {
        match self.before.step(x) {
            Some(y) => { if (self.by)(y) { Some(y) } else { None } }
            None => None,
        }
    }

    ghost one_call = { λ s way. ×_prop (Π_prop way.0) (S.one_call s.before way.1) };

    ghost makes_some = { λ s some x. some_then (S.makes s.before x) (Passes (F.post s.by)) (S.makes_some s.before some.1 x)
        (some_passed (F.post s.by) some.0) };

    ghost makes_one = { λ s one x. one_then (S.makes s.before x) (Passes (F.post s.by)) (S.makes_one s.before one.1 x)
        (one_passed (F.post s.by) one.0) };
}
