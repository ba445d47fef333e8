ghost use Rattle.std.specs.Prelude.{◌≡◌, Option};
ghost use Rattle.std.specs.Coded.{Π_prop, ×_prop};
ghost use Rattle.plinq_steps.specs.Makes.{GivesThen, Selects, some_then, one_then, some_selected, one_selected};

use crate::steps::Steps;

/// These steps, and then what a closure makes of each item.
#[derive(Drop)]
pub struct Selected<S, F> {
    pub before: S,
    pub by: F,
}

impl<S: Steps, F: Fn(S::To) -> U, U: Copy> Steps for Selected<S, F> {
    type From = S::From;

    type To = U;

    ghost is_called = { λ s. ((y : S.To) → F.pre s.by y) × S.is_called s.before };

    ghost in_one_way = { λ s. ((y : S.To) (a b : F.pre s.by y) → a ≡ b) × S.in_one_way s.before };

    ghost gives = { λ s. ((y : S.To) → (r : U) × F.post s.by y r) × S.gives s.before };

    ghost gives_one = { λ s. ((y : S.To) (r q : U) → F.post s.by y r → F.post s.by y q → q ≡ r) × S.gives_one s.before };

    ghost makes = { λ s x r. GivesThen (S.makes s.before x) (Selects (F.post s.by)) r };

    #[inline(always)]
    fn step(&self, x: S::From) -> Option<U> {
        match self.before.step(x) {
            Some(y) => Some((self.by)(y)),
            None => None,
        }
    }

    fn keeps_all(&self) -> bool {
        self.before.keeps_all()
    }

    ghost one_call = { λ s way. ×_prop (Π_prop way.0) (S.one_call s.before way.1) };

    ghost makes_some = { λ s some x. some_then (S.makes s.before x) (Selects (F.post s.by)) (S.makes_some s.before some.1 x)
        (some_selected (F.post s.by) some.0) };

    ghost makes_one = { λ s one x. one_then (S.makes s.before x) (Selects (F.post s.by)) (S.makes_one s.before one.1 x)
        (one_selected (F.post s.by) one.0) };
}
