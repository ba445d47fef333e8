ghost use Rattle.std.specs.Prelude.{◌≡◌, refl, Option};
ghost use Rattle.std.proofs.Common.{sym, subst};
ghost use Rattle.std.specs.Coded.{×_prop};
ghost use Rattle.plinq_steps.specs.Makes.{MakesOf};
ghost use Rattle.plinq_steps.specs.Means.{follows_few, keeping_few, FollowsBy, Turns, keeping, kept_open, by_on, keeps_on, follows_at_end, follows_of_none};

use crate::positional::Positional;
use crate::steps::Steps;

/// These steps by position, and then others on each item.
#[derive(Drop)]
pub struct Then<P, S> {
    pub before: P,
    pub steps: S,
}

impl<P: Positional, S: Steps<From = P::To>> Positional for Then<P, S> {
    type From = P::From;

    type To = S::To;

    ghost is_called = { λ s. S.is_called s.steps × P.is_called s.before };

    ghost in_one_way = { λ s. S.in_one_way s.steps × P.in_one_way s.before };

    ghost gives_one = { λ s. S.gives_one s.steps × P.gives_one s.before };

    ghost turns = { λ s x r t. (t.steps ≡ s.steps) × Turns (λ o p. P.turns s.before x o p) (λ o r. MakesOf (S.makes s.steps) o r) r t.before };

    ghost ended = { λ s. P.ended s.before };

    ghost means = { λ s. FollowsBy (S.makes s.steps) (P.means s.before) keeping kept_open };

    #[inline(always)]
    fn next(&mut self, x: P::From) -> Option<S::To> {
        match self.before.next(x) {
            Some(y) => self.steps.step(y),
            None => None,
        }
    }

    #[inline(always)]
    fn has_ended(&self) -> bool {
        self.before.has_ended()
    }

    fn enough(&self) -> Option<u64> {
        self.before.enough()
    }

    ghost one_call = { λ s way. ×_prop (S.one_call s.steps way.0) (P.one_call s.before way.1) };

    ghost goes_on = { λ s one more g d means x o t is. by_on means (S.makes t.steps) (λ y b gives. subst (λ v. S.makes v y b) (sym is.0) gives)
        (λ h e was y turned. P.goes_on s.before one.1 more h e was x y t.before turned)
        (λ y made. keeps_on (S.makes s.steps) means.by means.gives (S.makes_one s.steps one.0) o y made) is.1 };

    ghost at_end = { λ s ended g d means xs. follows_at_end g d means.follows refl xs (λ h e was. P.at_end s.before ended h e was xs) };

    ghost of_none = { λ s more g d means. follows_of_none g d means.follows refl refl (P.of_none s.before more) };

    ghost few = { λ s g d means xs. follows_few g d means.follows (keeping_few means.by) xs (λ h e was. P.few s.before h e was xs) };
}
