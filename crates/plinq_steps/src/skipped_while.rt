ghost use Rattle.std.specs.Prelude.{◌≡◌, refl, Option, Bool};
ghost use Rattle.std.proofs.Common.{sym, subst};
ghost use Rattle.std.specs.Coded.{Π_prop, ×_prop};
ghost use Rattle.plinq_steps.specs.Means.{FollowsBy, Turns, SkipsWhile, skipping_while, never};
ghost use Rattle.plinq_steps.specs.Means.{follows_few, skipping_few, by_on, skips_while_on, follows_at_end, follows_of_none, skipping_of_none};

use crate::positional::Positional;

/// These steps, and of what they make the first item that a closure fails and all after it.
#[derive(Drop)]
pub struct SkippedWhile<P, F> {
    pub before: P,
    pub by: F,
    pub past: bool,
}

impl<P: Positional, F: Fn(P::To) -> bool> Positional for SkippedWhile<P, F> {
    type From = P::From;

    type To = P::To;

    ghost is_called = { λ s. ((y : P.To) → F.pre s.by y) × P.is_called s.before };

    ghost in_one_way = { λ s. ((y : P.To) (a b : F.pre s.by y) → a ≡ b) × P.in_one_way s.before };

    ghost gives_one = { λ s. ((y : P.To) (r q : Bool) → F.post s.by y r → F.post s.by y q → q ≡ r) × P.gives_one s.before };

    ghost turns = { λ s x r t. (t.by ≡ s.by)
        × Turns (λ o p. P.turns s.before x o p) (λ o r. SkipsWhile (F.post s.by) o s.past r t.past) r t.before };

    ghost ended = { λ s. P.ended s.before };

    ghost means = { λ s. FollowsBy (F.post s.by) (P.means s.before) (skipping_while s.past) never };

    #[inline(always)]
    fn next(&mut self, x: P::From) -> Option<P::To> {
        match self.before.next(x) {
            Some(y) => {
                if self.past {
                    return Some(y);
                }
                if (self.by)(y) {
                    return None;
                }
                self.past = true;
                Some(y)
            }
            None => None,
        }
    }

    #[inline(always)]
    fn has_ended(&self) -> bool {
        self.before.has_ended()
    }

    fn enough(&self) -> Option<u64> {
        self.before.enough()
    }

    ghost one_call = { λ s way. ×_prop (Π_prop way.0) (P.one_call s.before way.1) };

    ghost goes_on = { λ s one more g d means x o t is. by_on means (F.post t.by) (λ y b gives. subst (λ v. F.post v y b) (sym is.0) gives)
        (λ h e was y turned. P.goes_on s.before one.1 more h e was x y t.before turned)
        (λ y made. skips_while_on (F.post s.by) means.by means.gives one.0 s.past t.past o y made) is.1 };

    ghost at_end = { λ s ended g d means xs. follows_at_end g d means.follows (skipping_of_none s.past means.by) xs
        (λ h e was. P.at_end s.before ended h e was xs) };

    ghost of_none = { λ s more g d means. follows_of_none g d means.follows (skipping_of_none s.past means.by) refl (P.of_none s.before more) };

    ghost few = { λ s g d means xs. follows_few g d means.follows (skipping_few means.by s.past) xs (λ h e was. P.few s.before h e was xs) };
}
