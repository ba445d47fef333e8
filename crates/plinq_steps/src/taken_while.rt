ghost use Rattle.std.specs.Prelude.{◌≡◌, Option, Bool, ◌||◌};
ghost use Rattle.std.proofs.Common.{sym, subst};
ghost use Rattle.std.specs.Coded.{Π_prop, ×_prop};
ghost use Rattle.plinq_steps.specs.Means.{FollowsBy, Turns, TakesWhile, taking_while, failed};
ghost use Rattle.plinq_steps.specs.Means.{follows_few, taking_few, by_on, or_right, takes_while_on, taken_while_at_end, taken_while_of_none};

use crate::positional::Positional;

/// These steps, and of what they make the items before the first that a closure fails.
#[derive(Drop)]
pub struct TakenWhile<P, F> {
    pub before: P,
    pub by: F,
    pub over: bool,
}

impl<P: Positional, F: Fn(P::To) -> bool> Positional for TakenWhile<P, F> {
    type From = P::From;

    type To = P::To;

    ghost is_called = { λ s. ((y : P.To) → F.pre s.by y) × P.is_called s.before };

    ghost in_one_way = { λ s. ((y : P.To) (a b : F.pre s.by y) → a ≡ b) × P.in_one_way s.before };

    ghost gives_one = { λ s. ((y : P.To) (r q : Bool) → F.post s.by y r → F.post s.by y q → q ≡ r) × P.gives_one s.before };

    ghost turns = { λ s x r t. (t.by ≡ s.by)
        × Turns (λ o p. P.turns s.before x o p) (λ o r. TakesWhile (F.post s.by) o s.over r t.over) r t.before };

    ghost ended = { λ s. s.over || P.ended s.before };

    ghost means = { λ s. FollowsBy (F.post s.by) (P.means s.before) (taking_while s.over) (failed s.over) };

    #[inline(always)]
    fn next(&mut self, x: P::From) -> Option<P::To> {
        match self.before.next(x) {
            Some(y) => {
                if (self.by)(y) {
                    return Some(y);
                }
                self.over = true;
                None
            }
            None => None,
        }
    }

    #[inline(always)]
    fn has_ended(&self) -> bool {
        self.over || self.before.has_ended()
    }

    fn enough(&self) -> Option<u64> {
        self.before.enough()
    }

    ghost one_call = { λ s way. ×_prop (Π_prop way.0) (P.one_call s.before way.1) };

    ghost goes_on = { λ s one more g d means x o t is. by_on means (F.post t.by) (λ y b gives. subst (λ v. F.post v y b) (sym is.0) gives)
        (λ h e was y turned. P.goes_on s.before one.1 (or_right s.over (P.ended s.before) more) h e was x y t.before turned)
        (λ y made. takes_while_on (F.post s.by) means.by means.gives one.0 s.over t.over (P.ended s.before) o y more made) is.1 };

    ghost at_end = { λ s ended g d means xs. taken_while_at_end means.by s.over (P.ended s.before) ended means.follows xs
        (λ end h e was. P.at_end s.before end h e was xs) };

    ghost of_none = { λ s more g d means. taken_while_of_none means.by s.over (P.ended s.before) more means.follows
        (λ h e was. P.of_none s.before (or_right s.over (P.ended s.before) more) h e was) };

    ghost few = { λ s g d means xs. follows_few g d means.follows (taking_few means.by s.over) xs (λ h e was. P.few s.before h e was xs) };
}
