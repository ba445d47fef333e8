ghost use Rattle.std.specs.Prelude.{◌≡◌, Option, ◌||◌, nat_eq, take};
ghost use Rattle.plinq_steps.specs.Means.{Follows, Turns, if_left, left_after, reaches};
ghost use Rattle.plinq_steps.specs.Means.{follows_few, take_few, follows_on, or_right, takes_on, taken_at_end, follows_of_none, take_of_none, open_of_none};

use crate::positional::Positional;

/// These steps, and of what they make the first items, as many as are left.
#[derive(Drop)]
pub struct Taken<P> {
    pub before: P,
    pub left: u64,
}

impl<P: Positional> Positional for Taken<P> {
    type From = P::From;

    type To = P::To;

    ghost is_called = { λ s. P.is_called s.before };

    ghost in_one_way = { λ s. P.in_one_way s.before };

    ghost gives_one = { λ s. P.gives_one s.before };

    ghost turns = { λ s x r t. Turns (λ o p. P.turns s.before x o p) (λ o r. (r ≡ if_left s.left o) × (t.left ≡ left_after s.left o)) r t.before };

    ghost ended = { λ s. nat_eq s.left 0 || P.ended s.before };

    ghost means = { λ s. Follows (P.means s.before) (take s.left) (reaches s.left) };

    #[inline(always)]
    fn next(&mut self, x: P::From) -> Option<P::To> {
        match self.before.next(x) {
            Some(y) => {
                if self.left == 0 {
                    return None;
                }
                self.left -= 1;
                Some(y)
            }
            None => None,
        }
    }

    #[inline(always)]
    fn has_ended(&self) -> bool {
        self.left == 0 || self.before.has_ended()
    }

    fn enough(&self) -> Option<u64> {
        match self.before.enough() {
            Some(n) => Some(n),
            None => self.before.needs(self.left),
        }
    }

    ghost one_call = { λ s way. P.one_call s.before way };

    ghost goes_on = { λ s one more g d means x o t is. follows_on g d means x o
        (λ h e was y turned. P.goes_on s.before one (or_right (nat_eq s.left 0) (P.ended s.before) more) h e was x y t.before turned)
        (takes_on s.left t.left (P.ended s.before) o more) is };

    ghost at_end = { λ s ended g d means xs. taken_at_end (P.means s.before) s.left (P.ended s.before) ended g d means xs
        (λ end h e was. P.at_end s.before end h e was xs) };

    ghost of_none = { λ s more g d means. follows_of_none g d means (take_of_none s.left) (open_of_none P.To s.left (P.ended s.before) more)
        (P.of_none s.before (or_right (nat_eq s.left 0) (P.ended s.before) more)) };

    ghost few = { λ s g d means xs. follows_few g d means (take_few s.left) xs (λ h e was. P.few s.before h e was xs) };
}
