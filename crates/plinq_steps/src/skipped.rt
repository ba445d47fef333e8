ghost use Rattle.std.specs.Prelude.{◌≡◌, refl, Option, drop};
ghost use Rattle.plinq_steps.specs.Means.{Follows, Turns, if_none_left, left_after, undecided};
ghost use Rattle.plinq_steps.specs.Means.{follows_few, drop_few, follows_on, skips_on, follows_at_end, follows_of_none, drop_of_none};

use crate::positional::Positional;

/// These steps, and of what they make all but the first items, as many as are left.
#[derive(Drop)]
pub struct Skipped<P> {
    pub before: P,
    pub left: u64,
}

impl<P: Positional> Positional for Skipped<P> {
    type From = P::From;

    type To = P::To;

    ghost is_called = { λ s. P.is_called s.before };

    ghost in_one_way = { λ s. P.in_one_way s.before };

    ghost gives_one = { λ s. P.gives_one s.before };

    ghost turns = { λ s x r t. Turns (λ o p. P.turns s.before x o p) (λ o r. (r ≡ if_none_left s.left o) × (t.left ≡ left_after s.left o)) r t.before };

    ghost ended = { λ s. P.ended s.before };

    ghost means = { λ s. Follows (P.means s.before) (drop s.left) undecided };

    #[inline(always)]
    fn next(&mut self, x: P::From) -> Option<P::To> {
        match self.before.next(x) {
            Some(y) => {
                if self.left == 0 {
                    return Some(y);
                }
                self.left -= 1;
                None
            }
            None => None,
        }
    }

    #[inline(always)]
    fn has_ended(&self) -> bool {
        self.before.has_ended()
    }

    fn enough(&self) -> Option<u64> {
        self.before.enough()
    }

    fn needs(&self, count: u64) -> Option<u64> {
        match self.left.checked_add(count) {
            Some(all) => self.before.needs(all),
            None => None,
        }
    }

    ghost one_call = { λ s way. P.one_call s.before way };

    ghost goes_on = { λ s one more g d means x o t is. follows_on g d means x o
        (λ h e was y turned. P.goes_on s.before one more h e was x y t.before turned) (skips_on s.left t.left o) is };

    ghost at_end = { λ s ended g d means xs. follows_at_end g d means (drop_of_none s.left) xs (λ h e was. P.at_end s.before ended h e was xs) };

    ghost of_none = { λ s more g d means. follows_of_none g d means (drop_of_none s.left) refl (P.of_none s.before more) };

    ghost few = { λ s g d means xs. follows_few g d means (drop_few s.left) xs (λ h e was. P.few s.before h e was xs) };
}
