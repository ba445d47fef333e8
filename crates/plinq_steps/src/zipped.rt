ghost use Rattle.std.specs.Prelude.{◌≡◌, ◌||◌, Option};
ghost use Rattle.plinq_steps.specs.Beside.{paired, covers, paired_one, unpaired, is_none_left, pairs_on, paired_few, paired_at_end, paired_of_none};
ghost use Rattle.plinq_steps.specs.Means.{Follows, Turns, follows_few, follows_on, or_right};

use crate::positional::Positional;

/// These steps, and each item that they make beside one of a list, up to the end of either.
#[derive(Drop)]
pub struct Zipped<'a, P, U> {
    pub before: P,
    pub with: &'a [U],
}

impl<'a, P: Positional, U: Copy> Positional for Zipped<'a, P, U> {
    type From = P::From;

    type To = (P::To, U);

    ghost is_called = { λ s. P.is_called s.before };

    ghost in_one_way = { λ s. P.in_one_way s.before };

    ghost gives_one = { λ s. P.gives_one s.before };

    ghost turns = { λ s x r t. Turns (λ o p. P.turns s.before x o p)
        (λ o r. (r ≡ paired_one s.with.now o) × (t.with.now ≡ unpaired s.with.now o)) r t.before };

    ghost ended = { λ s. is_none_left s.with.now || P.ended s.before };

    ghost means = { λ s. Follows (P.means s.before) (paired s.with.now) (covers s.with.now) };

    #[inline(always)]
    fn next(&mut self, x: P::From) -> Option<(P::To, U)> {
        match self.before.next(x) {
            Some(y) => match self.with.split_first() {
                Some((first, rest)) => {
                    self.with = rest;
                    Some((y, *first))
                }
                None => None,
            },
            None => None,
        }
    }

    #[inline(always)]
    fn has_ended(&self) -> bool {
        self.with.is_empty() || self.before.has_ended()
    }

    fn enough(&self) -> Option<u64> {
        match self.before.enough() {
            Some(n) => Some(n),
            None => self.before.needs(self.with.len() as u64),
        }
    }

    ghost one_call = { λ s way. P.one_call s.before way };

    ghost goes_on = { λ s one more g d means x o t is. follows_on g d means x o
        (λ h e was y turned. P.goes_on s.before one (or_right (is_none_left s.with.now) (P.ended s.before) more) h e was x y t.before turned)
        (pairs_on s.with.now t.with.now (P.ended s.before) o more) is };

    ghost at_end = { λ s ended g d means xs. paired_at_end (P.means s.before) s.with.now (P.ended s.before) ended g d means xs
        (λ end h e was. P.at_end s.before end h e was xs) };

    ghost of_none = { λ s more g d means. paired_of_none (P.means s.before) s.with.now (P.ended s.before) more g d means
        (λ more h e was. P.of_none s.before more h e was) };

    ghost few = { λ s g d means xs. follows_few g d means (paired_few s.with.now) xs (λ h e was. P.few s.before h e was xs) };
}
