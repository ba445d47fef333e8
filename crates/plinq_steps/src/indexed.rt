ghost use Rattle.std.specs.Prelude.{◌≡◌, refl, Option};
ghost use Rattle.plinq_steps.specs.Beside.{numbered, numbered_one, after_one, numbers_on, numbered_few};
ghost use Rattle.plinq_steps.specs.Means.{Follows, Turns, undecided, follows_few, follows_on, follows_at_end, follows_of_none};

use crate::positional::Positional;

/// These steps, and each item that they make beside its position.
#[derive(Drop)]
pub struct Indexed<P> {
    pub before: P,
    pub next: u64,
}

impl<P: Positional> Positional for Indexed<P> {
    type From = P::From;

    type To = (u64, P::To);

    ghost is_called = { λ s. P.is_called s.before };

    ghost in_one_way = { λ s. P.in_one_way s.before };

    ghost gives_one = { λ s. P.gives_one s.before };

    ghost turns = { λ s x r t. Turns (λ o p. P.turns s.before x o p) (λ o r. (r ≡ numbered_one s.next o) × (t.next ≡ after_one s.next o)) r t.before };

    ghost ended = { λ s. P.ended s.before };

    ghost means = { λ s. Follows (P.means s.before) (numbered s.next) undecided };

    #[inline(always)]
    fn next(&mut self, x: P::From) -> Option<(u64, P::To)> {
        match self.before.next(x) {
            Some(y) => {
                let at = self.next;
                self.next = at.saturating_add(1);
                Some((at, y))
            }
            None => None,
        }
    }

    #[inline(always)]
    fn has_ended(&self) -> bool {
        self.before.has_ended()
    }

    fn enough(&self) -> Option<u64> {
        self.before.enough()
    }

    fn needs(&self, count: u64) -> Option<u64> {
        self.before.needs(count)
    }

    ghost one_call = { λ s way. P.one_call s.before way };

    ghost goes_on = { λ s one more g d means x o t is. follows_on g d means x o
        (λ h e was y turned. P.goes_on s.before one more h e was x y t.before turned) (numbers_on s.next t.next o) is };

    ghost at_end = { λ s ended g d means xs. follows_at_end g d means refl xs (λ h e was. P.at_end s.before ended h e was xs) };

    ghost of_none = { λ s more g d means. follows_of_none g d means refl refl (P.of_none s.before more) };

    ghost few = { λ s g d means xs. follows_few g d means (numbered_few s.next) xs (λ h e was. P.few s.before h e was xs) };
}
