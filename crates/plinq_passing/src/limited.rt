ghost use Rattle.std.specs.Prelude.{◌+◌};
ghost use Rattle.plinq_passing.specs.inner.Limits.{limited, limited_walked};

use plinq_source::{Ending, Source, Step};

/// A source of which no more than the next items are asked for, as many as are left. It ends well after them.
#[derive(Drop)]
pub(crate) struct Limited<S> {
    pub source: S,
    pub left: u64,
}

impl<S: Source> Source for Limited<S> {
    type Item = S::Item;

    ghost whole = { λ s. limited (S.given s.source + s.left) (S.whole s.source) };

    ghost given = { λ s. S.given s.source };

    ghost few = { λ s. (limited_walked (S.whole s.source) (S.given s.source) s.left
        (record { few = S.few s.source; ends = S.ends s.source; within = S.within s.source })).few };

    ghost ends = { λ s. (limited_walked (S.whole s.source) (S.given s.source) s.left
        (record { few = S.few s.source; ends = S.ends s.source; within = S.within s.source })).ends };

    ghost within = { λ s. (limited_walked (S.whole s.source) (S.given s.source) s.left
        (record { few = S.few s.source; ends = S.ends s.source; within = S.within s.source })).within };

    fn next(&mut self) -> Step<S::Item> {
        if self.left == 0 {
            return Step::End;
        }
        match self.source.next() {
            Step::Item(item) => {
                self.left -= 1;
                Step::Item(item)
            }
            Step::End => Step::End,
            Step::Refused(code) => Step::Refused(code),
        }
    }

    fn fill(&mut self, items: &mut Vec<S::Item>, n: u64) -> Option<Ending> {
        let before = items.len();
        let most = n.min(self.left);
        match self.source.fill(items, most) {
            Some(ending) => {
                self.left -= (items.len() - before) as u64;
                Some(ending)
            }
            None => {
                self.left -= most;
                if most < n { Some(Ending::End) } else { None }
            }
        }
    }
}
