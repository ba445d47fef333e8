ghost use Rattle.std.specs.Prelude.{◌≡◌, ◌≤◌, ◌+◌, ◌^◌, true, false, length, Some};
ghost use Rattle.plinq_source.specs.Concat.{concat};
ghost use Rattle.plinq_source.specs.declared.ending.Ending.TheVariants.{End};

use crate::ending::Ending;
use crate::source::Source;
use crate::step::Step;

/// One source, and after its end another one (.NET's `Enumerable.Concat`). It holds no list.
///
/// If the first source refuses, so does the concatenation, again however often it is asked, and the second source is
/// never asked. Else it ends as the second source does.
///
/// ```text
/// let mut source = ConcatSource::new(RangeSource::new(1, 2)?, RepeatSource::new(5, 1)?);    // 1, 2, 5, then Step::End
/// ```
#[derive(Drop)]
pub struct ConcatSource<T: Copy + Send, A: Source<Item = T>, B: Source<Item = T>> {
    first: A,
    second: B,
    /// Whether the first source was seen to end. It isn't asked again then.
    first_ended: bool,
    ghost few: { length (A.whole first).items + length (B.whole second).items ≤ 2 ^ 40 },
    ghost unasked: { first_ended ≡ false → B.given second ≡ 0 },
    ghost all: { first_ended ≡ true → A.given first ≡ length (A.whole first).items },
    ghost ends: { first_ended ≡ true → (A.whole first).ending ≡ Some End },
}

impl<T: Copy + Send, A: Source<Item = T>, B: Source<Item = T>> ConcatSource<T, A, B> {
    /// The items of the first source, and after its end those of the second.
    ///
    /// Neither has given anything yet, and both together have at most 2^40 items, also if the first refuses. Takes
    /// no memory.
    pub fn new(first: A, second: B) -> ConcatSource<T, A, B>
        requires first_fresh { A.given first ≡ 0 }
        requires second_fresh { B.given second ≡ 0 }
        requires few { length (A.whole first).items + length (B.whole second).items ≤ 2 ^ 40 }
        ensures whole { ⟦<ConcatSource<T, A, B> as Source>⟧.whole result ≡ concat (A.whole first) (B.whole second) }
        ensures fresh { ⟦<ConcatSource<T, A, B> as Source>⟧.given result ≡ 0 }
    {
        ConcatSource {
            first,
            second,
            first_ended: false,
        }
    }
}

impl<T: Copy + Send, A: Source<Item = T>, B: Source<Item = T>> Source for ConcatSource<T, A, B> {
    ghost use Rattle.plinq_source.specs.Walked.{concat_whole, concat_given, concat_walked};

    type Item = T;

    ghost whole = { concat_whole };

    ghost given = { concat_given };

    ghost few = { λ s. (concat_walked s
        (λ a. record { few = A.few a; ends = A.ends a; within = A.within a })
        (λ b. record { few = B.few b; ends = B.ends b; within = B.within b })).few };

    ghost ends = { λ s. (concat_walked s
        (λ a. record { few = A.few a; ends = A.ends a; within = A.within a })
        (λ b. record { few = B.few b; ends = B.ends b; within = B.within b })).ends };

    ghost within = { λ s. (concat_walked s
        (λ a. record { few = A.few a; ends = A.ends a; within = A.within a })
        (λ b. record { few = B.few b; ends = B.ends b; within = B.within b })).within };

    fn next(&mut self) -> Step<T> {
        if self.first_ended {
            return self.second.next();
        }
        match self.first.next() {
            Step::End => {
                self.first_ended = true;
                self.second.next()
            }
            step => step,
        }
    }

    fn fill(&mut self, items: &mut Vec<T>, n: u64) -> Option<Ending> {
        if self.first_ended {
            return self.second.fill(items, n);
        }
        let before = items.len();
        match self.first.fill(items, n) {
            Some(Ending::End) => {
                self.first_ended = true;
                let filled = (items.len() - before) as u64;
                self.second.fill(items, n - filled)
            }
            ending => ending,
        }
    }
}
