ghost use Rattle.std.specs.Prelude.{◌≡◌, ℕ, ◌≤◌, ◌+◌, ◌++◌, ◌^◌, length, vec_len, vec_capacity};
ghost use Rattle.plinq_source.specs.Trace.{Trace, step_at, given_after, items_from, ending_within, IsSourceEnding};

use crate::ending::Ending;
use crate::step::Step;

/// What can only be asked for its next element, as an `IEnumerator` of .NET can.
///
/// A source gives its items in order, each once, and then its ending, which it gives again however often it is
/// asked. It has at most 2^40 items. A source that was never asked has given nothing, which is what each call wants that
/// takes a source as an argument.
///
/// ```text
/// let mut source = ListSource::new(alloc, numbers);
/// while let Step::Item(x) = source.next() { .. }
/// ```
pub trait Source: Send + Drop {
    /// What it gives.
    type Item: Copy + Send;

    // All items and the ending, for life.
    ghost whole: { Self → Trace Self.Item };

    // How many items were handed out.
    ghost given: { Self → ℕ };

    /// The next element, or the ending. Takes no memory.
    fn next(&mut self) -> Step<Self::Item>
        ensures same { whole self.new ≡ whole self.old }
        ensures step { result ≡ step_at (whole self.old) (given self.old) }
        ensures moved { given self.new ≡ given_after (whole self.old) (given self.old) };

    /// Adds the next `n` elements to a list that has room for them, or all that are left, and then returns the ending.
    ///
    /// It is `next` again and again; a source that can give a chunk at once has its own. Takes no memory.
    fn fill(&mut self, items: &mut Vec<Self::Item>, n: u64) -> Option<Ending>
        requires room { vec_len items.old + n ≤ vec_capacity items.old }
        ensures same { whole self.new ≡ whole self.old }
        ensures filled { items.new.items ≡ items.old.items ++ items_from (whole self.old) (given self.old) n }
        ensures len { vec_len items.new ≡ vec_len items.old + length (items_from (whole self.old) (given self.old) n) }
        ensures capacity { vec_capacity items.new ≡ vec_capacity items.old }
        ensures moved { given self.new ≡ given self.old + length (items_from (whole self.old) (given self.old) n) }
        ensures ending { result ≡ ending_within (whole self.old) (given self.old) n }
    {
        for _filled in 0..n {
            match self.next() {
                Step::Item(item) => items.push_reserved(item),
                Step::End => return Some(Ending::End),
                Step::Refused(code) => return Some(Ending::Refused(code)),
            }
        }
        None
    }

    ghost few: { (s : Self) → length (whole s).items ≤ 2 ^ 40 };

    ghost ends: { (s : Self) → IsSourceEnding (whole s).ending };

    ghost within: { (s : Self) → given s ≤ length (whole s).items };
}
