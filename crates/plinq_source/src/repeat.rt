ghost use Rattle.std.specs.Prelude.{◌≡◌, ◌≤◌, ◌^◌, IfOk, IfErr, is_ok, replicate};
ghost use Rattle.plinq_source.specs.Trace.{ended_trace};
ghost use Rattle.plinq_source.specs.Repeat.{is_repeat};
ghost use Rattle.plinq_source.specs.declared.ending.Ending.TheVariants.{End};

use crate::ending::Ending;
use crate::limits::MOST_ITEMS;
use crate::source::Source;
use crate::source_fault::SourceFault;
use crate::step::Step;
use std::mem::replace;

/// One value a number of times, and then the end (.NET's `Enumerable.Repeat`). It holds no list.
///
/// ```text
/// RepeatSource::new(5, 2)?    // 5, 5, then Step::End
/// ```
#[derive(Drop)]
pub struct RepeatSource {
    value: i64,
    count: u64,
    next: u64,
    ghost few: { count ≤ 2 ^ 40 },
    ghost within: { next ≤ count },
}

impl RepeatSource {
    /// This value, `count` times.
    ///
    /// # Errors
    ///
    /// [`SourceFault::TooLarge`] if `count` is above 2^40.
    pub fn new(value: i64, count: u64) -> Result<RepeatSource, SourceFault>
        ensures made { is_ok result ≡ is_repeat count }
        ensures refused { IfErr result (λ e. e ≡ SourceFault.TooLarge) }
        ensures whole { IfOk result (λ s. ⟦<RepeatSource as Source>⟧.whole s ≡ ended_trace (replicate count value) End) }
        ensures fresh { IfOk result (λ s. ⟦<RepeatSource as Source>⟧.given s ≡ 0) }
    {
        if count > MOST_ITEMS {
            return Err(SourceFault::TooLarge);
        }
        Ok(RepeatSource {
            value,
            count,
            next: 0,
        })
    }
}

impl Source for RepeatSource {
    ghost use Rattle.plinq_source.specs.Walked.{repeat_whole, repeat_given, repeat_walked};

    type Item = i64;

    ghost whole = { repeat_whole };

    ghost given = { repeat_given };

    ghost few = { λ s. (repeat_walked s).few };

    ghost ends = { λ s. (repeat_walked s).ends };

    ghost within = { λ s. (repeat_walked s).within };

    fn next(&mut self) -> Step<i64> {
        if self.next < self.count {
            self.next += 1;
            Step::Item(self.value)
        } else {
            Step::End
        }
    }

    fn fill(&mut self, items: &mut Vec<i64>, n: u64) -> Option<Ending> {
        let left = self.count - self.next;
        let after = self.next + n.min(left);
        // (a list of this call's own stays in registers, and isn't read and written back for each item)
        let value = self.value;
        let mut list = replace(items, Vec::new(*items.allocator()));
        for _place in self.next..after {
            list.push_reserved(value);
        }
        *items = list;
        self.next = after;
        if n > left { Some(Ending::End) } else { None }
    }
}
