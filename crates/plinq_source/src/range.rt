ghost use Rattle.std.specs.Prelude.{◌≡◌, ◌≤◌, ◌<◌, ◌^◌, ◌+ℤ◌, ◌≤ℤ◌, pos, IfOk, IfErr, is_ok};
ghost use Rattle.plinq_source.specs.Trace.{ended_trace};
ghost use Rattle.plinq_source.specs.Range.{range_items, is_range};
ghost use Rattle.plinq_source.specs.declared.ending.Ending.TheVariants.{End};

use crate::ending::Ending;
use crate::limits::MOST_ITEMS;
use crate::source::Source;
use crate::source_fault::SourceFault;
use crate::step::Step;
use std::mem::replace;

/// Whole numbers one after another, and then the end (.NET's `Enumerable.Range`). It holds no list.
///
/// ```text
/// RangeSource::new(-1, 3)?    // -1, 0, 1, then Step::End
/// ```
#[derive(Drop)]
pub struct RangeSource {
    start: i64,
    count: u64,
    next: u64,
    ghost few: { count ≤ 2 ^ 40 },
    ghost last: { 0 < count → (start +ℤ pos count) ≤ℤ pos (2 ^ 63) },
    ghost within: { next ≤ count },
}

impl RangeSource {
    /// The numbers `start`, `start + 1` and so on, `count` of them.
    ///
    /// # Errors
    ///
    /// [`SourceFault::TooLarge`] if `count` is above 2^40, or if there is a last number and it is above
    /// `i64::MAX`. A range of no numbers may start anywhere.
    pub fn new(start: i64, count: u64) -> Result<RangeSource, SourceFault>
        ensures made { is_ok result ≡ is_range start count }
        ensures refused { IfErr result (λ e. e ≡ SourceFault.TooLarge) }
        ensures whole { IfOk result (λ s. ⟦<RangeSource as Source>⟧.whole s ≡ ended_trace (range_items start count) End) }
        ensures fresh { IfOk result (λ s. ⟦<RangeSource as Source>⟧.given s ≡ 0) }
    {
        if count > MOST_ITEMS {
            return Err(SourceFault::TooLarge);
        }
        if count > 0 && start > i64::MAX - (count as i64 - 1) {
            return Err(SourceFault::TooLarge);
        }
        Ok(RangeSource {
            start,
            count,
            next: 0,
        })
    }
}

impl Source for RangeSource {
    ghost use Rattle.plinq_source.specs.Walked.{range_whole, range_given, range_walked};

    type Item = i64;

    ghost whole = { range_whole };

    ghost given = { range_given };

    ghost few = { λ s. (range_walked s).few };

    ghost ends = { λ s. (range_walked s).ends };

    ghost within = { λ s. (range_walked s).within };

    fn next(&mut self) -> Step<i64> {
        if self.next < self.count {
            let item = self.start + self.next as i64;
            self.next += 1;
            Step::Item(item)
        } else {
            Step::End
        }
    }

    fn fill(&mut self, items: &mut Vec<i64>, n: u64) -> Option<Ending> {
        let left = self.count - self.next;
        let after = self.next + n.min(left);
        // (a list of this call's own stays in registers, and isn't read and written back for each item)
        let start = self.start;
        let mut list = replace(items, Vec::new(*items.allocator()));
        for place in self.next..after {
            list.push_reserved(start + place as i64);
        }
        *items = list;
        self.next = after;
        if n > left { Some(Ending::End) } else { None }
    }
}
