ghost use Rattle.std.specs.Prelude.{◌≡◌, ◌≤◌, ◌^◌, map, nat_le, is_ok, IfOk, IfErr};
ghost use Rattle.std.specs.List.{range_with_len};
ghost use Rattle.plinq_source.specs.Trace.{ended_trace};
ghost use Rattle.plinq_source.specs.declared.ending.Ending.TheVariants.{End};
ghost use Rattle.plinq_source.specs.declared.source_fault.SourceFault.TheVariants.{TooLarge};

use crate::item_at::ItemAt;
use plinq_source::{Source, SourceFault, Step};

/// An item for each key below a count, and then the end. It holds no list.
///
/// ```text
/// IndexSource::new(Squares, 4)?    // 0, 1, 4, 9, then Step::End
/// ```
#[derive(Drop)]
pub struct IndexSource<F> {
    by: F,
    count: u64,
    next: u64,
    ghost few: { count ≤ 2 ^ 40 },
    ghost within: { next ≤ count },
}

impl<F: ItemAt> IndexSource<F> {
    /// The items of the keys from 0 on, `count` of them. Takes no memory.
    ///
    /// # Errors
    ///
    /// [`SourceFault::TooLarge`] if `count` is above 2^40.
    pub fn new(by: F, count: u64) -> Result<IndexSource<F>, SourceFault>
        ensures made { is_ok result ≡ nat_le count (2 ^ 40) }
        ensures refused { IfErr result (λ e. e ≡ TooLarge) }
        ensures whole { IfOk result (λ s. ⟦<IndexSource<F> as Source>⟧.whole s ≡ ended_trace (map (F.items by) (range_with_len 0 count)) End) }
        ensures fresh { IfOk result (λ s. ⟦<IndexSource<F> as Source>⟧.given s ≡ 0) }
    {
        if count > 1 << 40 {
            return Err(SourceFault::TooLarge);
        }
        Ok(IndexSource { by, count, next: 0 })
    }
}

impl<F: ItemAt> Source for IndexSource<F> {
    ghost use Rattle.plinq_slice.specs.WalkedSlices.{index_whole, index_given, index_walked};

    type Item = F::Item;

    ghost whole = { λ s. index_whole F.items s };

    ghost given = { index_given };

    ghost few = { λ s. (index_walked F.items s).few };

    ghost ends = { λ s. (index_walked F.items s).ends };

    ghost within = { λ s. (index_walked F.items s).within };

    fn next(&mut self) -> Step<F::Item> {
        if self.next < self.count {
            let item = self.by.item_at(self.next);
            self.next += 1;
            Step::Item(item)
        } else {
            Step::End
        }
    }
}
