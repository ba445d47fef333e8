ghost use Rattle.std.specs.Prelude.{◌≡◌, ◌≤◌, ◌^◌, length, nat_le, is_ok, IfOk, IfErr};
ghost use Rattle.plinq_source.specs.Trace.{ended_trace};
ghost use Rattle.plinq_source.specs.declared.ending.Ending.TheVariants.{End};
ghost use Rattle.plinq_source.specs.declared.source_fault.SourceFault.TheVariants.{TooLarge};

use plinq_source::{Source, SourceFault, Step};

/// A borrowed slice as a source: its items from the first on, and then the end. It holds no list.
///
/// ```text
/// let mut source = SliceSource::new(&[3, 1])?;    // 3, 1, then Step::End
/// ```
#[derive(Drop)]
pub struct SliceSource<'a, T: Copy + Send + Sync> {
    items: &'a [T],
    next: usize,
    ghost few: { length items.now ≤ 2 ^ 40 },
    ghost within: { next ≤ length items.now },
}

impl<'a, T: Copy + Send + Sync> SliceSource<'a, T> {
    /// The items of the slice. Takes no memory.
    ///
    /// # Errors
    ///
    /// [`SourceFault::TooLarge`] if there are more than 2^40.
    pub fn new(items: &'a [T]) -> Result<SliceSource<'a, T>, SourceFault>
        ensures made { is_ok result ≡ nat_le (length items.now) (2 ^ 40) }
        ensures refused { IfErr result (λ e. e ≡ TooLarge) }
        ensures whole { IfOk result (λ s. ⟦<SliceSource<'a, T> as Source>⟧.whole s ≡ ended_trace items.now End) }
        ensures fresh { IfOk result (λ s. ⟦<SliceSource<'a, T> as Source>⟧.given s ≡ 0) }
    {
        if items.len() > 1 << 40 {
            return Err(SourceFault::TooLarge);
        }
        Ok(SliceSource { items, next: 0 })
    }
}

impl<'a, T: Copy + Send + Sync> Source for SliceSource<'a, T> {
    ghost use Rattle.plinq_slice.specs.WalkedSlices.{slice_whole, slice_given, slice_walked};

    type Item = T;

    ghost whole = { slice_whole };

    ghost given = { slice_given };

    ghost few = { λ s. (slice_walked s).few };

    ghost ends = { λ s. (slice_walked s).ends };

    ghost within = { λ s. (slice_walked s).within };

    fn next(&mut self) -> Step<T> {
        if self.next < self.items.len() {
            let item = self.items[self.next];
            self.next += 1;
            Step::Item(item)
        } else {
            Step::End
        }
    }
}
