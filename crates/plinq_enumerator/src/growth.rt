ghost use Rattle.std.specs.Prelude.{◌≡◌, ◌≤◌};
ghost use Rattle.plinq_enumerator.specs.Growing.{growth_rule, size_at};

use crate::growth_fault::GrowthFault;
use std::marker::Model;

/// How many items the chunks of a partition have, one after another.
///
/// The first chunks have `first` items; after each `repeat` chunks the size doubles, up to `max`.
///
/// ```text
/// let growth = Growth::new(1, 3, 512)?;   // 1, 1, 1, 2, 2, 2, 4, 4, 4, 8 ..
/// ```
#[derive(Clone, Copy, Debug, PartialEq, Eq)]
pub struct Growth {
    first: u64,
    repeat: u64,
    max: u64,
}

impl Model for Growth {
    ghost use Rattle.plinq_enumerator.specs.Growing.{GrowthRule, IsGrowth};

    ghost Value = { GrowthRule };

    ghost view = { λ g. record { first = g.first; repeat = g.repeat; max = g.max } };

    ghost invariant = { λ g. IsGrowth g.first g.repeat g.max };

    ghost inverse = { λ r. record { first = r.first; repeat = r.repeat; max = r.max } };
}

impl Growth {
    /// Chunks of one item (.NET's `EnumerablePartitionerOptions.NoBuffering`).
    pub const ONE: Growth = Growth {
        first: 1,
        repeat: 1,
        max: 1,
    };

    /// Chunks of one item at first, doubling after every third chunk up to 512.
    pub const DEFAULT: Growth = Growth {
        first: 1,
        repeat: 3,
        max: 512,
    };

    /// The growth of these three numbers.
    ///
    /// # Errors
    ///
    /// [`GrowthFault::Zero`] if one of them is 0, else [`GrowthFault::FirstAboveMax`], else
    /// [`GrowthFault::MaxTooLarge`] if `max` is above 65,536.
    pub fn new(first: u64, repeat: u64, max: u64) -> Result<Growth, GrowthFault>
        ensures { result ≡ growth_rule first repeat max }
    {
        if first == 0 || repeat == 0 || max == 0 {
            Err(GrowthFault::Zero)
        } else if first > max {
            Err(GrowthFault::FirstAboveMax)
        } else if max > Growth::MAX {
            Err(GrowthFault::MaxTooLarge)
        } else {
            Ok(Growth { first, repeat, max })
        }
    }

    /// The size of chunk number `i`, in items, the first being number 0.
    pub fn size(&self, i: u64) -> u64
        ensures size { result ≡ size_at self.now i }
        ensures least { 1 ≤ result }
        ensures most { result ≤ 65536 }
    {
        // 16 doublings of one item are the largest size already.
        let doublings = (i / self.repeat).min(16);
        self.max.min(self.first * 2u64.pow(doublings as u32))
    }

    /// The largest size of a chunk, in items.
    const MAX: u64 = 65536;
}
