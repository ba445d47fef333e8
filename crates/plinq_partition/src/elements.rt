ghost use Rattle.std.specs.Prelude.{◌≡◌, ◌≤◌, List, length, IfOk};
ghost use Rattle.plinq_keyed.specs.declared.keyed.Keyed.{Keyed};
ghost use Rattle.plinq_partition.specs.Cuts.{between};

use plinq_keyed::Keyed;
use std::alloc::AllocError;

/// Keyed elements that can be copied out a stretch at a time.
pub(crate) trait Elements {
    type Item: Copy;

    ghost elements: { Self → List (Keyed Self.Item) };

    /// How many there are.
    fn count(&self) -> u64
        ensures { result ≡ length (elements self.now) };

    /// Those from one place up to and without another, in one allocation.
    fn stretch(&self, from: u64, to: u64) -> Result<Vec<Keyed<Self::Item>>, AllocError>
        requires ordered { from ≤ to }
        requires within { to ≤ length (elements self.now) }
        ensures { IfOk result (λ part. part.items ≡ between from to (elements self.now)) };
}
