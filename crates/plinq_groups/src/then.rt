ghost use Rattle.plinq_groups.specs.Composed.{then_made};

use crate::make_of::MakeOf;
use crate::map_fault::MapFault;
use std::alloc::Global;

/// Two steps on each item, one after the other: what the second makes of what the first has made.
///
/// An item is left out if either leaves it out, and faults if either faults. No list stands between them.
#[derive(Drop)]
pub struct Then<F, G> {
    pub first: F,
    pub second: G,
}

impl<F: MakeOf, G: MakeOf<Item = F::Made>> MakeOf for Then<F, G> {
    type Item = F::Item;

    type Made = G::Made;

    ghost makes = { λ t x. then_made (F.makes t.first x) (G.makes t.second) };

    #[inline(always)]
    fn make_of(&self, alloc: Global, x: F::Item) -> Result<Option<G::Made>, MapFault> {
        match self.first.make_of(alloc, x) {
            Ok(Some(made)) => self.second.make_of(alloc, made),
            Ok(None) => Ok(None),
            Err(fault) => Err(fault),
        }
    }
}
