ghost use Rattle.std.specs.Prelude.{◌≡◌, true, Ok, None};
ghost use Rattle.plinq_run.specs.inner.Combining.{MadeBy};
ghost use Rattle.plinq_run.specs.inner.CombiningLawful.{made-lawful};

use plinq_aggregate::GrowingAggregator;
use plinq_merge::{DeliveryFault, TakeInto, Taker};
use plinq_source::Ending;
use std::alloc::Global;
use std::mem::replace;

/// Combines accumulators whose turn has come, after the one of what came before them.
#[derive(Drop)]
pub(crate) struct Combiner<'a, A> {
    pub(crate) alloc: Global,
    pub(crate) aggregator: &'a A,
}

impl<'a, A: GrowingAggregator> Taker for Combiner<'a, A> {
    type Item = A::Acc;

    ghost can_take = { λ _. true };
}

impl<'a, A: GrowingAggregator> TakeInto<A::Acc> for Combiner<'a, A> {
    ghost made = { MadeBy A.folding };

    fn take(
        &mut self,
        items: Vec<A::Acc>,
        ending: Option<Ending>,
        out: &mut A::Acc,
    ) -> Result<Option<Ending>, DeliveryFault>
        ensures ready { result ≡ Ok None → true ≡ true }
        ensures last { result ≡ Ok None → ending ≡ None }
        ensures made { MadeBy A.folding self.old out.old (record { items = items.items; ending = ending }) result self.new out.new }
    {
        let mut acc = replace(out, self.aggregator.seed(self.alloc));
        for part in items {
            acc = self.aggregator.combine(self.alloc, acc, part)?;
        }
        *out = acc;
        Ok(ending)
    }

    fn idle(&self, out: &mut A::Acc)
        ensures { out.new ≡ out.old }
    {}

    ghost lawful = { made-lawful A.folding };
}
