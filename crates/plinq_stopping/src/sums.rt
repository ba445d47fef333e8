ghost use Rattle.std.specs.Prelude.{◌≡◌, true, Ok, None};
ghost use Rattle.plinq_stopping.specs.inner.Summing.{SummedBy, summed-lawful};
ghost use Rattle.plinq_stopping.specs.inner.Watching.{Watches, watches-lawful};

use plinq_aggregate::GrowingAggregator;
use plinq_merge::{Cancel, DeliveryFault, TakeInto, Taker, WithCancellation};
use plinq_source::Ending;
use std::alloc::Global;
use std::mem::replace;

/// Combines accumulators whose turn has come, unless a token returns true before.
#[derive(Drop)]
pub(crate) struct Sums<'a, A> {
    pub(crate) alloc: Global,
    pub(crate) aggregator: &'a A,
}

impl<'a, A: GrowingAggregator> Taker for Sums<'a, A> {
    type Item = A::Acc;

    ghost can_take = { λ _. true };
}

impl<'a, 'w, A: GrowingAggregator, C: Cancel> TakeInto<WithCancellation<'w, C, A::Acc>>
    for Sums<'a, A> {
    ghost made = { Watches C.asks (λ v. v) (SummedBy A.folding) };

    fn take(
        &mut self,
        items: Vec<A::Acc>,
        ending: Option<Ending>,
        out: &mut WithCancellation<'w, C, A::Acc>,
    ) -> Result<Option<Ending>, DeliveryFault>
        ensures ready { result ≡ Ok None → true ≡ true }
        ensures last { result ≡ Ok None → ending ≡ None }
        ensures made { Watches C.asks (λ v. v) (SummedBy A.folding) self.old out.old (record { items = items.items; ending = ending }) result self.new out.new }
    {
        if out.stops() {
            return Err(DeliveryFault::Sink(0));
        }
        let mut acc = replace(out.sink, self.aggregator.seed(self.alloc));
        for part in items {
            acc = self.aggregator.combine(self.alloc, acc, part)?;
        }
        *out.sink = acc;
        Ok(ending)
    }

    fn idle(&self, out: &mut WithCancellation<'w, C, A::Acc>)
        ensures { out.new ≡ out.old }
    {}

    ghost lawful = { watches-lawful C.asks (λ v. v) (SummedBy A.folding) (summed-lawful A.folding) };
}
