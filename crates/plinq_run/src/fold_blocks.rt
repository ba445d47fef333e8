ghost use Rattle.std.specs.Prelude.{◌≡◌, true, Ok, None};
ghost use Rattle.plinq_run.specs.inner.Blocks.{can_fold, MadeBy, made-lawful};

use plinq_aggregate::GrowingAggregator;
use plinq_lambda::Lambda;
use plinq_merge::{DeliveryFault, TakeInto, Taker};
use plinq_ops::Pipeline;
use plinq_source::Ending;
use std::alloc::Global;

/// Sends items through the operators after the merge, folds each block that comes out, and gives its accumulator to a taker.
#[derive(Drop)]
pub(crate) struct FoldBlocks<'a, 'b, L, A, W> {
    pub(crate) alloc: Global,
    /// The operators after the merge.
    pub(crate) pipeline: Pipeline<'a, L>,
    pub(crate) aggregator: &'b A,
    /// What takes the accumulators.
    pub(crate) inner: W,
}

impl<'a, 'b, L, A, W> Taker for FoldBlocks<'a, 'b, L, A, W>
where
    L: Lambda,
    A: GrowingAggregator<Item = L::Item>,
    W: Taker<Item = A::Acc>,
{
    type Item = L::Item;

    ghost can_take = { λ d. can_fold L.meaning W.can_take d };
}

impl<'a, 'b, L, A, W, O> TakeInto<O> for FoldBlocks<'a, 'b, L, A, W>
where
    L: Lambda,
    A: GrowingAggregator<Item = L::Item>,
    W: Taker<Item = A::Acc> + TakeInto<O>,
{
    ghost made = { MadeBy L.meaning A.folding W.made };

    fn take(
        &mut self,
        items: Vec<L::Item>,
        ending: Option<Ending>,
        out: &mut O,
    ) -> Result<Option<Ending>, DeliveryFault>
        requires { can_fold L.meaning W.can_take self.old ≡ true }
        ensures ready { result ≡ Ok None → can_fold L.meaning W.can_take self.new ≡ true }
        ensures last { result ≡ Ok None → ending ≡ None }
        ensures made { MadeBy L.meaning A.folding W.made self.old out.old (record { items = items.items; ending = ending }) result self.new out.new }
    {
        let mut block = items;
        let ending = self.pipeline.feed_block(self.alloc, &mut block, ending)?;
        let mut parts = Vec::with_capacity(self.alloc, 1)?;
        let seed = self.aggregator.seed(self.alloc);
        let part = self
            .aggregator
            .update_block(self.alloc, seed, block.as_slice())?;
        parts.push_reserved(part);
        self.inner.take(parts, ending, out)
    }

    fn idle(&self, out: &mut O)
        ensures { out.new ≡ out.old }
    {
        self.inner.idle(out);
    }

    ghost lawful = { made-lawful L.meaning A.folding A.lawful W.made W.lawful };
}
