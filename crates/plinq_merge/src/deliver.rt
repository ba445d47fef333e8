ghost use Rattle.std.specs.Prelude.{◌≡◌, [], true, false, Ok, None, IfOk};
ghost use Rattle.std.specs.List.{list_any};
ghost use Rattle.plinq_ops.specs.Batches.{batch_size};
ghost use Rattle.plinq_ops.specs.Operator.{stages_of};
ghost use Rattle.plinq_ops.specs.Feeding.{is_empty_take};
ghost use Rattle.plinq_merge.specs.Delivering.{line_of, can_deliver, MadeBy};
ghost use Rattle.plinq_merge.specs.Deliveries.{made-lawful};

use crate::buffer::{Buffer, buffer_of};
use crate::delivery_fault::DeliveryFault;
use crate::sending::deliver_piece;
use crate::sink::Sink;
use crate::taker::{TakeInto, Taker};
use plinq_lambda::Lambda;
use plinq_ops::{MergeOption, Op, Pipeline};
use plinq_source::{Ending, OutOfMemory};
use std::alloc::Global;

/// Sends items through the operators after the merge, and delivers the batches that come out to a sink.
#[derive(Drop)]
pub struct Deliver<'a, L, T> {
    pub(crate) alloc: Global,
    /// The operators after the merge.
    pub(crate) pipeline: Pipeline<'a, L>,
    /// What is held back until a batch is full.
    pub(crate) buffer: Buffer<T>,
}

impl<'a, L: Lambda> Deliver<'a, L, L::Item> {
    /// Delivers by these operators and this merge option; nothing was taken yet.
    ///
    /// # Errors
    ///
    /// [`OutOfMemory`] if there is no room for what is left of the operators or for a batch.
    pub fn new(
        alloc: Global,
        ops: &'a [Op<L>],
        option: MergeOption,
    ) -> Result<Deliver<'a, L, L::Item>, OutOfMemory>
        ensures begun { IfOk result (λ d. line_of L.meaning d ≡ record {
          after = stages_of L.meaning ops.now;
          now = stages_of L.meaning ops.now;
          held = [];
          size = batch_size option;
        }) }
        ensures ready { IfOk result (λ d. list_any is_empty_take ops.now ≡ false → can_deliver L.meaning d ≡ true) }
    {
        let pipeline = Pipeline::new(alloc, ops)?;
        let buffer = buffer_of(alloc, option)?;
        Ok(Deliver {
            alloc,
            pipeline,
            buffer,
        })
    }
}

impl<'a, L: Lambda> Taker for Deliver<'a, L, L::Item> {
    type Item = L::Item;

    ghost can_take = { λ d. can_deliver L.meaning d };
}

impl<'a, L: Lambda, K: Sink<Item = L::Item>> TakeInto<K> for Deliver<'a, L, L::Item> {
    ghost made = { MadeBy K.accepts K.refuses L.meaning };

    fn take(
        &mut self,
        items: Vec<L::Item>,
        ending: Option<Ending>,
        out: &mut K,
    ) -> Result<Option<Ending>, DeliveryFault>
        requires { can_deliver L.meaning self.old ≡ true }
        ensures ready { result ≡ Ok None → can_deliver L.meaning self.new ≡ true }
        ensures last { result ≡ Ok None → ending ≡ None }
        ensures made { MadeBy K.accepts K.refuses L.meaning self.old out.old (record { items = items.items; ending = ending }) result self.new out.new }
    {
        let mut block = items;
        let ending = self.pipeline.feed_block(self.alloc, &mut block, ending)?;
        deliver_piece(&mut self.buffer, block.as_slice(), ending, out)?;
        Ok(ending)
    }

    fn idle(&self, out: &mut K)
        ensures { out.new ≡ out.old }
    {
        out.idle();
    }

    ghost lawful = { made-lawful K.accepts K.refuses (line_of L.meaning) };
}
