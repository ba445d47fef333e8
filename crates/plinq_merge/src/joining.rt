ghost use Rattle.std.specs.Prelude.{◌≡◌, ◌≤◌, ◌^◌, [], true, Ok, None};
ghost use Rattle.plinq_ops.specs.Tails.{end_of_result};
ghost use Rattle.plinq_reorder.specs.Buffered.{IsFresh};
ghost use Rattle.plinq_merge.specs.Joining.{Waits, Joins};

use crate::delivery_fault::DeliveryFault;
use crate::pending::Pending;
use crate::row::Row;
use crate::taker::{TakeInto, Taker};
use plinq_ops::{ChunkResult, Order};
use plinq_source::Ending;
use std::alloc::Global;

/// Results that are joined by key: the row of keys, and what takes the items whose turn has come.
#[derive(Drop)]
pub(crate) struct Joining<W, T> {
    pub(crate) alloc: Global,
    pub(crate) order: Order,
    pub(crate) row: Row<T>,
    pub(crate) taker: W,
    /// How many items had their turn, or the greatest number if there were more.
    pub(crate) items: u64,
}

impl<W: Taker> Joining<W, W::Item> {
    /// Results of which none was offered yet.
    #[tactic(auto, using(crate::proofs::Joins::beginning))]
    pub(crate) fn new(alloc: Global, order: Order, taker: W) -> Joining<W, W::Item>
        ensures order { result.order ≡ order }
        ensures taker { result.taker ≡ taker }
        ensures nothing { Waits result.order result.row [] }
    {
        Joining {
            alloc,
            order,
            row: Row::new(alloc),
            taker,
            items: 0,
        }
    }

    /// Joins a result of keys that weren't offered before, and gives the taker the items whose turn it brings: up to a gap in
    /// the row or to the end of the answer.
    ///
    /// Returns how the answer ends, or `None` if it is still open.
    pub(crate) fn join<O>(
        &mut self,
        offered: ChunkResult<W::Item>,
        out: &mut O,
    ) -> Result<Option<Ending>, DeliveryFault>
    where
        W: TakeInto<O>,
        requires ready { W.can_take self.old.taker ≡ true }
        requires within { end_of_result offered ≤ 2 ^ 40 }
        requires fresh { IsFresh self.old.row.buffer offered.first (end_of_result offered) }
        ensures ready { result ≡ Ok None → W.can_take self.new.taker ≡ true }
        ensures order { self.new.order ≡ self.old.order }
        ensures joins { Joins W.made self.old offered out.old result self.new out.new }
    {
        let mut part = self.row.accept(self.alloc, self.order, offered)?;
        loop {
            self.items = self.items.saturating_add(part.items.len() as u64);
            let ending = give(&mut self.taker, part, out)?;
            if ending.is_some() {
                return Ok(ending);
            }
            let Some(next) = self.row.buffer.take_next() else {
                let ending = self.row.ending();
                if ending.is_none() {
                    return Ok(None);
                }
                return self.taker.take(Vec::new(self.alloc), ending, out);
            };
            part = next;
        }
    }
}

/// Gives a taker what a result brings now, unless that is nothing, as of one that waits for earlier keys.
fn give<W: TakeInto<O>, O>(
    taker: &mut W,
    part: Pending<W::Item>,
    out: &mut O,
) -> Result<Option<Ending>, DeliveryFault>
    requires { W.can_take taker.old ≡ true }
    ensures ready { result ≡ Ok None → W.can_take taker.new ≡ true }
    ensures last { result ≡ Ok None → part.ending ≡ None }
    ensures made { W.made taker.old out.old part result taker.new out.new }
{
    if part.items.is_empty() && part.ending.is_none() {
        return Ok(None);
    }
    taker.take(part.items, part.ending, out)
}
