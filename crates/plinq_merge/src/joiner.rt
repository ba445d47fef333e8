ghost use Rattle.std.specs.Prelude.{◌≡◌, ◌<◌, ◌≤◌, ◌^◌, ℕ, List, [], true, false, Ok, Err, IfOk, IfErr};
ghost use Rattle.plinq_merge.specs.declared.joiner_state.JoinerState.TheVariants.{Open, Decided};
ghost use Rattle.plinq_ops.specs.declared.results.ChunkResult.{ChunkResult};
ghost use Rattle.plinq_ops.specs.Tails.{end_of_result};
ghost use Rattle.plinq_merge.specs.OfferedKeys.{is_offered};
ghost use Rattle.plinq_merge.specs.Joining.{IsReady};
ghost use Rattle.plinq_merge.specs.Joiners.{taker_of, order_of, WaitsFor, has_decided, ending_of, JoinsOffer};

use crate::delivery_fault::DeliveryFault;
use crate::joined::Joined;
use crate::joiner_state::JoinerState;
use crate::joining::Joining;
use crate::merge_fault::MergeFault;
use crate::more::More;
use crate::taker::{TakeInto, Taker};
use plinq_ops::{ChunkResult, Order};
use plinq_source::Ending;
use std::alloc::Global;

/// Joins the results of a plan's workers by key, in whatever order they come, for whatever takes them.
#[derive(Drop)]
pub struct Joiner<W, T> {
    pub(crate) work: Joining<W, T>,
    pub(crate) standing: JoinerState,
}

impl<W: Taker> Joiner<W, W::Item> {
    /// The joiner to which nothing was offered. It takes no memory.
    pub fn new(alloc: Global, order: Order, taker: W) -> Joiner<W, W::Item>
        requires { W.can_take taker ≡ true }
        ensures order { order_of result ≡ order }
        ensures taker { taker_of result ≡ taker }
        ensures still { result.standing ≡ Open }
        ensures ready { IsReady W.can_take result }
        ensures nothing { WaitsFor result [] }
    {
        Joiner {
            work: Joining::new(alloc, order, taker),
            standing: JoinerState::Open,
        }
    }

    /// The joiner of which the answer is decided from the start: its taker gets nothing. It takes no memory.
    pub fn decided_by(alloc: Global, order: Order, taker: W, ending: Ending) -> Joiner<W, W::Item>
        ensures order { order_of result ≡ order }
        ensures taker { taker_of result ≡ taker }
        ensures decided { result.standing ≡ Decided ending }
        ensures ready { IsReady W.can_take result }
    {
        Joiner {
            work: Joining::new(alloc, order, taker),
            standing: JoinerState::Decided(ending),
        }
    }

    /// Offers the result of a chunk, and gives the taker the items whose turn it brings.
    ///
    /// Its keys are below 2^40. Once the answer is decided, the taker is given nothing more and the answer is
    /// [`More::No`].
    ///
    /// # Errors
    ///
    /// [`MergeFault::Twice`] if one of its keys was offered before; the joiner is unchanged.
    /// [`MergeFault::Memory`] and [`MergeFault::Sink`] if the taker broke off or there was no room; the joiner has
    /// failed. [`MergeFault::Failed`] from then on.
    pub fn offer<O>(
        &mut self,
        offered: ChunkResult<W::Item>,
        out: &mut O,
    ) -> Result<More, MergeFault>
    where
        W: TakeInto<O>,
        requires ready { IsReady W.can_take self.old }
        requires within { end_of_result offered ≤ 2 ^ 40 }
        ensures ready { IsReady W.can_take self.new }
        ensures order { order_of self.new ≡ order_of self.old }
        ensures takes { JoinsOffer W.made self.old offered out.old result self.new out.new }
    {
        match self.standing {
            JoinerState::Failed => return Err(MergeFault::Failed),
            JoinerState::Decided(_) => return Ok(More::No),
            JoinerState::Open => {}
        }
        let end = offered.first + offered.count;
        if self.work.row.buffer.overlaps(offered.first, end) {
            return Err(MergeFault::Twice);
        }
        match self.work.join(offered, out) {
            Ok(None) => Ok(More::Yes),
            Ok(Some(ending)) => {
                self.standing = JoinerState::Decided(ending);
                Ok(More::No)
            }
            Err(DeliveryFault::Memory) => {
                self.standing = JoinerState::Failed;
                Err(MergeFault::Memory)
            }
            Err(DeliveryFault::Sink(code)) => {
                self.standing = JoinerState::Failed;
                Err(MergeFault::Sink(code))
            }
        }
    }

    /// Reports where its taker puts things that nothing comes for now.
    pub fn idle<O>(&self, out: &mut O)
    where
        W: TakeInto<O>,
        ensures { out.new ≡ out.old }
    {
        self.work.taker.idle(out);
    }

    /// Whether the answer is decided; not after a failure. Takes no memory.
    pub fn decided(&self) -> bool
        ensures { result ≡ has_decided self.now }
    {
        match self.standing {
            JoinerState::Open => false,
            JoinerState::Decided(_) => true,
            JoinerState::Failed => false,
        }
    }

    /// The first key whose result is missing, while the answer is open. Takes no memory.
    pub fn next_key(&self) -> u64
        ensures { (offers : List (ChunkResult W.Item)) → WaitsFor self.now offers →
            ((key : ℕ) → key < result → is_offered offers key ≡ true) × (is_offered offers result ≡ false) }
    {
        self.work.row.buffer.next_key()
    }

    /// How many items had their turn so far, or the greatest number if there were more. Takes no memory.
    pub fn joined_items(&self) -> u64 {
        self.work.items
    }

    /// How the answer ends. Takes no memory.
    ///
    /// # Errors
    ///
    /// [`MergeFault::Gap`] if the answer isn't decided, [`MergeFault::Failed`] after a failure.
    pub fn ending(&self) -> Result<Ending, MergeFault>
        ensures { result ≡ ending_of self.now }
    {
        match self.standing {
            JoinerState::Open => Err(MergeFault::Gap),
            JoinerState::Decided(ending) => Ok(ending),
            JoinerState::Failed => Err(MergeFault::Failed),
        }
    }

    /// The taker, and how the answer ends. Takes no memory.
    ///
    /// # Errors
    ///
    /// Those of [`Joiner::ending`].
    pub fn finish(self) -> Result<Joined<W>, MergeFault>
        ensures taker { IfOk result (λ joined. joined.taker ≡ taker_of self) }
        ensures ending { IfOk result (λ joined. ending_of self ≡ Ok joined.ending) }
        ensures err { IfErr result (λ fault. ending_of self ≡ Err fault) }
    {
        let ending = self.ending()?;
        Ok(Joined {
            taker: self.work.taker,
            ending,
        })
    }
}
