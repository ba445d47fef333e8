//! What the caller's thread does with the parts that workers send.
ghost use Rattle.std.specs.Prelude.{◌≡◌, ◌≤◌, ◌<◌, ◌^◌, ℕ, List, true, false, ◌||◌, is_some};
ghost use Rattle.plinq_ops.specs.declared.results.ChunkResult.{ChunkResult};
ghost use Rattle.plinq_ops.specs.Tails.{end_of_result};
ghost use Rattle.plinq_merge.specs.Joiners.{WaitsFor, has_decided};
ghost use Rattle.plinq_merge.specs.OfferedKeys.{is_offered};
ghost use Rattle.plinq_merge.specs.Joining.{IsReady};
ghost use Rattle.plinq_run.specs.inner.Merged.{Accepts, AcceptsInto};

use plinq_crew::Consumer;
use plinq_merge::{Joiner, MergeFault, TakeInto, Taker};
use plinq_ops::ChunkResult;

/// A joiner, and the fault after which it is offered nothing more.
#[derive(Drop)]
pub(crate) struct Merging<W, T> {
    pub(crate) joiner: Joiner<W, T>,
    pub(crate) fault: Option<MergeFault>,
}

impl<W: Taker> Merging<W, W::Item> {
    /// Offers a part, unless there was a fault before.
    fn accept<O>(&mut self, part: ChunkResult<W::Item>, out: &mut O)
    where
        W: TakeInto<O>,
        requires ready { IsReady W.can_take self.old.joiner }
        requires within { end_of_result part ≤ 2 ^ 40 }
        ensures ready { IsReady W.can_take self.new.joiner }
        ensures accepts { Accepts W.made self.old out.old part self.new out.new }
    {
        if self.fault.is_some() {
            return;
        }
        if let Err(fault) = self.joiner.offer(part, out) {
            self.fault = Some(fault);
        }
    }

    /// Whether it is offered nothing more, or wants nothing more.
    fn is_over(&self) -> bool
        ensures { result ≡ (is_some self.now.fault || has_decided self.now.joiner) }
    {
        self.fault.is_some() || self.joiner.decided()
    }
}

/// A joiner with its faults, and where its taker puts things, both lent.
#[derive(Drop)]
pub(crate) struct MergingInto<'a, 'b, W, T, O> {
    pub(crate) merging: &'a mut Merging<W, T>,
    pub(crate) out: &'b mut O,
}

impl<'a, 'b, W: TakeInto<O>, O> Consumer<W::Item> for MergingInto<'a, 'b, W, W::Item, O> {
    ghost is_ready = { λ m. IsReady W.can_take m.merging.now.joiner };

    ghost wants_no_more = { λ m. is_some m.merging.now.fault || has_decided m.merging.now.joiner };

    ghost accepts = { λ m part m'. AcceptsInto W.made m part m' };

    fn accept(&mut self, part: ChunkResult<W::Item>)
        requires ready { IsReady W.can_take self.old.merging.now.joiner }
        requires within { end_of_result part ≤ 2 ^ 40 }
        ensures ready { IsReady W.can_take self.new.merging.now.joiner }
        ensures accepts { AcceptsInto W.made self.old part self.new }
    {
        self.merging.accept(part, self.out);
    }

    fn idle(&mut self)
        ensures { self.new ≡ self.old }
    {
        if self.merging.fault.is_none() {
            self.merging.joiner.idle(self.out);
        }
    }

    fn is_over(&self) -> bool {
        self.merging.is_over()
    }

    fn next_key(&self) -> u64
        ensures { (offers : List (ChunkResult W.Item)) → WaitsFor self.now.merging.now.joiner offers →
            ((key : ℕ) → key < result → is_offered offers key ≡ true) × (is_offered offers result ≡ false) }
    {
        self.merging.joiner.next_key()
    }

    fn merged_items(&self) -> u64 {
        self.merging.joiner.joined_items()
    }
}
