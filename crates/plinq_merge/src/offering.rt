//! What a merger is offered, and what that delivers.
ghost use Rattle.std.specs.Prelude.{◌≡◌, ◌≤◌, ◌^◌, ◌||◌, false};
ghost use Rattle.plinq_merge.specs.Cancelling.{Counts, CountsNot};
ghost use Rattle.plinq_merge.specs.Mergers.{plan_of, delivered_of, is_cancelled, AsksEach, Offers, OffersWith};
ghost use Rattle.plinq_merge.specs.inner.Lending.{OffersLent};
ghost use Rattle.plinq_ops.specs.Tails.{end_of_result};

use crate::cancel::Cancel;
use crate::merge_fault::MergeFault;
use crate::merger::Merger;
use crate::more::More;
use crate::never_cancel::NeverCancel;
use crate::sink::Sink;
use crate::with_cancellation::WithCancellation;
use plinq_lambda::Lambda;
use plinq_ops::ChunkResult;

impl<'a, L: Lambda> Merger<'a, L> {
    /// Offers the result of a chunk, and delivers the batches that the answer gains by it.
    ///
    /// Its keys are below 2^40. Once the answer is decided, nothing more is delivered and
    /// the answer is [`More::No`]. The last batch is delivered by the call that decides it.
    ///
    /// # Errors
    ///
    /// [`MergeFault::Twice`] if one of its keys was offered before; the merger is unchanged.
    /// [`MergeFault::Memory`] and [`MergeFault::Sink`] if a batch couldn't be made or was refused: the batches before
    /// it were delivered, and the merger has failed. [`MergeFault::Failed`] from then on.
    pub fn offer<K: Sink<Item = L::Item>>(
        &mut self,
        offered: ChunkResult<L::Item>,
        sink: &mut K,
    ) -> Result<More, MergeFault>
        requires { end_of_result offered ≤ 2 ^ 40 }
        ensures plan { plan_of self.new ≡ plan_of self.old }
        ensures takes { Offers K.accepts K.refuses self.old offered sink.old result self.new sink.new }
        ensures counts { Offers (Counts K.accepts) (CountsNot K.refuses) self.old offered
            (record { sink = sink.old; delivered = delivered_of self.old }) result
            self.new (record { sink = sink.new; delivered = delivered_of self.new }) }
    {
        let mut token = NeverCancel;
        self.offer_with(offered, &mut token, sink)
    }

    /// Offers the result of a chunk, and asks the token before each batch, with the number of batches that this merger has
    /// delivered.
    ///
    /// Else it is [`Merger::offer`].
    ///
    /// # Errors
    ///
    /// [`MergeFault::Cancelled`] if the token answered `true`: the batches before the one that it was asked of were
    /// delivered, and the merger has failed. Others are those of [`Merger::offer`].
    pub fn offer_with<C: Cancel, K: Sink<Item = L::Item>>(
        &mut self,
        offered: ChunkResult<L::Item>,
        token: &mut C,
        sink: &mut K,
    ) -> Result<More, MergeFault>
        requires { end_of_result offered ≤ 2 ^ 40 }
        ensures plan { plan_of self.new ≡ plan_of self.old }
        ensures asks { AsksEach C.asks K.accepts K.refuses
            (record { token = token.old; sink = sink.old; delivered = delivered_of self.old }) result
            (record { token = token.new; sink = sink.new; delivered = delivered_of self.new }) }
        ensures told { C.has_told token.new ≡ (C.has_told token.old || is_cancelled result) }
        ensures takes { OffersWith C.asks K.accepts K.refuses self.old offered
            (record { token = token.old; sink = sink.old; delivered = delivered_of self.old }) result
            self.new (record { token = token.new; sink = sink.new; delivered = delivered_of self.new }) }
    {
        let mut with = WithCancellation {
            token,
            sink,
            delivered: self.delivered,
            is_stopped: false,
        };
        let answer = self.offer_within(offered, &mut with);
        self.delivered = with.delivered;
        answer
    }

    /// Offers the result of a chunk to a sink with its token.
    fn offer_within<C: Cancel, K: Sink<Item = L::Item>>(
        &mut self,
        offered: ChunkResult<L::Item>,
        with: &mut WithCancellation<'_, C, K>,
    ) -> Result<More, MergeFault>
        requires within { end_of_result offered ≤ 2 ^ 40 }
        requires unstopped { with.old.is_stopped ≡ false }
        ensures { OffersLent C.asks C.has_told K.accepts K.refuses self.old offered with.old result self.new with.new }
    {
        let answer = self.offer_to(offered, with);
        with.answer_unless_stopped(answer)
    }

    /// How many batches it has delivered, and the greatest number if there were more. Takes no memory.
    pub fn delivered(&self) -> u64
        ensures { result ≡ delivered_of self.now }
    {
        self.delivered
    }
}
