ghost use Rattle.std.specs.Prelude.{◌≡◌, ◌||◌};
ghost use Rattle.plinq_merge.specs.Cancelling.{IsAsked};
ghost use Rattle.plinq_merge.specs.Lent.{AreSame, Refuses, Takes, delivery_of};
ghost use Rattle.plinq_merge.specs.inner.Stopped.{answer_unless_stopped};

use crate::cancel::Cancel;
use crate::merge_fault::MergeFault;
use crate::more::More;
use crate::sink::Sink;

/// A sink of which a token is asked before each batch: if that answers `true`, the batch is refused and the sink isn't
/// called.
#[derive(Drop)]
pub struct WithCancellation<'a, C, K> {
    pub token: &'a mut C,
    pub sink: &'a mut K,
    /// How many batches were delivered, or the greatest number if there were more.
    pub delivered: u64,
    /// Whether the token has answered `true`.
    pub is_stopped: bool,
}

impl<'a, C: Cancel, K> WithCancellation<'a, C, K> {
    /// Asks the token, and notes if it answers `true`.
    pub fn stops(&mut self) -> bool
        ensures same { AreSame self.old self.new }
        ensures asked { IsAsked C.asks result (delivery_of self.old) (delivery_of self.new) }
        ensures noted { self.new.is_stopped ≡ (self.old.is_stopped || result) }
    {
        let answer = self.token.cancelled(self.delivered);
        self.is_stopped = self.is_stopped || answer;
        answer
    }

    /// What an offer to this sink answers: Cancelled if the token has stopped it, and else what it answered without that.
    pub(crate) fn answer_unless_stopped(
        &self,
        answer: Result<More, MergeFault>,
    ) -> Result<More, MergeFault>
        ensures { result ≡ answer_unless_stopped self.now.is_stopped answer }
    {
        if self.is_stopped {
            return Err(MergeFault::Cancelled);
        }
        answer
    }
}

impl<'a, C: Cancel, K: Sink> Sink for WithCancellation<'a, C, K> {
    type Item = K::Item;

    ghost accepts = { λ s b s'. Takes C.asks K.accepts s b s' };

    ghost refuses = { λ s b code s'. Refuses C.asks K.refuses s b code s' };

    fn batch(&mut self, items: &[K::Item]) -> Result<(), u32> {
        if self.stops() {
            return Err(0);
        }
        self.sink.batch(items)?;
        self.delivered = self.delivered.saturating_add(1);
        Ok(())
    }

    fn idle(&mut self) {
        self.sink.idle();
    }
}
