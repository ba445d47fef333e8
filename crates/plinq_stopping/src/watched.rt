ghost use Rattle.std.specs.Prelude.{◌≡◌, true, Ok, None};
ghost use Rattle.plinq_mapped.specs.Making.{MadeBy, made-lawful};
ghost use Rattle.plinq_stopping.specs.inner.Watching.{Watches, watches-lawful};

use plinq_groups::Mapped;
use plinq_mapped::DeliverMade;
use plinq_merge::{Cancel, DeliveryFault, Sink, TakeInto, Taker, WithCancellation};
use plinq_source::Ending;

/// Delivers what was made, unless a token returns true before.
#[derive(Drop)]
pub(crate) struct Watched<B> {
    pub(crate) made: DeliverMade<B>,
}

impl<B: Drop> Taker for Watched<B> {
    type Item = Mapped<B>;

    ghost can_take = { λ _. true };
}

impl<'w, B: Drop, C: Cancel, K: Sink<Item = B>> TakeInto<WithCancellation<'w, C, K>>
    for Watched<B> {
    ghost made = { Watches C.asks (λ v. v.made) (MadeBy K.accepts K.refuses) };

    fn take(
        &mut self,
        items: Vec<Mapped<B>>,
        ending: Option<Ending>,
        out: &mut WithCancellation<'w, C, K>,
    ) -> Result<Option<Ending>, DeliveryFault>
        ensures ready { result ≡ Ok None → true ≡ true }
        ensures last { result ≡ Ok None → ending ≡ None }
        ensures made { Watches C.asks (λ v. v.made) (MadeBy K.accepts K.refuses) self.old out.old
            (record { items = items.items; ending = ending }) result self.new
            out.new }
    {
        if out.stops() {
            return Err(DeliveryFault::Sink(0));
        }
        self.made.take(items, ending, out)
    }

    fn idle(&self, out: &mut WithCancellation<'w, C, K>)
        ensures { out.new ≡ out.old }
    {
        out.sink.idle();
    }

    ghost lawful = { watches-lawful C.asks (λ v. v.made) (MadeBy K.accepts K.refuses) (made-lawful K.accepts K.refuses) };
}
