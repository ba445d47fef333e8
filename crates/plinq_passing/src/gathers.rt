ghost use Rattle.std.specs.Prelude.{◌≡◌, ⊤, ◌∷◌, []};
ghost use Rattle.plinq_source.specs.Trace.{open_trace};
ghost use Rattle.plinq_ops.specs.Batches.{batches_from};
ghost use Rattle.plinq_mapped.specs.Making.{DeliversOn};
ghost use Rattle.plinq_merge.specs.Sending.{IsCutOff};
ghost use Rattle.plinq_passing.specs.Passing.{refusal_of};

use crate::visits::Visits;
use plinq_mapped::DeliverMade;
use plinq_merge::{DeliveryFault, Sink};
use std::marker::PhantomData;

/// What came and wasn't sent yet, and the sink that a batch goes to once it is full.
#[derive(Drop)]
pub(crate) struct Gathered<'a, K: Sink> {
    pub(crate) made: DeliverMade<K::Item>,
    // (whether there was no room for the last item that came)
    pub(crate) short: bool,
    pub(crate) sink: &'a mut K,
}

/// How it is given items one by one.
pub(crate) struct Gathers<'a, K>(PhantomData<&'a K>);

impl<'a, K: Sink<Item: Copy>> Visits for Gathers<'a, K> {
    type Called = Gathered<'a, K>;

    type Item = K::Item;

    ghost is_called = { ⊤ };

    ghost takes = { λ s y t. (DeliversOn K.accepts K.refuses s.made.size s.made.held.items s.sink.now (open_trace (y ∷ [])) t.made.held.items t.sink.now)
        × (t.made.size ≡ s.made.size) × (t.sink.ghost_name ≡ s.sink.ghost_name) };

    ghost refuses = { λ s y code t. (IsCutOff K.accepts K.refuses s.sink.now (batches_from s.made.size s.made.held.items (open_trace (y ∷ [])))
        (refusal_of t.short code) t.sink.now) × (t.made.size ≡ s.made.size) × (t.sink.ghost_name ≡ s.sink.ghost_name) };

    fn visit(called: &mut Gathered<'a, K>, item: K::Item) -> Result<(), u32> {
        match called.made.put(item, called.sink) {
            Ok(()) => Ok(()),
            Err(DeliveryFault::Memory) => {
                called.short = true;
                Err(0)
            }
            Err(DeliveryFault::Sink(code)) => {
                called.short = false;
                Err(code)
            }
        }
    }
}
