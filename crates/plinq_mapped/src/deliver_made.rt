ghost use Rattle.std.specs.Prelude.{◌≡◌, [], ◌∷◌, true, Ok, None, length};
ghost use Rattle.plinq_source.specs.Trace.{open_trace, ended_trace};
ghost use Rattle.plinq_ops.specs.Batches.{batch_size, is_full};
ghost use Rattle.plinq_merge.specs.Sending.{Delivers};
ghost use Rattle.plinq_mapped.specs.Making.{Gives, DeliversOr, MadeBy, made-lawful};

use plinq_groups::Mapped;
use plinq_merge::{DeliveryFault, Sink, TakeInto, Taker};
use plinq_ops::MergeOption;
use plinq_source::Ending;
use std::alloc::Global;

/// Delivers what was made to a sink, in batches. Of the parts of a run's answer the first item that faults ends it.
///
/// ```text
/// let mut made = DeliverMade::new(alloc, MergeOption::AutoBuffered);
/// made.put(item, &mut sink)?;         // for each item
/// made.end(Ending::End, &mut sink)?;
/// ```
#[derive(Drop)]
pub struct DeliverMade<B> {
    /// After how many a batch is full; a fully buffered one never is.
    pub size: Option<usize>,
    /// What is held back until a batch is full.
    pub held: Vec<B>,
}

impl<B: Drop> DeliverMade<B> {
    /// Delivers by this merge option; nothing was made yet. It takes no memory.
    pub fn new(alloc: Global, option: MergeOption) -> DeliverMade<B>
        ensures size { result.size ≡ batch_size option }
        ensures held { result.held.items ≡ [] }
    {
        DeliverMade {
            size: option.batch_size(),
            held: Vec::new(alloc),
        }
    }

    /// Whether what is held back fills a batch.
    fn is_full(&self) -> bool
        ensures { result ≡ is_full self.now.size (length self.now.held.items) }
    {
        match self.size {
            Some(size) => self.held.len() == size,
            None => false,
        }
    }

    /// Holds one more back, and hands out the batch that it fills.
    ///
    /// # Errors
    ///
    /// [`DeliveryFault::Memory`] if there is no room for it, [`DeliveryFault::Sink`] if the sink refuses the batch. It is of no more
    /// use then.
    pub fn put<K: Sink<Item = B>>(&mut self, one: B, out: &mut K) -> Result<(), DeliveryFault>
        ensures size { self.new.size ≡ self.old.size }
        ensures gives { DeliversOr K.accepts K.refuses self.old.size self.old.held.items out.old (open_trace (one ∷ [])) result self.new.held.items out.new }
    {
        self.held.push(one)?;
        if self.is_full() {
            send(self.held.as_slice(), out)?;
            self.held.clear();
        }
        Ok(())
    }

    /// Hands out the batches that these fill, and holds the rest back.
    fn deliver<K: Sink<Item = B>>(&mut self, made: Vec<B>, out: &mut K) -> Result<(), DeliveryFault>
        ensures size { self.new.size ≡ self.old.size }
        ensures gives { DeliversOr K.accepts K.refuses self.old.size self.old.held.items out.old (open_trace made.items) result self.new.held.items out.new }
    {
        for one in made {
            self.put(one, out)?;
        }
        Ok(())
    }

    /// Hands out what is held back, as the answer's ending says: if all is delivered at once, nothing but at [`Ending::End`].
    ///
    /// # Errors
    ///
    /// [`DeliveryFault::Sink`] if the sink refuses that batch.
    pub fn end<K: Sink<Item = B>>(
        &mut self,
        ending: Ending,
        out: &mut K,
    ) -> Result<Option<Ending>, DeliveryFault>
        ensures size { self.new.size ≡ self.old.size }
        ensures over { result ≡ Ok None → ⊥ }
        ensures gives { Gives K.accepts K.refuses self.old.size self.old.held.items out.old (ended_trace [] ending) result self.new.held.items out.new }
    {
        if self.held.is_empty() || self.size.is_none() && ending != Ending::End {
            return Ok(Some(ending));
        }
        send(self.held.as_slice(), out)?;
        Ok(Some(ending))
    }
}

/// Hands one batch to the sink.
fn send<K: Sink>(batch: &[K::Item], sink: &mut K) -> Result<(), DeliveryFault>
    ensures { Delivers K.accepts K.refuses sink.old (batch.now ∷ []) result sink.new }
{
    match sink.batch(batch) {
        Ok(()) => Ok(()),
        Err(code) => Err(DeliveryFault::Sink(code)),
    }
}

impl<B: Drop> Taker for DeliverMade<B> {
    type Item = Mapped<B>;

    ghost can_take = { λ _. true };
}

impl<B: Drop, K: Sink<Item = B>> TakeInto<K> for DeliverMade<B> {
    ghost made = { MadeBy K.accepts K.refuses };

    fn take(
        &mut self,
        items: Vec<Mapped<B>>,
        ending: Option<Ending>,
        out: &mut K,
    ) -> Result<Option<Ending>, DeliveryFault>
        ensures ready { result ≡ Ok None → true ≡ true }
        ensures last { result ≡ Ok None → ending ≡ None }
        ensures made { MadeBy K.accepts K.refuses self.old out.old (record { items = items.items; ending = ending }) result self.new out.new }
    {
        for part in items {
            let (made, fault) = part.into_parts();
            self.deliver(made, out)?;
            if let Some(code) = fault {
                return self.end(Ending::Fault(code), out);
            }
        }
        match ending {
            Some(ending) => self.end(ending, out),
            None => Ok(None),
        }
    }

    fn idle(&self, out: &mut K)
        ensures { out.new ≡ out.old }
    {
        out.idle();
    }

    ghost lawful = { made-lawful K.accepts K.refuses };
}
