ghost use Rattle.std.specs.Prelude.{◌≡◌, ◌≤◌, [], true, OnOk, OnErr, IfOk, vec_capacity};
ghost use Rattle.plinq_keyed.specs.declared.event.Event.TheVariants.{Ask, Close};
ghost use Rattle.plinq_keyed.specs.History.{is_legal_history, IsLegalHistory, place_after, start, next_record, with_next, tickets_below, IsChunkOf};

use crate::taking::take_items;
use plinq_keyed::{Chunk, Event, Guarded, Record, Tail};
use plinq_source::{OutOfMemory, Source};
use std::alloc::Global;

/// A source that is handed out in chunks, with the history of all requests.
///
/// Each request comes under a ticket, above those of all requests before it; a lock that draws them in turn lets
/// several threads share one enumerator. Once it is closed it hands out nothing more. What was asked so far, and what was
/// handed out for it, is read by [`Guarded::records`].
///
/// ```text
/// let mut numbers = Enumerator::new(alloc, ListSource::new(alloc, list));
/// let chunk = numbers.ask(0, 8)?;   // the first 8 items, or all if there are fewer
/// numbers.close(1)?;
/// ```
#[derive(Drop)]
pub struct Enumerator<S: Source> {
    alloc: Global,
    source: S,
    given: u64,
    closed: bool,
    records: Vec<Record>,
    ghost walked: { S.given source ≡ given },
    ghost at: { (place_after (S.whole source) start records.items).given ≡ given },
    ghost shut: { (place_after (S.whole source) start records.items).closed ≡ closed },
    ghost legal: { is_legal_history (S.whole source) records.items ≡ true },
}

impl<S: Source> Guarded for Enumerator<S> {
    ghost use Rattle.plinq_enumerator.specs.Held.{held_source, held_records};

    type Item = S::Item;

    ghost origin = { λ e. S.whole (held_source e) };

    ghost history = { held_records };

    fn records(&self) -> &[Record] {
        &self.records
    }
}

impl<S: Source> Enumerator<S> {
    /// The enumerator of a source that has given nothing yet. Takes no memory.
    pub fn new(alloc: Global, source: S) -> Enumerator<S>
        requires { S.given source ≡ 0 }
        ensures origin { ⟦<Enumerator<S> as Guarded>⟧.origin result ≡ S.whole source }
        ensures history { ⟦<Enumerator<S> as Guarded>⟧.history result ≡ [] }
    {
        Enumerator {
            alloc,
            source,
            given: 0,
            closed: false,
            records: Vec::new(alloc),
        }
    }

    /// Hands out the next `n` items, 1 to 65,536 of them, or what is left, and records it.
    ///
    /// # Errors
    ///
    /// [`OutOfMemory`] if there is no room for the chunk, or else for the record. Nothing has changed then: the
    /// source wasn't asked.
    pub fn ask(&mut self, ticket: u64, n: u64) -> Result<Chunk<S::Item>, OutOfMemory>
        requires least { 1 ≤ n }
        requires most { n ≤ 65536 }
        requires rising { tickets_below ticket (⟦<Enumerator<S> as Guarded>⟧.history self.old) ≡ true }
        ensures origin { ⟦<Enumerator<S> as Guarded>⟧.origin self.new ≡ ⟦<Enumerator<S> as Guarded>⟧.origin self.old }
        ensures legal { let held = ⟦<Enumerator<S> as Guarded>⟧ in IsLegalHistory (held.origin self.new) (held.history self.new) }
        ensures recorded { let held = ⟦<Enumerator<S> as Guarded>⟧ in
            OnOk result (held.history self.new ≡ with_next (held.origin self.old) (held.history self.old) ticket (Ask n)) }
        ensures chunk { let held = ⟦<Enumerator<S> as Guarded>⟧ in
            IfOk result (IsChunkOf (held.origin self.old) (next_record (held.origin self.old) (held.history self.old) ticket (Ask n))) }
        ensures unchanged { OnErr result (⟦<Enumerator<S> as Guarded>⟧.history self.new ≡ ⟦<Enumerator<S> as Guarded>⟧.history self.old) }
    {
        self.ask_into(ticket, n, Vec::new(self.alloc))
    }

    /// The same, but the chunk takes this list's room, and more only if it has too little. What was in the list goes.
    ///
    /// # Errors
    ///
    /// Those of [`Enumerator::ask`]. The list is dropped then.
    pub fn ask_into(
        &mut self,
        ticket: u64,
        n: u64,
        list: Vec<S::Item>,
    ) -> Result<Chunk<S::Item>, OutOfMemory>
        requires least { 1 ≤ n }
        requires most { n ≤ 65536 }
        requires rising { tickets_below ticket (⟦<Enumerator<S> as Guarded>⟧.history self.old) ≡ true }
        ensures origin { ⟦<Enumerator<S> as Guarded>⟧.origin self.new ≡ ⟦<Enumerator<S> as Guarded>⟧.origin self.old }
        ensures legal { let held = ⟦<Enumerator<S> as Guarded>⟧ in IsLegalHistory (held.origin self.new) (held.history self.new) }
        ensures recorded { let held = ⟦<Enumerator<S> as Guarded>⟧ in
            OnOk result (held.history self.new ≡ with_next (held.origin self.old) (held.history self.old) ticket (Ask n)) }
        ensures chunk { let held = ⟦<Enumerator<S> as Guarded>⟧ in
            IfOk result (IsChunkOf (held.origin self.old) (next_record (held.origin self.old) (held.history self.old) ticket (Ask n))) }
        ensures room { IfOk result (λ chunk. vec_capacity list ≤ vec_capacity chunk.items) }
        ensures unchanged { OnErr result (⟦<Enumerator<S> as Guarded>⟧.history self.new ≡ ⟦<Enumerator<S> as Guarded>⟧.history self.old) }
    {
        let mut items = list;
        items.clear();
        if self.closed {
            self.records.reserve(1)?;
            self.records.push_reserved(Record {
                ticket,
                asked: Event::Ask(n),
                first: self.given,
                count: 0,
                tail: Some(Tail::Closed),
            });
            return Ok(Chunk {
                first: self.given,
                items,
                tail: Some(Tail::Closed),
            });
        }
        items.reserve(n as usize)?;
        self.records.reserve(1)?;
        let first = self.given;
        let tail = take_items(&mut self.source, &mut items, n);
        let count = items.len() as u64;
        self.records.push_reserved(Record {
            ticket,
            asked: Event::Ask(n),
            first,
            count,
            tail,
        });
        self.given = first + count;
        Ok(Chunk { first, items, tail })
    }

    /// Closes the enumerator, also if it is closed already, and records it.
    ///
    /// # Errors
    ///
    /// [`OutOfMemory`] if there is no room for the record. Nothing has changed then.
    pub fn close(&mut self, ticket: u64) -> Result<(), OutOfMemory>
        requires rising { tickets_below ticket (⟦<Enumerator<S> as Guarded>⟧.history self.old) ≡ true }
        ensures origin { ⟦<Enumerator<S> as Guarded>⟧.origin self.new ≡ ⟦<Enumerator<S> as Guarded>⟧.origin self.old }
        ensures legal { let held = ⟦<Enumerator<S> as Guarded>⟧ in IsLegalHistory (held.origin self.new) (held.history self.new) }
        ensures recorded { let held = ⟦<Enumerator<S> as Guarded>⟧ in
            OnOk result (held.history self.new ≡ with_next (held.origin self.old) (held.history self.old) ticket Close) }
        ensures unchanged { OnErr result (⟦<Enumerator<S> as Guarded>⟧.history self.new ≡ ⟦<Enumerator<S> as Guarded>⟧.history self.old) }
    {
        self.records.push(Record {
            ticket,
            asked: Event::Close,
            first: self.given,
            count: 0,
            tail: Some(Tail::Closed),
        })?;
        self.closed = true;
        Ok(())
    }

    /// Gives up the records of all requests, by ticket, and drops the source. Takes no memory.
    pub fn into_records(self) -> Vec<Record>
        ensures records { result.items ≡ ⟦<Enumerator<S> as Guarded>⟧.history self }
        ensures legal { IsLegalHistory (⟦<Enumerator<S> as Guarded>⟧.origin self) result.items }
    {
        self.records
    }
}
