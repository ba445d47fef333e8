ghost use Rattle.std.specs.Prelude.{◌≡◌, ◌<◌, ◌||◌, ℕ, [], MatchBool, IfOk, OnOk, OnErr};
ghost use Rattle.plinq_reorder.specs.Intervals.{is_within, begins_with};
ghost use Rattle.plinq_reorder.specs.Buffered.{is_taken, IsFresh, Overlaps, Inserts, Takes};

use crate::span::Span;
use plinq_source::OutOfMemory;
use std::alloc::Global;
use std::collections::BTreeMap;
use std::marker::Model;

/// Intervals of keys with payloads, held until those before them have gone.
#[derive(Drop)]
pub struct ReorderBuffer<P> {
    next: u64,
    held: BTreeMap<u64, Span<P>>,
}

impl<P> Model for ReorderBuffer<P> {
    ghost use Rattle.std.specs.Prelude.{◌≡◌, true};
    ghost use Rattle.plinq_reorder.specs.Intervals.{are_apart};
    ghost use Rattle.plinq_reorder.specs.Buffered.{Buffered};

    ghost Value = { Buffered P };

    ghost view = { λ b. record { next = b.next; held = b.held.entries } };

    ghost invariant = { λ b. are_apart b.next b.held.entries ≡ true };
}

impl<P: Drop> ReorderBuffer<P> {
    /// The buffer of which the next key is 0, with nothing in it. It takes no memory.
    pub fn new(alloc: Global) -> ReorderBuffer<P>
        ensures { result ≡ record { next = 0; held = [] } }
    {
        ReorderBuffer {
            next: 0,
            held: BTreeMap::new(alloc),
        }
    }

    /// The key with which the next interval to go begins.
    pub fn next_key(&self) -> u64
        ensures { result ≡ self.now.next }
    {
        self.next
    }

    /// Whether one of the keys from `first` up to, not including, `end` has gone or is held.
    pub fn overlaps(&self, first: u64, end: u64) -> bool
        ensures { MatchBool result (Overlaps self.now first end) (IsFresh self.now first end) }
    {
        if end <= first {
            return false;
        }
        if first < self.next {
            return true;
        }
        match self.held.range(..end).next_back() {
            None => false,
            Some((_, last)) => first < last.end,
        }
    }

    /// Takes in an interval of keys none of which came before.
    ///
    /// If it begins with the next key, the payload is handed back and the row goes on after the interval.
    ///
    /// # Errors
    ///
    /// [`OutOfMemory`] if there is no room to hold it; the buffer is as before.
    pub fn insert(&mut self, first: u64, end: u64, payload: P) -> Result<Option<P>, OutOfMemory>
        requires some { first < end }
        requires fresh { IsFresh self.old first end }
        ensures inserts { IfOk result (λ turn. Inserts self.old first end payload turn self.new) }
        ensures keys { OnOk result ((key : ℕ) → is_taken self.new key ≡ (is_taken self.old key || is_within first end key)) }
        ensures unchanged { OnErr result (self.new ≡ self.old) }
    {
        if first == self.next {
            self.next = end;
            return Ok(Some(payload));
        }
        self.held.insert(first, Span { end, payload })?;
        Ok(None)
    }

    /// Takes the interval that begins with the next key, or `None` if that key is missing.
    pub fn take_next(&mut self) -> Option<P>
        ensures { Takes self.old result self.new }
    {
        if !self.is_next_there() {
            return None;
        }
        match self.held.pop_first() {
            Some((_, span)) => {
                self.next = span.end;
                Some(span.payload)
            }
            None => unreachable!(),
        }
    }

    /// Whether it holds an interval that begins with the next key.
    fn is_next_there(&self) -> bool
        ensures { result ≡ begins_with self.now.next self.now.held }
    {
        match self.held.first_key_value() {
            Some((key, _)) => *key == self.next,
            None => false,
        }
    }
}
