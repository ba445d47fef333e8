ghost use Rattle.std.specs.Prelude.{◌≡◌, ◌≤◌, ◌^◌, ◌||◌, ℕ, [], None, OnOk, IfOk};
ghost use Rattle.std.specs.Option.{option_or};
ghost use Rattle.plinq_ops.specs.Tails.{end_of_result, told_at};
ghost use Rattle.plinq_reorder.specs.Intervals.{is_within};
ghost use Rattle.plinq_reorder.specs.Buffered.{is_taken, IsFresh};
ghost use Rattle.plinq_merge.specs.Shown.{ending_at};
ghost use Rattle.plinq_merge.specs.Merging.{TakesIn};

use crate::pending::Pending;
use plinq_keyed::Tail;
use plinq_ops::{ChunkResult, Order};
use plinq_reorder::ReorderBuffer;
use plinq_source::{Ending, OutOfMemory};
use std::alloc::Global;

/// The row of keys: what waits for the turn of its keys, and where the source ends if that is known.
#[derive(Drop)]
pub struct Row<T> {
    pub buffer: ReorderBuffer<Pending<T>>,
    pub source_end: Option<(u64, Ending)>,
}

impl<T: Drop> Row<T> {
    /// The row of which nothing is merged.
    pub fn new(alloc: Global) -> Row<T>
        ensures buffer { result.buffer ≡ record { next = 0; held = [] } }
        ensures source_end { result.source_end ≡ None }
    {
        Row {
            buffer: ReorderBuffer::new(alloc),
            source_end: None,
        }
    }

    /// Notes where the source ends, if a tail after these keys says so and none has before.
    pub fn note_tail(&mut self, end: u64, tail: Option<Tail>)
        ensures buffer { self.new.buffer ≡ self.old.buffer }
        ensures source_end { self.new.source_end ≡ option_or self.old.source_end (told_at end tail) }
    {
        let source_end = match tail {
            Some(Tail::Ended) => Some((end, Ending::End)),
            Some(Tail::Refused(code)) => Some((end, Ending::Refused(code))),
            Some(Tail::Closed) | None => None,
        };
        self.source_end = self.source_end.or(source_end);
    }

    /// How the source ends, if all keys before its end are merged.
    pub fn ending(&self) -> Option<Ending>
        ensures { result ≡ ending_at self.now.source_end self.now.buffer.next }
    {
        match self.source_end {
            Some((key, ending)) if key == self.buffer.next_key() => Some(ending),
            _ => None,
        }
    }

    /// Takes in a result of keys that weren't offered before. What it answers is in hand: it is to be merged at once.
    pub fn accept(
        &mut self,
        alloc: Global,
        order: Order,
        offered: ChunkResult<T>,
    ) -> Result<Pending<T>, OutOfMemory>
        requires within { end_of_result offered ≤ 2 ^ 40 }
        requires fresh { IsFresh self.old.buffer offered.first (end_of_result offered) }
        ensures taken { IfOk result (λ hand. TakesIn order self.old offered hand self.new) }
        ensures keys { OnOk result ((key : ℕ) →
            is_taken self.new.buffer key ≡ (is_taken self.old.buffer key || is_within offered.first (end_of_result offered) key)) }
    {
        let first = offered.first;
        let count = offered.count;
        let end = first + count;
        self.note_tail(end, offered.tail);
        let nothing = Pending {
            items: Vec::new(alloc),
            ending: None,
        };
        let whole = Pending {
            items: offered.items,
            ending: offered.ending.run_ending(),
        };
        match order {
            Order::ByKey => {
                if count == 0 {
                    return Ok(nothing);
                }
                Ok(self.buffer.insert(first, end, whole)?.unwrap_or(nothing))
            }
            Order::ByArrival => {
                if count == 0 {
                    return Ok(whole);
                }
                self.buffer.insert(first, end, nothing)?;
                Ok(whole)
            }
        }
    }
}
