ghost use Rattle.std.specs.Prelude.{◌≡◌, ◌<◌, ◌≤◌, ◌+◌, [], ◌∷◌, true, false, length, IfOk, OnOk};
ghost use Rattle.plinq_source.specs.Trace.{open_trace, ended_trace, items_from};
ghost use Rattle.plinq_ops.specs.Stage.{takes_none, some_takes_none};
ghost use Rattle.plinq_ops.specs.ByKey.{is_by_key};
ghost use Rattle.plinq_ops.specs.Feeding.{IsFed, FeedsFrom, trace_of_step};
ghost use Rattle.plinq_ops.specs.Operator.{state_stage};
ghost use Rattle.plinq_ops.specs.Pipeline.{IsReached, stages};

use crate::feeding;
use crate::op::Op;
use crate::stage_state::{StageState, passed_on};
use plinq_lambda::Lambda;
use plinq_source::{Ending, OutOfMemory, Source, Step};
use std::alloc::Global;
use std::marker::Model;

/// Operators at work: fed items, alone or by the block, they put out what the query makes of them.
///
/// A pipeline stands for what is left of its operators. After the items that it was fed, a Take has fewer left to
/// take, a Skip fewer to pass over, and a SkipWhile is over once one has failed. If the run has ended, it is fed
/// nothing more.
#[derive(Drop)]
pub struct Pipeline<'a, L> {
    ops: &'a [Op<L>],
    remaining: Vec<StageState<'a, L>>,
}

impl<'a, L> Model for Pipeline<'a, L> {
    ghost use Rattle.plinq_ops.specs.Pipeline.{PipelineView};

    ghost Value = { PipelineView L };

    ghost view = { λ p. record { ops = p.ops.now; remaining = p.remaining.items } };
}

impl<'a, L: Lambda> Pipeline<'a, L> {
    /// A pipeline of these operators, which have seen no item.
    ///
    /// # Errors
    ///
    /// [`OutOfMemory`] if there is no room for what is left of them.
    pub fn new(alloc: Global, ops: &'a [Op<L>]) -> Result<Pipeline<'a, L>, OutOfMemory>
        ensures { IfOk result (IsReached L.meaning ops.now 0) }
    {
        Pipeline::reached(alloc, ops, 0)
    }

    /// A pipeline of operators that a worker applies by key, as it stands once the elements of all keys before this one
    /// have reached it.
    ///
    /// # Errors
    ///
    /// [`OutOfMemory`] if there is no room for what is left of them.
    pub fn at_key(alloc: Global, ops: &'a [Op<L>], key: u64) -> Result<Pipeline<'a, L>, OutOfMemory>
        requires keyed { is_by_key ops.now ≡ true }
        ensures { IfOk result (IsReached L.meaning ops.now key) }
    {
        Pipeline::reached(alloc, ops, key)
    }

    /// So many elements have reached the first operator, and none was filtered out.
    fn reached(alloc: Global, ops: &'a [Op<L>], count: u64) -> Result<Pipeline<'a, L>, OutOfMemory>
        ensures { IfOk result (IsReached L.meaning ops.now count) }
    {
        let mut left = Vec::with_capacity(alloc, ops.len())?;
        let mut reached = count;
        for op in ops {
            left.push(StageState::of(op, reached))?;
            reached = passed_on(op, reached);
        }
        let remaining = left;
        Ok(Pipeline { ops, remaining })
    }

    /// Whether a Take has no item left to take, so that the run has ended.
    pub fn is_over(&self) -> bool
        ensures { result ≡ some_takes_none (stages L.meaning self.now) }
    {
        for op in self.remaining.iter() {
            if takes_none(op) {
                return true;
            }
        }
        false
    }

    /// Feeds one item, and appends the results to `out`. Returns how the run ended, or `None` if more items may
    /// follow.
    ///
    /// # Errors
    ///
    /// [`OutOfMemory`] if there is no room for an expansion, for a Take's last item or in `out`; the pipeline is of no more
    /// use then.
    pub fn feed(
        &mut self,
        alloc: Global,
        item: L::Item,
        out: &mut Vec<L::Item>,
    ) -> Result<Option<Ending>, OutOfMemory>
        requires undecided { some_takes_none (stages L.meaning self.old) ≡ false }
        ensures same { self.new.ops ≡ self.old.ops }
        ensures fed { IfOk result (IsFed
            (stages L.meaning self.old) (open_trace (item ∷ []))
            out.old.items out.new.items
            (stages L.meaning self.new)) }
    {
        feeding::feed(alloc, self.remaining.as_mut_slice(), item, out)
    }

    /// Asks a source for its next element and feeds it, or the ending.
    ///
    /// # Errors
    ///
    /// Those of [`feed`](Pipeline::feed); the source has given the element then.
    #[inline(always)]
    pub fn feed_from<S: Source<Item = L::Item>>(
        &mut self,
        alloc: Global,
        source: &mut S,
        out: &mut Vec<L::Item>,
    ) -> Result<Option<Ending>, OutOfMemory>
        requires undecided { some_takes_none (stages L.meaning self.old) ≡ false }
        ensures same { self.new.ops ≡ self.old.ops }
        ensures whole { S.whole source.new ≡ S.whole source.old }
        ensures one { S.given source.new ≤ S.given source.old + 1 }
        ensures fed { IfOk result (FeedsFrom
            (stages L.meaning self.old) (S.whole source.old) (S.given source.old) (S.given source.new)
            out.old.items out.new.items
            (stages L.meaning self.new)) }
    {
        let step = source.next();
        self.feed_next(alloc, step, out)
    }

    /// What a source gave: an item, or its ending.
    #[inline(always)]
    fn feed_next(
        &mut self,
        alloc: Global,
        step: Step<L::Item>,
        out: &mut Vec<L::Item>,
    ) -> Result<Option<Ending>, OutOfMemory>
        requires undecided { some_takes_none (stages L.meaning self.old) ≡ false }
        ensures same { self.new.ops ≡ self.old.ops }
        ensures fed { IfOk result (IsFed
            (stages L.meaning self.old) (trace_of_step step)
            out.old.items out.new.items
            (stages L.meaning self.new)) }
    {
        match step {
            Step::Item(item) => self.feed(alloc, item, out),
            Step::End => {
                let ended = self.feed_end(alloc, Ending::End, out)?;
                Ok(ended)
            }
            Step::Refused(code) => {
                let ended = self.feed_end(alloc, Ending::Refused(code), out)?;
                Ok(ended)
            }
        }
    }

    /// Feeds the end: no item follows, and the source ended so. Appends to `out` what the operators held back until then, and
    /// answers how the run ended.
    ///
    /// # Errors
    ///
    /// [`OutOfMemory`] if there is no room in `out`; the pipeline is of no more use then.
    pub fn feed_end(
        &mut self,
        alloc: Global,
        ending: Ending,
        out: &mut Vec<L::Item>,
    ) -> Result<Option<Ending>, OutOfMemory>
        requires undecided { some_takes_none (stages L.meaning self.old) ≡ false }
        ensures same { self.new.ops ≡ self.old.ops }
        ensures fed { IfOk result (IsFed
            (stages L.meaning self.old) (ended_trace [] ending)
            out.old.items out.new.items
            (stages L.meaning self.new)) }
    {
        // (by `?` the contract of the call is at hand for both ways out)
        let ended = feeding::feed_end(alloc, self.remaining.as_mut_slice(), 0, ending, out)?;
        Ok(ended)
    }

    /// Feeds a block of items, which the results replace, and the ending that comes after them, if one does. Returns how the
    /// run ended, or `None` if more items may follow.
    ///
    /// # Errors
    ///
    /// [`OutOfMemory`] if there is no room for an expansion; the pipeline and the block are of no more use then.
    pub fn feed_block(
        &mut self,
        alloc: Global,
        block: &mut Vec<L::Item>,
        ending: Option<Ending>,
    ) -> Result<Option<Ending>, OutOfMemory>
        requires undecided { some_takes_none (stages L.meaning self.old) ≡ false }
        ensures same { self.new.ops ≡ self.old.ops }
        ensures fed { IfOk result (IsFed
            (stages L.meaning self.old) (record { items = block.old.items; ending = ending })
            [] block.new.items
            (stages L.meaning self.new)) }
    {
        // (as above)
        let ended = feeding::feed_block(alloc, self.remaining.as_mut_slice(), 0, block, ending)?;
        Ok(ended)
    }

    /// Asks a source for `most` elements at once and feeds them, and the ending if fewer are left. The results stand in
    /// `block`, which was empty.
    ///
    /// # Errors
    ///
    /// [`OutOfMemory`] if there is no room for the elements, and the errors of [`feed_block`](Pipeline::feed_block); the
    /// source may have given the elements then.
    pub fn feed_block_from<S: Source<Item = L::Item>>(
        &mut self,
        alloc: Global,
        source: &mut S,
        most: u64,
        block: &mut Vec<L::Item>,
    ) -> Result<Option<Ending>, OutOfMemory>
        requires undecided { some_takes_none (stages L.meaning self.old) ≡ false }
        requires some { 0 < most }
        requires empty { block.old.items ≡ [] }
        ensures same { self.new.ops ≡ self.old.ops }
        ensures whole { S.whole source.new ≡ S.whole source.old }
        ensures asked { OnOk result (S.given source.new ≡ S.given source.old + length (items_from (S.whole source.old) (S.given source.old) most)) }
        ensures fed { IfOk result (FeedsFrom
            (stages L.meaning self.old) (S.whole source.old) (S.given source.old) (S.given source.new)
            [] block.new.items
            (stages L.meaning self.new)) }
    {
        block.reserve(most as usize)?;
        let ending = source.fill(block, most);
        self.feed_block(alloc, block, ending)
    }
}

/// Whether an operator is a Take that has no item left to take.
fn takes_none<L: Lambda>(op: &StageState<'_, L>) -> bool
    ensures { result ≡ takes_none (state_stage L.meaning op.now) }
{
    matches!(op, StageState::Taking(0))
}
