//! What is left of an operator after some items, and what that does to an item and to a block.
ghost use Rattle.std.specs.Prelude.{◌≡◌, ◌-◌, false, ◌∷◌, []};
ghost use Rattle.plinq_source.specs.Trace.{open_trace};
ghost use Rattle.plinq_ops.specs.Stage.{apply, stage_after, takes_none};
ghost use Rattle.plinq_ops.specs.Operator.{counted_off, stage_left, state_stage};
ghost use Rattle.plinq_ops.specs.ByKey.{passed_on};
ghost use Rattle.plinq_ops.specs.inner.Passing.{passed_trace, expands};

use crate::blocks::{filter, select, skip, take, take_while};
use crate::op::Op;
use crate::passed::Passed;
use crate::skip_while::skip_while;
use plinq_lambda::Lambda;
use plinq_source::Ending;

/// What an operator still does, once some items have reached it.
#[derive(Drop)]
pub(crate) enum StageState<'a, L> {
    /// Select: it maps each item.
    Mapping(&'a L),
    /// Where: it keeps the items that pass.
    Filtering(&'a L),
    /// SelectMany: it expands each item.
    Expanding(&'a L),
    /// Take: it takes so many items more.
    Taking(u64),
    /// Skip: it skips so many items more.
    Skipping(u64),
    /// TakeWhile: it takes items up to the first that fails.
    TakingWhile(&'a L),
    /// SkipWhile: it skips items up to the first that fails.
    SkippingWhile(&'a L),
    /// AsUnordered, and a SkipWhile that is over: each item passes.
    Unchanged,
}

impl<'a, L: Lambda> StageState<'a, L> {
    /// What an operator still does, so many elements having reached it.
    pub(crate) fn of(op: &'a Op<L>, reached: u64) -> StageState<'a, L>
        ensures { state_stage L.meaning result ≡ stage_left L.meaning op.now (counted_off op.now - reached) }
    {
        match op {
            Op::Select(f) => StageState::Mapping(f),
            Op::Filter(f) => StageState::Filtering(f),
            Op::SelectMany(f) => StageState::Expanding(f),
            Op::Take(_) => StageState::Taking(op.counted_off().saturating_sub(reached)),
            Op::Skip(_) => StageState::Skipping(op.counted_off().saturating_sub(reached)),
            Op::TakeWhile(f) => StageState::TakingWhile(f),
            Op::SkipWhile(f) => StageState::SkippingWhile(f),
            Op::AsUnordered => StageState::Unchanged,
        }
    }
}

/// How many elements have got past an operator, so many having reached it and none having been filtered out.
pub(crate) fn passed_on<L>(op: &Op<L>, reached: u64) -> u64
    ensures { result ≡ passed_on op.now reached }
{
    match op {
        Op::Skip(_) => reached.saturating_sub(op.counted_off()),
        _ => reached,
    }
}

/// Sends one item through one operator but SelectMany; the result takes its place. Takes no memory.
pub(crate) fn pass<L: Lambda>(op: &mut StageState<'_, L>, item: &mut L::Item) -> Passed
    requires in_place { expands op.old ≡ false }
    requires takes_some { takes_none (state_stage L.meaning op.old) ≡ false }
    ensures passed { passed_trace result item.new
        ≡ apply (state_stage L.meaning op.old) (open_trace (item.old ∷ [])) }
    ensures left { state_stage L.meaning op.new ≡ stage_after (state_stage L.meaning op.old) (item.old ∷ []) }
{
    match op {
        StageState::Mapping(f) => match f.map(*item) {
            Ok(mapped) => {
                *item = mapped;
                Passed::Item
            }
            Err(code) => Passed::Ends(Ending::Fault(code)),
        },
        StageState::Filtering(f) => match f.test(*item) {
            Ok(true) => Passed::Item,
            Ok(false) => Passed::Nothing,
            Err(code) => Passed::Ends(Ending::Fault(code)),
        },
        StageState::Expanding(_) => unreachable!(),
        StageState::Taking(left) => {
            *left -= 1;
            if *left == 0 {
                Passed::Last
            } else {
                Passed::Item
            }
        }
        StageState::Skipping(left) => {
            if *left == 0 {
                return Passed::Item;
            }
            *left -= 1;
            Passed::Nothing
        }
        StageState::TakingWhile(f) => match f.test(*item) {
            Ok(true) => Passed::Item,
            Ok(false) => Passed::Ends(Ending::End),
            Err(code) => Passed::Ends(Ending::Fault(code)),
        },
        StageState::SkippingWhile(f) => match f.test(*item) {
            Ok(true) => Passed::Nothing,
            Ok(false) => {
                *op = StageState::Unchanged;
                Passed::Item
            }
            Err(code) => {
                *op = StageState::Unchanged;
                Passed::Ends(Ending::Fault(code))
            }
        },
        StageState::Unchanged => Passed::Item,
    }
}

/// Sends a block of items, and how the run ends after them if it does, through one operator but SelectMany; the results take
/// the block's place. Returns how the run ended. Takes no memory. An operator that waits for the end would hear of it here.
pub(crate) fn pass_block<L: Lambda>(
    op: &mut StageState<'_, L>,
    block: &mut Vec<L::Item>,
    ending: Option<Ending>,
) -> Option<Ending>
    requires in_place { expands op.old ≡ false }
    requires takes_some { takes_none (state_stage L.meaning op.old) ≡ false }
    ensures passed { record { items = block.new.items; ending = result }
        ≡ apply (state_stage L.meaning op.old) (record { items = block.old.items; ending = ending }) }
    ensures left { state_stage L.meaning op.new ≡ stage_after (state_stage L.meaning op.old) block.old.items }
{
    pass_items(op, block).or(ending)
}

/// Sends a block of items through one operator but SelectMany. None of these operators waits for the end.
fn pass_items<L: Lambda>(op: &mut StageState<'_, L>, block: &mut Vec<L::Item>) -> Option<Ending>
    requires in_place { expands op.old ≡ false }
    requires takes_some { takes_none (state_stage L.meaning op.old) ≡ false }
    ensures passed { record { items = block.new.items; ending = result }
        ≡ apply (state_stage L.meaning op.old) (open_trace block.old.items) }
    ensures left { state_stage L.meaning op.new ≡ stage_after (state_stage L.meaning op.old) block.old.items }
{
    match op {
        StageState::Mapping(f) => select(*f, block),
        StageState::Filtering(f) => filter(*f, block),
        StageState::Expanding(_) => unreachable!(),
        StageState::Taking(left) => take(left, block),
        StageState::Skipping(left) => {
            skip(left, block);
            None
        }
        StageState::TakingWhile(f) => take_while(*f, block),
        StageState::SkippingWhile(f) => {
            let (all_pass, ending) = skip_while(*f, block);
            if !all_pass {
                *op = StageState::Unchanged;
            }
            ending
        }
        StageState::Unchanged => None,
    }
}
