ghost use Rattle.std.specs.Prelude.{◌≡◌, ◌≤◌, false, IfOk, OnOk, ◌∷◌, ◌++◌, [], length, drop};
ghost use Rattle.plinq_source.specs.declared.ending.Ending.TheVariants.{End};
ghost use Rattle.plinq_source.specs.Trace.{open_trace, ended_trace};
ghost use Rattle.plinq_ops.specs.declared.op.Op.TheVariants.{SelectMany};
ghost use Rattle.plinq_ops.specs.Stage.{some_takes_none};
ghost use Rattle.plinq_ops.specs.Operator.{stage_of};
ghost use Rattle.plinq_ops.specs.Feeding.{IsFed};
ghost use Rattle.plinq_ops.specs.Pipeline.{stages_now};
ghost use Rattle.plinq_ops.specs.inner.FeedingFrom.{FeedsStages};

use crate::passed::Passed;
use crate::stage_state::{StageState, pass, pass_block};
use plinq_lambda::{ExpandFault, Lambda};
use plinq_source::{Ending, OutOfMemory};
use std::alloc::{AllocError, Global};

/// Sends one item through operators, and appends the results to `out`.
pub(crate) fn feed<L: Lambda>(
    alloc: Global,
    ops: &mut [StageState<'_, L>],
    item: L::Item,
    out: &mut Vec<L::Item>,
) -> Result<Option<Ending>, OutOfMemory>
    requires undecided { some_takes_none (stages_now L.meaning ops.old) ≡ false }
    ensures { IfOk result (IsFed
        (stages_now L.meaning ops.old) (open_trace (item ∷ []))
        out.old.items out.new.items
        (stages_now L.meaning ops.new)) }
{
    let mut item = item;
    for at in 0..ops.len() {
        if let StageState::Expanding(f) = ops[at] {
            let ended = feed_expansion(alloc, f, ops, at + 1, item, out)?;
            return Ok(ended);
        }
        match pass(&mut ops[at], &mut item) {
            Passed::Item => {}
            Passed::Last => {
                let ended = feed_last(alloc, ops, at + 1, item, out)?;
                return Ok(ended);
            }
            Passed::Nothing => return Ok(None),
            Passed::Ends(ending) => {
                let ended = feed_end(alloc, ops, at + 1, ending, out)?;
                return Ok(ended);
            }
        }
    }
    out.push(item)?;
    Ok(None)
}

/// Sends an operator's last item, and the end after it, through the operators from one on, and appends the results to `out`.
fn feed_last<L: Lambda>(
    alloc: Global,
    ops: &mut [StageState<'_, L>],
    from: usize,
    item: L::Item,
    out: &mut Vec<L::Item>,
) -> Result<Option<Ending>, OutOfMemory>
    requires within { from ≤ length ops.old }
    requires undecided { some_takes_none (stages_now L.meaning (drop from ops.old)) ≡ false }
    ensures { IfOk result (FeedsStages L.meaning [] from ops.old ops.new (ended_trace (item ∷ []) End) out.old.items out.new.items) }
{
    let mut last = Vec::new(alloc);
    last.push(item)?;
    feed_rest(alloc, ops, from, last, Some(Ending::End), out)
}

/// Tells the operators from one on how the run ends, and appends what they held back until then to `out`.
pub(crate) fn feed_end<L: Lambda>(
    alloc: Global,
    ops: &mut [StageState<'_, L>],
    from: usize,
    ending: Ending,
    out: &mut Vec<L::Item>,
) -> Result<Option<Ending>, OutOfMemory>
    requires within { from ≤ length ops.old }
    requires undecided { some_takes_none (stages_now L.meaning (drop from ops.old)) ≡ false }
    ensures { IfOk result (FeedsStages L.meaning [] from ops.old ops.new (ended_trace [] ending) out.old.items out.new.items) }
{
    feed_rest(alloc, ops, from, Vec::new(alloc), Some(ending), out)
}

/// Sends a block of items, and how the run ends after them if it does, through the operators from one on, one operator after
/// another; the results take the block's place.
#[cycle(blocks)]
pub(crate) fn feed_block<L: Lambda>(
    alloc: Global,
    ops: &mut [StageState<'_, L>],
    from: usize,
    block: &mut Vec<L::Item>,
    ending: Option<Ending>,
) -> Result<Option<Ending>, OutOfMemory>
    requires within { from ≤ length ops.old }
    requires undecided { some_takes_none (stages_now L.meaning (drop from ops.old)) ≡ false }
    ensures { IfOk result (FeedsStages L.meaning [] from ops.old ops.new (record { items = block.old.items; ending = ending }) [] block.new.items) }
{
    let mut ending = ending;
    for at in from..ops.len() {
        if let StageState::Expanding(f) = ops[at] {
            return feed_expansions(alloc, f, ops, at + 1, block, ending);
        }
        ending = pass_block(&mut ops[at], block, ending);
    }
    Ok(ending)
}

/// Sends the expansions of a block's items through the operators from one on, one expansion after another, so that no more
/// than one is held that they haven't seen, and then the ending.
#[cycle(blocks)]
fn feed_expansions<L: Lambda>(
    alloc: Global,
    f: &L,
    ops: &mut [StageState<'_, L>],
    from: usize,
    block: &mut Vec<L::Item>,
    ending: Option<Ending>,
) -> Result<Option<Ending>, OutOfMemory>
    requires within { from ≤ length ops.old }
    requires undecided { some_takes_none (stages_now L.meaning (drop from ops.old)) ≡ false }
    ensures { IfOk result (FeedsStages L.meaning (stage_of L.meaning (SelectMany f.now) ∷ []) from ops.old ops.new
        (record { items = block.old.items; ending = ending }) [] block.new.items) }
{
    let items = std::mem::replace(block, Vec::new(alloc));
    for item in items.iter() {
        let ended = feed_expansion(alloc, f, ops, from, *item, block)?;
        if ended.is_some() {
            return Ok(ended);
        }
    }
    if ending.is_none() {
        return Ok(None);
    }
    feed_rest(alloc, ops, from, Vec::new(alloc), ending, block)
}

/// Sends the expansion of one item through the operators from one on, and appends the results to `out`.
#[cycle(blocks)]
fn feed_expansion<L: Lambda>(
    alloc: Global,
    f: &L,
    ops: &mut [StageState<'_, L>],
    from: usize,
    item: L::Item,
    out: &mut Vec<L::Item>,
) -> Result<Option<Ending>, OutOfMemory>
    requires within { from ≤ length ops.old }
    requires undecided { some_takes_none (stages_now L.meaning (drop from ops.old)) ≡ false }
    ensures { IfOk result (FeedsStages L.meaning (stage_of L.meaning (SelectMany f.now) ∷ []) from ops.old ops.new
        (open_trace (item ∷ [])) out.old.items out.new.items) }
{
    match f.expand(alloc, item) {
        Ok(expansion) => feed_rest(alloc, ops, from, expansion, None, out),
        Err(ExpandFault::Code(code)) => {
            let ending = Some(Ending::Fault(code));
            feed_rest(alloc, ops, from, Vec::new(alloc), ending, out)
        }
        Err(ExpandFault::Memory) => Err(OutOfMemory),
    }
}

/// Sends items, and how the run ends after them if it does, through the operators from one on, and appends the results to
/// `out`.
#[cycle(blocks)]
fn feed_rest<L: Lambda>(
    alloc: Global,
    ops: &mut [StageState<'_, L>],
    from: usize,
    items: Vec<L::Item>,
    ending: Option<Ending>,
    out: &mut Vec<L::Item>,
) -> Result<Option<Ending>, OutOfMemory>
    requires within { from ≤ length ops.old }
    requires undecided { some_takes_none (stages_now L.meaning (drop from ops.old)) ≡ false }
    ensures { IfOk result (FeedsStages L.meaning [] from ops.old ops.new (record { items = items.items; ending = ending }) out.old.items out.new.items) }
{
    let mut block = items;
    let ending = feed_block(alloc, ops, from, &mut block, ending)?;
    append_or_take(out, block)?;
    Ok(ending)
}

/// Appends a list's items. If nothing was there and there is no room for them, the list itself takes its place, and no item
/// is copied.
fn append_or_take<T: Drop>(out: &mut Vec<T>, more: Vec<T>) -> Result<(), AllocError>
    ensures { OnOk result (out.new.items ≡ out.old.items ++ more.items) }
{
    if out.is_empty() && out.capacity() < more.len() {
        *out = more;
        return Ok(());
    }
    let mut more = more;
    out.append(&mut more)
}
