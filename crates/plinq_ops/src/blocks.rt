//! What operators do to a block of items; SkipWhile has a file of its own.
ghost use Rattle.std.specs.Prelude.{◌≡◌, ◌≤◌, length, take, drop};
ghost use Rattle.plinq_source.specs.Trace.{open_trace};
ghost use Rattle.plinq_lambda.specs.Block.{mapped_block, filtered_block};
ghost use Rattle.plinq_ops.specs.declared.op.Op.TheVariants.{Select, Filter, TakeWhile};
ghost use Rattle.plinq_ops.specs.Stage.{apply, stage_after, taking, skipping};
ghost use Rattle.plinq_ops.specs.Operator.{stage_of};
ghost use Rattle.plinq_ops.specs.inner.Passing.{ending_of};

use plinq_lambda::Lambda;
use plinq_source::Ending;

/// Maps the items, up to the first that faults.
pub(crate) fn select<L: Lambda>(f: &L, block: &mut Vec<L::Item>) -> Option<Ending>
    ensures { record { items = block.new.items; ending = result }
        ≡ apply (stage_of L.meaning (Select f.now)) (open_trace block.old.items) }
{
    let (len, fault) = map_items(f, block);
    block.truncate(len);
    ending_of(fault)
}

/// Maps a block, which is lent as a slice, so that it is whole again where it is cut.
fn map_items<L: Lambda>(f: &L, block: &mut Vec<L::Item>) -> (usize, Option<u32>)
    ensures within { result.0 ≤ length block.new.items }
    ensures mapped { record { items = take result.0 block.new.items; fault = result.1 }
        ≡ mapped_block (L.meaning f.now).map block.old.items }
{
    f.map_block(block.as_mut_slice())
}

/// Keeps the items that pass, up to the first that faults.
pub(crate) fn filter<L: Lambda>(f: &L, block: &mut Vec<L::Item>) -> Option<Ending>
    ensures { record { items = block.new.items; ending = result }
        ≡ apply (stage_of L.meaning (Filter f.now)) (open_trace block.old.items) }
{
    let (len, fault) = filter_items(f, block);
    block.truncate(len);
    ending_of(fault)
}

/// Filters a block, which is lent as a slice in the same way.
fn filter_items<L: Lambda>(f: &L, block: &mut Vec<L::Item>) -> (usize, Option<u32>)
    ensures within { result.0 ≤ length block.new.items }
    ensures filtered { record { items = take result.0 block.new.items; fault = result.1 }
        ≡ filtered_block (L.meaning f.now).test block.old.items }
{
    f.filter_block(block.as_mut_slice())
}

/// How a run ended by a lambda's fault, if any.
fn ending_of(fault: Option<u32>) -> Option<Ending>
    ensures { result ≡ ending_of fault }
{
    match fault {
        None => None,
        Some(code) => Some(Ending::Fault(code)),
    }
}

/// Keeps the first `count` items; after the last of them the run ends.
pub(crate) fn take<T: Copy>(count: &mut u64, block: &mut Vec<T>) -> Option<Ending>
    ensures passed { record { items = block.new.items; ending = result }
        ≡ apply (taking count.old) (open_trace block.old.items) }
    ensures left { taking count.new ≡ stage_after (taking count.old) block.old.items }
{
    let len = block.len() as u64;
    if *count <= len {
        block.truncate(*count as usize);
        *count = 0;
        return Some(Ending::End);
    }
    *count -= len;
    None
}

/// Passes over the first `count` items.
pub(crate) fn skip<T: Copy>(count: &mut u64, block: &mut Vec<T>)
    ensures passed { block.new.items ≡ drop count.old block.old.items }
    ensures left { skipping count.new ≡ stage_after (skipping count.old) block.old.items }
{
    let len = block.len();
    if *count >= len as u64 {
        block.clear();
        *count -= len as u64;
        return;
    }
    let skipped = *count as usize;
    block.copy_within(skipped.., 0);
    block.truncate(len - skipped);
    *count = 0;
}

/// Keeps the items before the first that fails or faults.
pub(crate) fn take_while<L: Lambda>(f: &L, block: &mut Vec<L::Item>) -> Option<Ending>
    ensures { record { items = block.new.items; ending = result }
        ≡ apply (stage_of L.meaning (TakeWhile f.now)) (open_trace block.old.items) }
{
    let (len, fault) = f.count_passing(block.as_slice());
    let all_pass = len == block.len();
    block.truncate(len);
    match fault {
        Some(code) => Some(Ending::Fault(code)),
        None if all_pass => None,
        None => Some(Ending::End),
    }
}
