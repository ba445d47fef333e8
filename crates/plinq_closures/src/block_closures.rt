//! A block at one step: at its closure, or at a step that doesn't do what is asked.
ghost use Rattle.std.specs.Prelude.{◌≤◌, length, take};
ghost use Rattle.plinq_lambda.specs.Block.{mapped_block, filtered_block, passing_block};
ghost use Rattle.plinq_closures.specs.BlockSteps.{GivesBlock};
ghost use Rattle.plinq_closures.specs.Steps.{does_nothing};

/// Maps the items of a block in their places by a closure, up to the first that faults.
#[inline(always)]
pub(crate) fn map_each<T: Copy, F: Fn(T) -> Result<T, u32>>(
    by: &F,
    block: &mut [T],
) -> (usize, Option<u32>)
    requires { (x : T) → F.pre by.now x }
    ensures within { result.0 ≤ length block.new }
    ensures mapped { GivesBlock mapped_block (F.post by.now) block.old (record { items = take result.0 block.new; fault = result.1 }) }
{
    for (at, item) in block.iter_mut().enumerate() {
        match by(*item) {
            Ok(mapped) => *item = mapped,
            Err(code) => return (at, Some(code)),
        }
    }
    (block.len(), None)
}

/// Brings the items of a block that pass a closure's test to its front, up to the first that faults.
#[inline(always)]
pub(crate) fn filter_each<T: Copy, P: Fn(T) -> Result<bool, u32>>(
    by: &P,
    block: &mut [T],
) -> (usize, Option<u32>)
    requires { (x : T) → P.pre by.now x }
    ensures within { result.0 ≤ length block.new }
    ensures filtered { GivesBlock filtered_block (P.post by.now) block.old (record { items = take result.0 block.new; fault = result.1 }) }
{
    let mut kept = 0;
    for at in 0..block.len() {
        let item = block[at];
        match by(item) {
            Ok(passes) => {
                block[kept] = item;
                kept += usize::from(passes);
            }
            Err(code) => return (kept, Some(code)),
        }
    }
    (kept, None)
}

/// How many items of a block pass a closure's test before the first that doesn't.
#[inline(always)]
pub(crate) fn count_each<T: Copy, P: Fn(T) -> Result<bool, u32>>(
    by: &P,
    block: &[T],
) -> (usize, Option<u32>)
    requires { (x : T) → P.pre by.now x }
    ensures within { result.0 ≤ length block.now }
    ensures passing { GivesBlock passing_block (P.post by.now) block.now (record { items = take result.0 block.now; fault = result.1 }) }
{
    for at in 0..block.len() {
        match by(block[at]) {
            Ok(true) => {}
            Ok(false) => return (at, None),
            Err(code) => return (at, Some(code)),
        }
    }
    (block.len(), None)
}

/// A block at a step that doesn't do this: its first item faults.
pub(crate) fn nothing_done<T>(block: &[T]) -> (usize, Option<u32>)
    ensures within { result.0 ≤ length block.now }
    ensures mapped { GivesBlock mapped_block does_nothing block.now (record { items = take result.0 block.now; fault = result.1 }) }
    ensures filtered { GivesBlock filtered_block does_nothing block.now (record { items = take result.0 block.now; fault = result.1 }) }
    ensures passing { GivesBlock passing_block does_nothing block.now (record { items = take result.0 block.now; fault = result.1 }) }
{
    if block.is_empty() {
        (0, None)
    } else {
        (0, Some(0))
    }
}
