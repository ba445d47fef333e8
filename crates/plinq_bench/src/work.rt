ghost use Rattle.std.specs.Prelude.{◌≡◌};
ghost use Rattle.plinq_bench.specs.Works.{turns, kept, work_element, work_answer, work_meaning};

use crate::item_work::ItemWork;
use crate::spinning::spin;
use plinq_lambda::{ExpandFault, Formula, Lambda};
use std::alloc::Global;

/// How many turns an element takes.
#[derive(Clone, Copy)]
pub(crate) enum Cost {
    /// The same for each.
    Fixed(u64),
    /// The element modulo 1,000.
    Skewed,
    /// From none to 1,000, as the elements go from 0 to this count.
    Ramp(u64),
    /// Of this count of elements four take 178 turns for each, one in the middle of each quarter, and the others 71.
    Late(u64),
}

/// What the operators of the workloads do to an element.
#[derive(Clone, Copy)]
pub(crate) enum Work {
    /// What the formula does.
    Plain(Formula),
    /// Mapped, the element after its turns.
    Spin(Cost),
    /// Mapped, the element itself, after so many turns.
    Keep(u64),
}

impl Lambda for Work {
    type Item = i64;

    ghost meaning = { work_meaning };

    ghost short = { λ _ _. tt };

    #[inline(always)]
    fn map(&self, x: i64) -> Result<i64, u32> {
        map_one(*self, x)
    }

    #[inline(always)]
    fn test(&self, x: i64) -> Result<bool, u32> {
        test_one(*self, x)
    }

    fn expand(&self, _: Global, _: i64) -> Result<Vec<i64>, ExpandFault> {
        Err(ExpandFault::Code(1))
    }

    // (a formula's loops are its own)
    fn map_block(&self, block: &mut [i64]) -> (usize, Option<u32>) {
        match *self {
            Work::Plain(formula) => formula.map_block(block),
            work => ItemWork(work).map_block(block),
        }
    }

    fn filter_block(&self, block: &mut [i64]) -> (usize, Option<u32>) {
        match *self {
            Work::Plain(formula) => formula.filter_block(block),
            work => ItemWork(work).filter_block(block),
        }
    }

    fn count_passing(&self, block: &[i64]) -> (usize, Option<u32>) {
        match *self {
            Work::Plain(formula) => formula.count_passing(block),
            work => ItemWork(work).count_passing(block),
        }
    }
}

#[inline(always)]
pub(crate) fn map_one(work: Work, x: i64) -> Result<i64, u32>
    ensures { result ≡ work_element work x }
{
    match work {
        Work::Plain(formula) => formula.map(x),
        Work::Spin(cost) => Ok(spin(x, turns(cost, x))),
        Work::Keep(turns) => kept(turns, x),
    }
}

#[inline(always)]
pub(crate) fn test_one(work: Work, x: i64) -> Result<bool, u32>
    ensures { result ≡ work_answer work x }
{
    match work {
        Work::Plain(formula) => formula.test(x),
        Work::Spin(_) | Work::Keep(_) => Ok(true),
    }
}

/// The turns that an element takes.
pub(crate) fn turns(cost: Cost, x: i64) -> u64
    ensures { result ≡ turns cost x }
{
    match cost {
        Cost::Fixed(n) => n,
        Cost::Skewed => x.cast_unsigned() % 1_000,
        Cost::Ramp(n) => {
            if n == 0 {
                0
            } else {
                x.cast_unsigned().wrapping_mul(1_000) / n
            }
        }
        Cost::Late(n) => {
            let quarter = n / 4;
            if quarter != 0 && x.cast_unsigned() % quarter == quarter / 2 {
                n.wrapping_mul(178)
            } else {
                71
            }
        }
    }
}

/// The element itself, after so many turns. They can't be left out, since they might come out at one number.
pub(crate) fn kept(turns: u64, x: i64) -> Result<i64, u32>
    ensures { result ≡ kept turns x }
{
    if spin(x, turns) == 12_345 {
        return Err(1);
    }
    Ok(x)
}
