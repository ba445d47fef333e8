ghost use Rattle.std.specs.Prelude.{◌≡◌, ◌≤◌, length, take, Ok, IfOk, IfErr};
ghost use Rattle.plinq_lambda.specs.Block.{mapped_block};
ghost use Rattle.plinq_lambda.specs.Meaning.{IsFaultOf, most_items};
ghost use Rattle.plinq_lambda.specs.Formula.{formula_meaning, quotient, remainder, expansion_length, numbers_up_to};
ghost use Rattle.plinq_lambda.specs.Short.{formula_meaning-short};
ghost use Rattle.plinq_lambda.specs.declared.formula.Formula.TheVariants.{Add};

use crate::expand_fault::ExpandFault;
use crate::formula_kind::FormulaKind;
use crate::lambda::Lambda;
use crate::sums::{NEAR, add_each, are_near};
use std::alloc::{AllocError, Global};

/// The most items that an expansion gives.
const MOST_ITEMS: i64 = 65_536;

/// A lambda over `i64` that a document can name.
///
/// There are three kinds: arithmetic gives a number, a test an answer, and an expansion a list. Each may still stand
/// in every operator. Mapped, a test gives 1 or 0, and an expansion the element itself. Tested, what is no test
/// passes if it maps the element to anything but 0. Expanded, what is no expansion gives the one element that it maps
/// to. If the mapping faults, so do these two. Mapping and testing take no memory.
///
/// ```text
/// Formula::Add(1).map(4)               // Ok(5)
/// Formula::Even.map(4)                 // Ok(1)
/// Formula::Mod(2).test(4)              // Ok(false)
/// Formula::UpTo.expand(alloc, 3)       // Ok([1, 2, 3])
/// Formula::Into(10).expand(alloc, 0)   // Err(ExpandFault::Code(Formula::DIVIDE_BY_ZERO))
/// ```
#[derive(Clone, Copy, Debug, PartialEq, Eq)]
pub enum Formula {
    /// The element plus this number.
    Add(i64),
    /// The element times this number.
    Mul(i64),
    /// The remainder of the element by this number, with the element's sign.
    Mod(i64),
    /// This number divided by the element, cut toward zero.
    Into(i64),
    /// Whether the element is less than this number.
    Below(i64),
    /// Whether the element is greater than this number.
    Above(i64),
    /// Whether the element is this number.
    Equal(i64),
    /// Whether the element is even.
    Even,
    /// The element so many times; not at all if the number is below 1.
    Repeat(i64),
    /// 1, 2, .. up to the element; nothing if the element is below 1.
    UpTo,
}

impl Formula {
    /// The code of a result that is no `i64`.
    pub const OVERFLOW: u32 = 1;

    /// The code of a division by zero, also in a remainder.
    pub const DIVIDE_BY_ZERO: u32 = 2;

    /// The code of an expansion to more than 65,536 items.
    pub const TOO_MANY: u32 = 3;
}

impl Lambda for Formula {
    type Item = i64;

    ghost meaning = { formula_meaning };

    ghost short = { formula_meaning-short };

    #[inline(always)]
    fn map(&self, x: i64) -> Result<i64, u32> {
        map_one(*self, x)
    }

    #[inline(always)]
    fn test(&self, x: i64) -> Result<bool, u32> {
        test_one(*self, x)
    }

    // (a loop for each kind, so that none asks for it at each item)
    fn map_block(&self, block: &mut [i64]) -> (usize, Option<u32>) {
        match *self {
            Formula::Add(c) => map_sums(c, block),
            Formula::Mul(c) => FormulaKind(Formula::Mul(c)).map_block(block),
            Formula::Mod(c) => FormulaKind(Formula::Mod(c)).map_block(block),
            Formula::Into(c) => FormulaKind(Formula::Into(c)).map_block(block),
            Formula::Below(c) => FormulaKind(Formula::Below(c)).map_block(block),
            Formula::Above(c) => FormulaKind(Formula::Above(c)).map_block(block),
            Formula::Equal(c) => FormulaKind(Formula::Equal(c)).map_block(block),
            Formula::Even => FormulaKind(Formula::Even).map_block(block),
            f => FormulaKind(f).map_block(block),
        }
    }

    fn filter_block(&self, block: &mut [i64]) -> (usize, Option<u32>) {
        match *self {
            Formula::Mod(c) => FormulaKind(Formula::Mod(c)).filter_block(block),
            Formula::Below(c) => FormulaKind(Formula::Below(c)).filter_block(block),
            Formula::Above(c) => FormulaKind(Formula::Above(c)).filter_block(block),
            Formula::Equal(c) => FormulaKind(Formula::Equal(c)).filter_block(block),
            Formula::Even => FormulaKind(Formula::Even).filter_block(block),
            f => FormulaKind(f).filter_block(block),
        }
    }

    fn count_passing(&self, block: &[i64]) -> (usize, Option<u32>) {
        match *self {
            Formula::Mod(c) => FormulaKind(Formula::Mod(c)).count_passing(block),
            Formula::Below(c) => FormulaKind(Formula::Below(c)).count_passing(block),
            Formula::Above(c) => FormulaKind(Formula::Above(c)).count_passing(block),
            Formula::Equal(c) => FormulaKind(Formula::Equal(c)).count_passing(block),
            Formula::Even => FormulaKind(Formula::Even).count_passing(block),
            f => FormulaKind(f).count_passing(block),
        }
    }

    fn expand(&self, alloc: Global, x: i64) -> Result<Vec<i64>, ExpandFault> {
        expand_one(alloc, *self, x)
    }
}

/// One number added to each of a block. If all are near to zero, no sum is looked at by itself.
fn map_sums(c: i64, block: &mut [i64]) -> (usize, Option<u32>)
    ensures within { result.0 ≤ length block.new }
    ensures mapped { record { items = take result.0 block.new; fault = result.1 } ≡ mapped_block (formula_meaning (Add c)).map block.old }
{
    if -NEAR <= c && c <= NEAR && are_near(c, block) {
        add_each(c, block);
        return (block.len(), None);
    }
    FormulaKind(Formula::Add(c)).map_block(block)
}

/// What an element is mapped to. It is inlined, as `test_one` is: they run for each item, and the call would cost more than
/// the work.
#[inline(always)]
pub(crate) fn map_one(f: Formula, x: i64) -> Result<i64, u32>
    ensures { result ≡ (formula_meaning f).map x }
{
    match f {
        Formula::Add(c) => x.checked_add(c).ok_or(Formula::OVERFLOW),
        Formula::Mul(c) => x.checked_mul(c).ok_or(Formula::OVERFLOW),
        Formula::Mod(c) => remainder(x, c),
        Formula::Into(c) => quotient(c, x),
        Formula::Below(c) => Ok(i64::from(x < c)),
        Formula::Above(c) => Ok(i64::from(x > c)),
        Formula::Equal(c) => Ok(i64::from(x == c)),
        Formula::Even => Ok(i64::from(x % 2 == 0)),
        Formula::Repeat(_) | Formula::UpTo => Ok(x),
    }
}

/// Whether an element passes.
#[inline(always)]
pub(crate) fn test_one(f: Formula, x: i64) -> Result<bool, u32>
    ensures { result ≡ (formula_meaning f).test x }
{
    match f {
        Formula::Below(c) => Ok(x < c),
        Formula::Above(c) => Ok(x > c),
        Formula::Equal(c) => Ok(x == c),
        Formula::Even => Ok(x % 2 == 0),
        _ => Ok(map_one(f, x)? != 0),
    }
}

/// The items that stand in the place of an element.
pub(crate) fn expand_one(alloc: Global, f: Formula, x: i64) -> Result<Vec<i64>, ExpandFault>
    ensures items { IfOk result (λ ys. (formula_meaning f).expand x ≡ Ok ys.items) }
    ensures fault { IfErr result (IsFaultOf ((formula_meaning f).expand x)) }
{
    match f {
        Formula::Repeat(c) => {
            let count = expansion_length(c).map_err(ExpandFault::Code)?;
            Ok(vec![in alloc; x; count]?)
        }
        Formula::UpTo => {
            let count = expansion_length(x).map_err(ExpandFault::Code)?;
            Ok(numbers_up_to(alloc, count)?)
        }
        _ => {
            let y = map_one(f, x).map_err(ExpandFault::Code)?;
            Ok(vec![in alloc; y]?)
        }
    }
}

/// x by y, cut toward zero.
fn quotient(x: i64, y: i64) -> Result<i64, u32>
    ensures { result ≡ quotient x y }
{
    if y == 0 {
        return Err(Formula::DIVIDE_BY_ZERO);
    }
    x.checked_div(y).ok_or(Formula::OVERFLOW)
}

/// What that division leaves over. It always is an `i64`, also if the quotient isn't one.
fn remainder(x: i64, y: i64) -> Result<i64, u32>
    ensures { result ≡ remainder x y }
{
    if y == 0 {
        return Err(Formula::DIVIDE_BY_ZERO);
    }
    Ok(x.wrapping_rem(y))
}

/// How many items a count asks for.
fn expansion_length(count: i64) -> Result<usize, u32>
    ensures { result ≡ expansion_length count }
{
    match count {
        ..0 => Ok(0),
        0..=MOST_ITEMS => Ok(count as usize),
        _ => Err(Formula::TOO_MANY),
    }
}

/// 1, 2, .. up to n, in a block of just that size.
fn numbers_up_to(alloc: Global, n: usize) -> Result<Vec<i64>, AllocError>
    requires { n ≤ most_items }
    ensures { IfOk result (λ ys. ys.items ≡ numbers_up_to n) }
{
    let mut numbers = Vec::with_capacity(alloc, n)?;
    for i in 0..n {
        numbers.push(i as i64 + 1).unwrap();
    }
    Ok(numbers)
}
