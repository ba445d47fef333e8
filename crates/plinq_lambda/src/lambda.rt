ghost use Rattle.std.specs.Prelude.{◌≡◌, ◌≤◌, length, take, Ok, IfOk, IfErr};
ghost use Rattle.plinq_lambda.specs.Meaning.{Meaning, IsFaultOf, most_items};
ghost use Rattle.plinq_lambda.specs.Block.{mapped_block, filtered_block, passing_block};

use crate::expand_fault::ExpandFault;
use std::alloc::Global;

/// What a query's operators do to one element: `Select` maps it, `Where`, `TakeWhile` and `SkipWhile` test it,
/// `SelectMany` expands it. Each answers a value, or faults with a code of the lambda's own.
///
/// Its answers depend on the element alone, so that the workers of a query can share it ([`SharedLambda`]).
pub trait Lambda: Drop {
    /// The elements that it takes and gives.
    type Item: Copy;

    // The three functions that the methods compute.
    ghost meaning: { Self → Meaning Self.Item };

    /// The element that stands in the place of this one.
    ///
    /// # Errors
    ///
    /// The code of the lambda's fault.
    fn map(&self, x: Self::Item) -> Result<Self::Item, u32>
        ensures { result ≡ (meaning self.now).map x };

    /// Whether the element passes.
    ///
    /// # Errors
    ///
    /// The code of the lambda's fault.
    fn test(&self, x: Self::Item) -> Result<bool, u32>
        ensures { result ≡ (meaning self.now).test x };

    /// The elements that stand in the place of this one, at most 65,536.
    ///
    /// # Errors
    ///
    /// [`ExpandFault::Code`] if the lambda faults, also if memory is short; else [`ExpandFault::Memory`] if there
    /// is no room for them.
    fn expand(&self, alloc: Global, x: Self::Item) -> Result<Vec<Self::Item>, ExpandFault>
        ensures items { IfOk result (λ ys. (meaning self.now).expand x ≡ Ok ys.items) }
        ensures fault { IfErr result (IsFaultOf ((meaning self.now).expand x)) };

    /// Maps the items of a block in their places, up to the first that faults. Returns how many are mapped, and the code of
    /// the fault. What stands after them then isn't said.
    ///
    /// It is `map` for each; a lambda with a quicker loop has its own. Takes no memory.
    #[inline(always)]
    fn map_block(&self, block: &mut [Self::Item]) -> (usize, Option<u32>)
        ensures within { result.0 ≤ length block.new }
        ensures mapped { record { items = take result.0 block.new; fault = result.1 }
            ≡ mapped_block (meaning self.now).map block.old }
    {
        for (at, item) in block.iter_mut().enumerate() {
            match self.map(*item) {
                Ok(mapped) => *item = mapped,
                Err(code) => return (at, Some(code)),
            }
        }
        (block.len(), None)
    }

    /// Brings the items of a block that pass to its front, up to the first that faults. Returns how many pass, and the code
    /// of the fault. What stands after them then isn't said.
    ///
    /// It is `test` for each; a lambda with a quicker loop has its own. Takes no memory.
    #[inline(always)]
    fn filter_block(&self, block: &mut [Self::Item]) -> (usize, Option<u32>)
        ensures within { result.0 ≤ length block.new }
        ensures filtered { record { items = take result.0 block.new; fault = result.1 }
            ≡ filtered_block (meaning self.now).test block.old }
    {
        let mut kept = 0;
        for at in 0..block.len() {
            let item = block[at];
            match self.test(item) {
                Ok(passes) => {
                    block[kept] = item;
                    kept += usize::from(passes);
                }
                Err(code) => return (kept, Some(code)),
            }
        }
        (kept, None)
    }

    /// How many items of a block pass before the first that fails or faults, and the code of the fault. None after that one
    /// is tested.
    ///
    /// It is `test` for each; a lambda with a quicker loop has its own. Takes no memory.
    #[inline(always)]
    fn count_passing(&self, block: &[Self::Item]) -> (usize, Option<u32>)
        ensures within { result.0 ≤ length block.now }
        ensures passing { record { items = take result.0 block.now; fault = result.1 }
            ≡ passing_block (meaning self.now).test block.now }
    {
        for at in 0..block.len() {
            match self.test(block[at]) {
                Ok(true) => {}
                Ok(false) => return (at, None),
                Err(code) => return (at, Some(code)),
            }
        }
        (block.len(), None)
    }

    ghost short: { (f : Self) (x : Self.Item) → IfOk ((meaning f).expand x) (λ ys. length ys ≤ most_items) };
}

/// A lambda that the workers of a run share.
pub trait SharedLambda: Lambda<Item: Send> + Send + Sync {}

impl<L: Lambda<Item: Send> + Send + Sync> SharedLambda for L {}
