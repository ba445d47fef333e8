ghost use Rattle.std.specs.Prelude.{◌≡◌, ◌++◌, ℕ, Option, Result, IfOk};
ghost use Rattle.plinq_groups.specs.Mapping.{Makes, mapped_items};

use crate::map_fault::MapFault;
use std::alloc::{AllocError, Global};

/// What is made of an item: a value of another type, nothing if the item is left out, or a code if it faults (.NET's `Select`
/// and `Where`, at a query's end).
///
/// It may be shared by threads.
pub trait MakeOf: Sync + Drop {
    /// What it is made of.
    type Item: Copy;

    /// What is made.
    type Made: Send + Drop;

    // What is made of an item, if anything, or the code.
    ghost makes: { Self → Self.Item → Result (Option Self.Made) ℕ };

    /// Makes it; that may take memory.
    ///
    /// # Errors
    ///
    /// [`MapFault::Code`] if the item faults, [`MapFault::Memory`] if there is no room.
    fn make_of(&self, alloc: Global, x: Self::Item) -> Result<Option<Self::Made>, MapFault>
        ensures { Makes (makes self.now x) result };

    /// Adds what is made of a block's items to a list, first to last, up to the first that faults. Its code is returned.
    ///
    /// It is `make_of` for each; a step with a quicker loop has its own.
    ///
    /// # Errors
    ///
    /// [`AllocError`] if there is no room, also in the list.
    #[inline(always)]
    fn make_block(
        &self,
        alloc: Global,
        block: &[Self::Item],
        made: &mut Vec<Self::Made>,
    ) -> Result<Option<u32>, AllocError>
        ensures made { IfOk result (λ _. made.new.items ≡ made.old.items ++ (mapped_items (makes self.now) block.now).0) }
        ensures fault { IfOk result (λ fault. fault ≡ (mapped_items (makes self.now) block.now).1) }
    {
        for x in block {
            match self.make_of(alloc, *x) {
                Ok(Some(one)) => {
                    made.push(one)?;
                    continue;
                }
                Ok(None) => continue,
                Err(MapFault::Code(code)) => return Ok(Some(code)),
                Err(MapFault::Memory) => return Err(AllocError),
            }
        }
        Ok(None)
    }
}
