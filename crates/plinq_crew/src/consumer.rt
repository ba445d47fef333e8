ghost use Rattle.std.specs.Prelude.{◌≡◌, ◌≤◌, ◌^◌, Bool};
ghost use Rattle.plinq_ops.specs.declared.results.ChunkResult.{ChunkResult};
ghost use Rattle.plinq_ops.specs.Tails.{end_of_result};

use plinq_ops::ChunkResult;

/// What accepts the parts that workers send.
pub trait Consumer<M>: Drop {
    // It can accept parts.
    ghost is_ready: { Self → Type 0 };

    // It wants nothing more.
    ghost wants_no_more: { Self → Bool };

    // It before a part, the part, and it after the part.
    ghost accepts: { Self → ChunkResult M → Self → Type 0 };

    /// Accepts a part.
    fn accept(&mut self, part: ChunkResult<M>)
        requires ready { is_ready self.old }
        requires within { end_of_result part ≤ 2 ^ 40 }
        ensures ready { is_ready self.new }
        ensures accepts { accepts self.old part self.new };

    /// No part is there now.
    fn idle(&mut self)
        ensures { self.new ≡ self.old };

    /// Whether it wants nothing more.
    fn is_over(&self) -> bool
        ensures { result ≡ wants_no_more self.now };

    /// The first key whose part is missing.
    fn next_key(&self) -> u64;

    /// How many items had their turn so far, or the greatest number if there were more.
    fn merged_items(&self) -> u64;
}
