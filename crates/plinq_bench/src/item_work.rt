ghost use Rattle.plinq_bench.specs.Works.{work_meaning};

use crate::work::{Work, map_one, test_one};
use plinq_lambda::{ExpandFault, Lambda};
use std::alloc::Global;

/// A work that goes item by item, with the loops over a block that the trait has.
#[derive(Drop)]
pub(crate) struct ItemWork(pub(crate) Work);

impl Lambda for ItemWork {
    type Item = i64;

    ghost meaning = { λ work. work_meaning work.0 };

    ghost short = { λ _ _. tt };

    #[inline(always)]
    fn map(&self, x: i64) -> Result<i64, u32> {
        map_one(self.0, x)
    }

    #[inline(always)]
    fn test(&self, x: i64) -> Result<bool, u32> {
        test_one(self.0, x)
    }

    fn expand(&self, _: Global, _: i64) -> Result<Vec<i64>, ExpandFault> {
        Err(ExpandFault::Code(1))
    }
}
