ghost use Rattle.std.specs.Prelude.{◌≤◌, Ok, IfOk, length};
ghost use Rattle.plinq_lambda.specs.Meaning.{most_items};
ghost use Rattle.plinq_lambda.specs.Formula.{formula_meaning};
ghost use Rattle.plinq_lambda.specs.Short.{formula_meaning-short};

use crate::expand_fault::ExpandFault;
use crate::formula::{Formula, expand_one, map_one, test_one};
use crate::lambda::Lambda;
use std::alloc::Global;

/// A formula whose kind is known where it is made, so that its loops over a block are those of this kind.
#[derive(Drop)]
pub(crate) struct FormulaKind(pub(crate) Formula);

impl Lambda for FormulaKind {
    type Item = i64;

    ghost meaning = { λ kind. formula_meaning kind.0 };

    ghost short = { λ kind. formula_meaning-short kind.0 };

    #[inline(always)]
    fn map(&self, x: i64) -> Result<i64, u32> {
        map_one(self.0, x)
    }

    #[inline(always)]
    fn test(&self, x: i64) -> Result<bool, u32> {
        test_one(self.0, x)
    }

    fn expand(&self, alloc: Global, x: i64) -> Result<Vec<i64>, ExpandFault> {
        expand_one(alloc, self.0, x)
    }
}
