ghost use Rattle.plinq_log_example.specs.Errors.{errors_meaning};

use crate::record::Record;
use plinq_lambda::{ExpandFault, Lambda};
use std::alloc::Global;

/// Keeps the records of severity 0 to 3, and has their times count from this record on. An earlier one is the fault 1.
#[derive(Clone, Copy)]
pub(crate) struct Errors<'a> {
    pub(crate) start: Record<'a>,
}

impl<'a> Lambda for Errors<'a> {
    type Item = Record<'a>;

    ghost meaning = { errors_meaning };

    ghost short = { λ _ _. tt };

    fn map(&self, record: Record<'a>) -> Result<Record<'a>, u32> {
        let millis = record.millis.checked_sub(self.start.millis).ok_or(1u32)?;
        Ok(Record { millis, ..record })
    }

    fn test(&self, record: Record<'a>) -> Result<bool, u32> {
        Ok(record.severity <= 3)
    }

    fn expand(&self, _: Global, _: Record<'a>) -> Result<Vec<Record<'a>>, ExpandFault> {
        Err(ExpandFault::Code(2))
    }
}
