ghost use Rattle.plinq_groups.specs.FoldedEach.{folding_each, folding_each-lawful};

use crate::make_of::MakeOf;
use crate::map_fault::MapFault;
use plinq_aggregate::GrowingAggregator;
use std::alloc::{AllocError, Global};

/// An aggregate of what is made of each item, by the workers: groups of parsed lines, or a sum of those that pass.
///
/// Its value is that of all that was made, up to the first item that faults, with this item's code beside it.
///
/// ```text
/// let (groups, fault) = aggregate(&rt, alloc, &query, lines, growth, &gate, &FoldEach { make: Parse, each: by_status })?;
/// ```
#[derive(Drop)]
pub struct FoldEach<M, A> {
    /// What is made of an item.
    pub make: M,
    /// What becomes of all that was made.
    pub each: A,
}

impl<M: MakeOf, A: GrowingAggregator<Item = M::Made>> GrowingAggregator for FoldEach<M, A> {
    type Item = M::Item;

    type Acc = (A::Acc, Option<u32>);

    type Out = (A::Out, Option<u32>);

    ghost folding = { λ e. folding_each (M.makes e.make) (A.folding e.each) };

    fn seed(&self, alloc: Global) -> (A::Acc, Option<u32>) {
        (self.each.seed(alloc), None)
    }

    fn update(
        &self,
        alloc: Global,
        acc: (A::Acc, Option<u32>),
        x: M::Item,
    ) -> Result<(A::Acc, Option<u32>), AllocError> {
        if acc.1.is_some() {
            return Ok(acc);
        }
        match self.make.make_of(alloc, x) {
            Ok(Some(made)) => {
                let after = self.each.update(alloc, acc.0, made)?;
                Ok((after, None))
            }
            Ok(None) => Ok(acc),
            Err(MapFault::Code(code)) => Ok((acc.0, Some(code))),
            Err(MapFault::Memory) => Err(AllocError),
        }
    }

    fn update_block(
        &self,
        alloc: Global,
        acc: (A::Acc, Option<u32>),
        block: &[M::Item],
    ) -> Result<(A::Acc, Option<u32>), AllocError> {
        if acc.1.is_some() {
            return Ok(acc);
        }
        let mut made = Vec::new(alloc);
        let fault = self.make.make_block(alloc, block, &mut made)?;
        let after = self.each.update_block(alloc, acc.0, made.as_slice())?;
        Ok((after, fault))
    }

    fn combine(
        &self,
        alloc: Global,
        first: (A::Acc, Option<u32>),
        second: (A::Acc, Option<u32>),
    ) -> Result<(A::Acc, Option<u32>), AllocError> {
        if first.1.is_some() {
            return Ok(first);
        }
        let both = self.each.combine(alloc, first.0, second.0)?;
        Ok((both, second.1))
    }

    fn result(&self, acc: (A::Acc, Option<u32>)) -> (A::Out, Option<u32>) {
        (self.each.result(acc.0), acc.1)
    }

    ghost lawful = { λ e. folding_each-lawful (M.makes e.make) (A.folding e.each) (A.lawful e.each) };
}
