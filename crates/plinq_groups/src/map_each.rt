ghost use Rattle.plinq_groups.specs.Mapping.{mapping, mapping-lawful};

use crate::make_of::MakeOf;
use crate::map_fault::MapFault;
use crate::mapped::Mapped;
use plinq_aggregate::GrowingAggregator;
use std::alloc::{AllocError, Global};

/// What is made of all items, in their order, up to the first that faults: last steps to another type, by the workers.
#[derive(Drop)]
pub struct MapEach<M> {
    pub make: M,
}

impl<M: MakeOf> GrowingAggregator for MapEach<M> {
    type Item = M::Item;

    type Acc = Mapped<M::Made>;

    type Out = Mapped<M::Made>;

    ghost folding = { λ m. mapping (M.makes m.make) };

    fn seed(&self, alloc: Global) -> Mapped<M::Made> {
        Mapped {
            made: Vec::new(alloc),
            fault: None,
        }
    }

    fn update(
        &self,
        alloc: Global,
        acc: Mapped<M::Made>,
        x: M::Item,
    ) -> Result<Mapped<M::Made>, AllocError> {
        if acc.fault.is_some() {
            return Ok(acc);
        }
        let mut made = acc.made;
        match self.make.make_of(alloc, x) {
            Ok(Some(one)) => {
                made.push(one)?;
                Ok(Mapped { made, fault: None })
            }
            Ok(None) => Ok(Mapped { made, fault: None }),
            Err(MapFault::Code(code)) => Ok(Mapped {
                made,
                fault: Some(code),
            }),
            Err(MapFault::Memory) => Err(AllocError),
        }
    }

    fn update_block(
        &self,
        alloc: Global,
        acc: Mapped<M::Made>,
        block: &[M::Item],
    ) -> Result<Mapped<M::Made>, AllocError> {
        if acc.fault.is_some() {
            return Ok(acc);
        }
        let mut made = acc.made;
        let fault = self.make.make_block(alloc, block, &mut made)?;
        Ok(Mapped { made, fault })
    }

    fn combine(
        &self,
        _alloc: Global,
        first: Mapped<M::Made>,
        second: Mapped<M::Made>,
    ) -> Result<Mapped<M::Made>, AllocError> {
        if first.fault.is_some() {
            return Ok(first);
        }
        let mut made = first.made;
        let mut rest = second.made;
        made.append(&mut rest)?;
        Ok(Mapped {
            made,
            fault: second.fault,
        })
    }

    fn result(&self, acc: Mapped<M::Made>) -> Mapped<M::Made> {
        acc
    }

    ghost lawful = { λ m. mapping-lawful (M.makes m.make) };
}
