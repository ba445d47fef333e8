ghost use Rattle.std.specs.Prelude.{◌≡◌, ◌==◌, true, false, if◌then◌else◌, IfOk, IfErr};
ghost use Rattle.plinq_keyed.specs.Keys.{keyed_from, element_lists, Keeps};
ghost use Rattle.plinq_partition.specs.Cuts.{cuts};
ghost use Rattle.plinq_partition.specs.declared.part_fault.PartFault.TheVariants.{NoPartitions, NotSupported, Memory};

use crate::elements::Elements;
use crate::even_parts::cut_elements;
use crate::part_fault::PartFault;
use crate::partitioner::OrderablePartitioner;
use plinq_keyed::{KeyProperties, Keyed};
use std::alloc::{AllocError, Global};
use std::marker::Model;

/// A list whose elements have their indexes as keys, cut into stretches.
///
/// ```text
/// let parts = RangeParts::new(alloc, list).partitions(2)?;   // the first half, and the second
/// ```
#[derive(Drop)]
pub struct RangeParts<T: Copy> {
    alloc: Global,
    values: Vec<T>,
}

impl<T: Copy> Model for RangeParts<T> {
    ghost use Rattle.std.specs.Prelude.{List};

    ghost Value = { List T };

    ghost view = { λ parts. parts.values.items };
}

impl<T: Copy> RangeParts<T> {
    /// The elements of this list. Takes no memory.
    pub fn new(alloc: Global, values: Vec<T>) -> RangeParts<T>
        ensures { result ≡ values.items }
    {
        RangeParts { alloc, values }
    }

    /// The elements in `n` partitions: partition `p` of `L` elements has those from `p * L / n` up to, not including,
    /// `(p + 1) * L / n`, both cut off to whole numbers (.NET's `GetOrderablePartitions`).
    ///
    /// # Errors
    ///
    /// [`PartFault::NoPartitions`] if `n` is 0, else [`PartFault::Memory`].
    pub fn partitions(&self, n: u64) -> Result<Vec<Vec<Keyed<T>>>, PartFault>
        ensures none { n ≡ 0 → result ≡ Err NoPartitions }
        ensures fault { IfErr result (λ fault. fault ≡ (if n == 0 then NoPartitions else Memory)) }
        ensures cut { IfOk result (λ parts. element_lists parts.items ≡ cuts (keyed_from 0 self.now) n) }
        ensures promised { IfOk result (λ parts. Keeps (⟦<RangeParts<T> as OrderablePartitioner>⟧.promised self.now) (element_lists parts.items)) }
    {
        cut_elements(self.alloc, self, n)
    }

    /// Partitions on demand (.NET's `GetOrderableDynamicPartitions`), of which there are none here. Takes no memory.
    ///
    /// # Errors
    ///
    /// Always [`PartFault::NotSupported`].
    pub fn dynamic(&self) -> Result<Vec<Keyed<T>>, PartFault>
        ensures { result ≡ Err NotSupported }
    {
        Err(PartFault::NotSupported)
    }
}

impl<T: Copy> OrderablePartitioner for RangeParts<T> {
    ghost promised = { λ _. record { in_each = true; across = true; normalized = true } };

    ghost on_demand = { λ _. false };

    fn properties(&self) -> KeyProperties {
        KeyProperties {
            in_each: true,
            across: true,
            normalized: true,
        }
    }

    fn supports_dynamic(&self) -> bool {
        false
    }
}

impl<T: Copy> Elements for RangeParts<T> {
    type Item = T;

    ghost elements = { λ parts. keyed_from 0 parts };

    fn count(&self) -> u64 {
        self.values.len() as u64
    }

    fn stretch(&self, from: u64, to: u64) -> Result<Vec<Keyed<T>>, AllocError> {
        let mut part = Vec::with_capacity(self.alloc, (to - from) as usize)?;
        for key in from..to {
            part.push_reserved(Keyed {
                key,
                value: self.values[key as usize],
            });
        }
        Ok(part)
    }
}
