ghost use Rattle.std.specs.Prelude.{◌≡◌, ◌==◌, true, false, if◌then◌else◌, IfOk, IfErr};
ghost use Rattle.plinq_keyed.specs.Keys.{keys, rises, element_lists, Keeps};
ghost use Rattle.plinq_partition.specs.Cuts.{cuts};
ghost use Rattle.plinq_partition.specs.declared.part_fault.PartFault.TheVariants.{NoPartitions, NotSupported, KeysNotRising, Memory};

use crate::elements::Elements;
use crate::even_parts::cut_elements;
use crate::part_fault::PartFault;
use crate::partitioner::OrderablePartitioner;
use plinq_keyed::{KeyProperties, Keyed, check_in_each};
use std::alloc::{AllocError, Global};
use std::marker::Model;
use std::slice;

/// Elements under keys of the caller's own, which rise, cut into stretches.
///
/// ```text
/// let parts = PairParts::new(alloc, pairs)?.partitions(2)?;   // the first half, and the second
/// ```
#[derive(Drop)]
pub struct PairParts<T: Copy> {
    alloc: Global,
    pairs: Vec<Keyed<T>>,
}

impl<T: Copy> Model for PairParts<T> {
    ghost use Rattle.std.specs.Prelude.{◌≡◌, List, true};
    ghost use Rattle.plinq_keyed.specs.declared.keyed.Keyed.{Keyed};
    ghost use Rattle.plinq_keyed.specs.Keys.{keys, rises};

    ghost Value = { List (Keyed T) };

    ghost view = { λ parts. parts.pairs.items };

    ghost invariant = { λ parts. rises (keys parts.pairs.items) ≡ true };
}

impl<T: Copy> PairParts<T> {
    /// The elements of this list. Takes no memory.
    ///
    /// # Errors
    ///
    /// [`PartFault::KeysNotRising`] if a key isn't above the one before it.
    pub fn new(alloc: Global, pairs: Vec<Keyed<T>>) -> Result<PairParts<T>, PartFault>
        ensures { result ≡ (if rises (keys pairs.items) then Ok pairs.items else Err KeysNotRising) }
    {
        if check_in_each(slice::from_ref(&pairs)) {
            Ok(PairParts { alloc, pairs })
        } else {
            Err(PartFault::KeysNotRising)
        }
    }

    /// The elements in `n` partitions: partition `p` of `L` elements has those from `p * L / n` up to, not including,
    /// `(p + 1) * L / n`, both cut off to whole numbers (.NET's `GetOrderablePartitions`).
    ///
    /// # Errors
    ///
    /// [`PartFault::NoPartitions`] if `n` is 0, else [`PartFault::Memory`].
    pub fn partitions(&self, n: u64) -> Result<Vec<Vec<Keyed<T>>>, PartFault>
        ensures none { n ≡ 0 → result ≡ Err NoPartitions }
        ensures fault { IfErr result (λ fault. fault ≡ (if n == 0 then NoPartitions else Memory)) }
        ensures cut { IfOk result (λ parts. element_lists parts.items ≡ cuts self.now n) }
        ensures promised { IfOk result (λ parts. Keeps (⟦<PairParts<T> as OrderablePartitioner>⟧.promised self.now) (element_lists parts.items)) }
    {
        cut_elements(self.alloc, self, n)
    }

    /// Partitions on demand (.NET's `GetOrderableDynamicPartitions`), of which there are none here. Takes no memory.
    ///
    /// # Errors
    ///
    /// Always [`PartFault::NotSupported`].
    pub fn dynamic(&self) -> Result<Vec<Keyed<T>>, PartFault>
        ensures { result ≡ Err NotSupported }
    {
        Err(PartFault::NotSupported)
    }
}

impl<T: Copy> OrderablePartitioner for PairParts<T> {
    ghost promised = { λ _. record { in_each = true; across = true; normalized = false } };

    ghost on_demand = { λ _. false };

    fn properties(&self) -> KeyProperties {
        KeyProperties {
            in_each: true,
            across: true,
            normalized: false,
        }
    }

    fn supports_dynamic(&self) -> bool {
        false
    }
}

impl<T: Copy> Elements for PairParts<T> {
    type Item = T;

    ghost elements = { λ parts. parts };

    fn count(&self) -> u64 {
        self.pairs.len() as u64
    }

    fn stretch(&self, from: u64, to: u64) -> Result<Vec<Keyed<T>>, AllocError> {
        let (front, _) = self.pairs.split_at(to as usize);
        let (_, part) = front.split_at(from as usize);
        Vec::from_slice(self.alloc, part)
    }
}
