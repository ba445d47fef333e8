ghost use Rattle.std.specs.Prelude.{◌≡◌, ◌≤◌, ◌==◌, if◌then◌else◌, IfOk, IfErr, OnOk};
ghost use Rattle.plinq_keyed.specs.Keys.{element_lists};
ghost use Rattle.plinq_partition.specs.Cuts.{cuts, cut_place};
ghost use Rattle.plinq_partition.specs.declared.part_fault.PartFault.TheVariants.{NoPartitions, Memory};

use crate::elements::Elements;
use crate::part_fault::PartFault;
use plinq_keyed::Keyed;
use std::alloc::Global;

/// The elements in `n` partitions, one allocation for each and one for all.
pub(crate) fn cut_elements<E: Elements>(
    alloc: Global,
    elements: &E,
    n: u64,
) -> Result<Vec<Vec<Keyed<E::Item>>>, PartFault>
    ensures none { n ≡ 0 → result ≡ Err NoPartitions }
    ensures some { OnOk result (1 ≤ n) }
    ensures fault { IfErr result (λ fault. fault ≡ (if n == 0 then NoPartitions else Memory)) }
    ensures cut { IfOk result (λ parts. element_lists parts.items ≡ cuts (E.elements elements.now) n) }
{
    if n == 0 {
        return Err(PartFault::NoPartitions);
    }
    let count = elements.count();
    let mut parts = Vec::with_capacity(alloc, n as usize)?;
    let mut from = 0;
    for part in 0..n {
        let to = place_of(part + 1, count, n);
        let stretch = elements.stretch(from, to)?;
        parts.push_reserved(stretch);
        from = to;
    }
    Ok(parts)
}

/// The place at which that partition of `n` begins, or with `n` the end.
fn place_of(part: u64, count: u64, n: u64) -> u64
    requires some { 1 ≤ n }
    requires within { part ≤ n }
    ensures place { result ≡ cut_place part count n }
    ensures inside { result ≤ count }
{
    (u128::from(part) * u128::from(count) / u128::from(n)) as u64
}
