//! Sources of lists that may have any length.
ghost use Rattle.std.specs.Prelude.{◌≡◌, ◌^◌, vec_len, nat_le, is_ok, IfOk, IfErr};
ghost use Rattle.plinq_source.specs.Trace.{ended_trace};
ghost use Rattle.plinq_source.specs.declared.ending.Ending.TheVariants.{End};
ghost use Rattle.plinq_source.specs.declared.source_fault.SourceFault.TheVariants.{TooLarge};

use plinq_source::{ListSource, Source, SourceFault};
use std::alloc::Global;

/// A list of any length as a source. Takes no memory.
///
/// # Errors
///
/// [`SourceFault::TooLarge`] if it has more than 2^40 items.
pub fn list_source<T: Copy + Send>(
    alloc: Global,
    items: Vec<T>,
) -> Result<ListSource<T>, SourceFault>
    ensures made { is_ok result ≡ nat_le (vec_len items) (2 ^ 40) }
    ensures refused { IfErr result (λ e. e ≡ TooLarge) }
    ensures whole { IfOk result (λ s. ⟦<ListSource<T> as Source>⟧.whole s ≡ ended_trace items.items End) }
    ensures fresh { IfOk result (λ s. ⟦<ListSource<T> as Source>⟧.given s ≡ 0) }
{
    if items.len() > 1 << 40 {
        return Err(SourceFault::TooLarge);
    }
    Ok(ListSource::new(alloc, items))
}
