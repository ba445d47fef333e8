ghost use Rattle.std.specs.Prelude.{◌≡◌, ◌+◌, ◌^◌, MatchResult, IfOk, option_map, nat_le};
ghost use Rattle.serde_json.specs.View.{view, items_view};
ghost use Rattle.plinq_document.specs.Results.{IfMeant};
ghost use Rattle.plinq_document.specs.Sources.{count_after, bound_named, bound_of, few_together, concat_of, two_items, concat_pair};

use crate::any_source::AnySource;
use crate::doc_fault::DocFault;
use crate::plain_sources::plain_source_of;
use crate::source_name::{SourceName, source_name_of};
use crate::values::only_count;
use plinq_source::{ConcatSource, Source};
use serde_json::Value;
use std::alloc::Global;

/// The most items of two sources together.
const MOST_ITEMS: u64 = 1 << 40;

/// The two values of `{"concat":[S,T]}`, if a value is that.
pub(crate) fn concat_pair(value: &Value) -> Option<(&Value, &Value)>
    ensures { option_map (λ pair. (view pair.0.now, view pair.1.now)) result ≡ concat_pair (view value.now) }
{
    let mut members = value.as_object()?.iter();
    let (name, what) = members.next()?;
    if members.next().is_some() || name.as_str() != "concat" {
        return None;
    }
    two_items(what.as_array()?)
}

fn two_items(items: &[Value]) -> Option<(&Value, &Value)>
    ensures { option_map (λ pair. (view pair.0.now, view pair.1.now)) result ≡ two_items (items_view items.now) }
{
    let (first, items) = items.split_first()?;
    let (second, items) = items.split_first()?;
    match items.split_first() {
        None => Some((first, second)),
        Some(_) => None,
    }
}

/// The sources of two values, one after the other. A wrong shape of either comes before a size.
pub(crate) fn concat_of(alloc: Global, first: &Value, second: &Value) -> Result<AnySource, DocFault>
    ensures whole { MatchResult result
        (λ s. concat_of (view first.now) (view second.now) ≡ Ok (⟦<AnySource as Source>⟧.whole s))
        (IfMeant (concat_of (view first.now) (view second.now))) }
    ensures fresh { IfOk result (λ s. ⟦<AnySource as Source>⟧.given s ≡ 0) }
{
    let few = are_few(bound_of(first), bound_of(second));
    match plain_source_of(alloc, first) {
        Ok(a) => {
            let b = plain_source_of(alloc, second)?;
            if !few {
                return Err(DocFault::Source);
            }
            Ok(AnySource::Concat(ConcatSource::new(a, b)))
        }
        Err(DocFault::Source) => {
            let _ = plain_source_of(alloc, second)?;
            Err(DocFault::Source)
        }
        Err(fault) => Err(fault),
    }
}

/// Whether sources of these bounds have few items together.
fn are_few(first: Option<u64>, second: Option<u64>) -> bool
    ensures { result ≡ few_together first second }
{
    match (first, second) {
        (Some(m), Some(n)) => m.saturating_add(n) <= MOST_ITEMS,
        _ => false,
    }
}

/// The most items of the source that a value describes.
fn bound_of(value: &Value) -> Option<u64>
    ensures { result ≡ bound_of (view value.now) }
{
    let (name, what) = value.as_object()?.iter().next()?;
    bound_named(source_name_of(name.as_str())?, what)
}

fn bound_named(name: SourceName, what: &Value) -> Option<u64>
    ensures { result ≡ bound_named (view what.now) name }
{
    match name {
        SourceName::List => Some(what.as_array()?.len() as u64),
        SourceName::Text => Some(what.as_str()?.len() as u64),
        SourceName::Range | SourceName::Repeat => count_after(what.as_array()?),
    }
}

fn count_after(items: &[Value]) -> Option<u64>
    ensures { result ≡ count_after (items_view items.now) }
{
    let (_, items) = items.split_first()?;
    only_count(items)
}
