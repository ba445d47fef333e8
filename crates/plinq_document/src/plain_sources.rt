ghost use Rattle.std.specs.Prelude.{◌≡◌, ◌≤◌, ◌^◌, MatchResult, IfOk, Some, None, vec_len};
ghost use Rattle.serde_json.specs.View.{view, items_view};
ghost use Rattle.plinq_document.specs.Results.{IfMeant, or_shape};
ghost use Rattle.plinq_document.specs.Sources.{whole_numbers, code_of, list_numbers, text_source, range_trace, repeat_trace};
ghost use Rattle.plinq_document.specs.Sources.{of_number_and_count, plain_source_named, plain_source_of};

use crate::doc_fault::DocFault;
use crate::plain_source::PlainSource;
use crate::source_name::{SourceName, source_name_of};
use crate::values::only_count;
use plinq_source::{ListSource, RangeSource, RepeatSource, Source, TextSource};
use serde_json::Value;
use std::alloc::Global;

/// The most items of a list, and the most bytes of a text.
const MOST_ITEMS: usize = 1 << 40;

/// The source that a value describes, of those that every version has.
pub(crate) fn plain_source_of(alloc: Global, value: &Value) -> Result<PlainSource, DocFault>
    ensures whole { MatchResult result
        (λ s. plain_source_of (view value.now) ≡ Ok (⟦<PlainSource as Source>⟧.whole s))
        (IfMeant (plain_source_of (view value.now))) }
    ensures fresh { IfOk result (λ s. ⟦<PlainSource as Source>⟧.given s ≡ 0) }
{
    let mut members = value.as_object().ok_or(DocFault::Shape)?.iter();
    let (name, what) = members.next().ok_or(DocFault::Shape)?;
    let Some((other, code)) = members.next() else {
        let name = source_name_of(name.as_str()).ok_or(DocFault::Shape)?;
        return plain_source_named(alloc, name, what);
    };
    if members.next().is_some() || name.as_str() != "list" || other.as_str() != "refuse" {
        return Err(DocFault::Shape);
    }
    let code = code_of(code).ok_or(DocFault::Shape)?;
    let numbers = numbers_of(alloc, what)?;
    Ok(PlainSource::List(ListSource::refusing(alloc, numbers, code)))
}

fn plain_source_named(
    alloc: Global,
    name: SourceName,
    what: &Value,
) -> Result<PlainSource, DocFault>
    ensures whole { MatchResult result
        (λ s. plain_source_named (view what.now) name ≡ Ok (⟦<PlainSource as Source>⟧.whole s))
        (IfMeant (plain_source_named (view what.now) name)) }
    ensures fresh { IfOk result (λ s. ⟦<PlainSource as Source>⟧.given s ≡ 0) }
{
    match name {
        SourceName::List => {
            let numbers = numbers_of(alloc, what)?;
            Ok(PlainSource::List(ListSource::new(alloc, numbers)))
        }
        SourceName::Text => text_source(alloc, what.as_str().ok_or(DocFault::Shape)?),
        SourceName::Range => range_source(what.as_array().ok_or(DocFault::Shape)?),
        SourceName::Repeat => repeat_source(what.as_array().ok_or(DocFault::Shape)?),
    }
}

/// The numbers of a text.
pub(crate) fn text_source(alloc: Global, text: &str) -> Result<PlainSource, DocFault>
    ensures whole { MatchResult result
        (λ s. text_source text.now ≡ Ok (⟦<PlainSource as Source>⟧.whole s))
        (IfMeant (text_source text.now)) }
    ensures fresh { IfOk result (λ s. ⟦<PlainSource as Source>⟧.given s ≡ 0) }
{
    if text.len() > MOST_ITEMS {
        return Err(DocFault::Source);
    }
    let bytes = text.as_bytes().to_vec(alloc)?;
    Ok(PlainSource::Text(TextSource::new(alloc, bytes)))
}

fn range_source(start_and_count: &[Value]) -> Result<PlainSource, DocFault>
    ensures whole { MatchResult result
        (λ s. of_number_and_count range_trace (items_view start_and_count.now)
        ≡ Ok (⟦<PlainSource as Source>⟧.whole s))
        (λ e. of_number_and_count range_trace (items_view start_and_count.now) ≡ Err e) }
    ensures fresh { IfOk result (λ s. ⟦<PlainSource as Source>⟧.given s ≡ 0) }
{
    let (start, count) = start_and_count.split_first().ok_or(DocFault::Shape)?;
    let start = start.as_i64().ok_or(DocFault::Shape)?;
    let count = only_count(count).ok_or(DocFault::Shape)?;
    Ok(PlainSource::Range(RangeSource::new(start, count)?))
}

fn repeat_source(value_and_count: &[Value]) -> Result<PlainSource, DocFault>
    ensures whole { MatchResult result
        (λ s. of_number_and_count repeat_trace (items_view value_and_count.now)
        ≡ Ok (⟦<PlainSource as Source>⟧.whole s))
        (λ e. of_number_and_count repeat_trace (items_view value_and_count.now) ≡ Err e) }
    ensures fresh { IfOk result (λ s. ⟦<PlainSource as Source>⟧.given s ≡ 0) }
{
    let (value, count) = value_and_count.split_first().ok_or(DocFault::Shape)?;
    let value = value.as_i64().ok_or(DocFault::Shape)?;
    let count = only_count(count).ok_or(DocFault::Shape)?;
    Ok(PlainSource::Repeat(RepeatSource::new(value, count)?))
}

/// The numbers of a list that may be a source.
fn numbers_of(alloc: Global, list: &Value) -> Result<Vec<i64>, DocFault>
    ensures numbers { MatchResult result
        (λ ns. list_numbers (view list.now) ≡ Ok ns.items)
        (IfMeant (list_numbers (view list.now))) }
    ensures few { IfOk result (λ ns. vec_len ns ≤ 2 ^ 40) }
{
    let numbers = whole_numbers(alloc, list.as_array().ok_or(DocFault::Shape)?)?;
    if numbers.len() > MOST_ITEMS {
        return Err(DocFault::Source);
    }
    Ok(numbers)
}

/// The items, if all are whole numbers.
fn whole_numbers(alloc: Global, items: &[Value]) -> Result<Vec<i64>, DocFault>
    ensures { MatchResult result
        (λ ns. whole_numbers (items_view items.now) ≡ Some ns.items)
        (IfMeant (or_shape (whole_numbers (items_view items.now)))) }
{
    let mut numbers = Vec::with_capacity(alloc, items.len())?;
    for item in items {
        let number = item.as_i64().ok_or(DocFault::Shape)?;
        numbers.push(number).unwrap();
    }
    Ok(numbers)
}

/// The code of a refusal.
fn code_of(value: &Value) -> Option<u32>
    ensures { result ≡ code_of (view value.now) }
{
    u32::try_from(value.as_u64()?).ok()
}
