ghost use Rattle.std.specs.Prelude.{◌≡◌, IfOk, MatchResult};
ghost use Rattle.serde_json.specs.Data.{Members, object};
ghost use Rattle.serde_json.specs.View.{view, items_view, members_view};
ghost use Rattle.serde_json.specs.Errors.{IsMemory};
ghost use Rattle.plinq_document.specs.declared.doc_fault.DocFault.TheVariants.{Memory, NotJson};
ghost use Rattle.plinq_document.specs.Results.{IfMeant};
ghost use Rattle.plinq_document.specs.inner.Apart.{AreApart, IsFresh, source_apart, meaning_apart};
ghost use Rattle.plinq_document.specs.Document.{is_top_name, are_top_names, names_check, steps_in, new_query, document_meaning, json_of, document_of};

use crate::aggregates::aggregate_in;
use crate::any_source::AnySource;
use crate::by_tokens::{Parts, parts_of};
use crate::doc_fault::DocFault;
use crate::growth_counts::growth_counts;
use crate::job::Job;
use crate::plain_source::PlainSource;
use crate::sources::source_in;
use crate::steps::with_steps;
use crate::version::{Version, version_in};
use plinq_lambda::Formula;
use plinq_ops::Query;
use plinq_settings::Settings;
use plinq_source::Source;
use serde_json::Value;
use serde_json::value::Map;
use std::alloc::Global;

/// The most bytes of a document.
const MOST_BYTES: usize = 16_777_216;

/// The most steps of a query.
const MOST_STEPS: usize = 1_000;

/// Reads a document: one JSON text, of version 1 or 2.
///
/// The workers and the merge option of the command line count as calls at the head of the query, in this order.
///
/// ```text
/// {"version": 1, "source": {"list": [3, 1, 4]}, "query": [["as_ordered"], ["select", "add", 1]]}
/// ```
///
/// # Errors
///
/// The first thing that is wrong, in this order: the length, the JSON, whether there is a version, which version it is,
/// the shape of everything else, the source, the growth, and then the steps in their order. [`DocFault::Memory`] if
/// memory ran out on the way, whatever stands later.
pub fn read_document(alloc: Global, bytes: &[u8], settings: Settings) -> Result<Job, DocFault>
    ensures { MatchResult result (λ job. document_of settings bytes.now ≡ Ok job) (IfMeant (document_of settings bytes.now)) }
{
    if bytes.len() > MOST_BYTES {
        return Err(DocFault::TooLong);
    }
    let mut lacked = false;
    if let Some(parts) = parts_of(alloc, bytes, &mut lacked) {
        return job_of_parts(alloc, parts, settings);
    }
    if lacked {
        return Err(DocFault::Memory);
    }
    let value = json_of(alloc, bytes)?;
    job_of(alloc, &value, None, settings)
}

/// The value that a JSON text is.
fn json_of(alloc: Global, bytes: &[u8]) -> Result<Value, DocFault>
    ensures { MatchResult result (λ v. json_of bytes.now ≡ Ok (view v)) (IfMeant (json_of bytes.now)) }
{
    match Value::from_slice(alloc, bytes) {
        Ok(value) => Ok(value),
        Err(error) => Err(refusal(&error)),
    }
}

fn refusal(error: &serde_json::Error) -> DocFault
    ensures memory { IsMemory error.now → result ≡ Memory }
    ensures other { ¬ IsMemory error.now → result ≡ NotJson }
{
    if error.is_memory() {
        DocFault::Memory
    } else {
        DocFault::NotJson
    }
}

fn job_of_parts(alloc: Global, parts: Parts, settings: Settings) -> Result<Job, DocFault>
    requires { IsFresh parts.source }
    ensures { (ms : Members) → AreApart parts.source (members_view parts.others.entries) ms →
        MatchResult result
        (λ job. document_meaning settings (object ms) ≡ Ok job)
        (IfMeant (document_meaning settings (object ms))) }
{
    job_of(alloc, &Value::Object(parts.others), parts.source, settings)
}

/// The job that a document describes; its source may have been read apart.
fn job_of(
    alloc: Global,
    value: &Value,
    source: Option<PlainSource>,
    settings: Settings,
) -> Result<Job, DocFault>
    requires { IsFresh source }
    ensures { MatchResult result
        (λ job. meaning_apart settings source (view value.now) ≡ Ok job)
        (IfMeant (meaning_apart settings source (view value.now))) }
{
    let cancel_after = settings.cancel_after;
    let version = version_in(value)?;
    check_names(value)?;
    let steps = steps_in(value)?;
    let counts = growth_counts(value)?;
    let aggregate = aggregate_in(version, value)?;
    let source = source_apart(alloc, source, version, value)?;
    let growth = counts.growth()?;
    let query = with_steps(version, new_query(alloc, settings), steps)?;
    Ok(Job {
        query,
        source,
        growth,
        has_growth: counts.is_given,
        aggregate,
        cancel_after,
    })
}

fn source_apart(
    alloc: Global,
    source: Option<PlainSource>,
    version: Version,
    value: &Value,
) -> Result<AnySource, DocFault>
    requires { IsFresh source }
    ensures whole { MatchResult result
        (λ s. source_apart source version (view value.now) ≡ Ok (⟦<AnySource as Source>⟧.whole s))
        (IfMeant (source_apart source version (view value.now))) }
    ensures fresh { IfOk result (λ s. ⟦<AnySource as Source>⟧.given s ≡ 0) }
{
    match source {
        Some(source) => Ok(AnySource::Plain(source)),
        None => source_in(alloc, version, value),
    }
}

fn check_names(value: &Value) -> Result<(), DocFault>
    ensures { result ≡ names_check (view value.now) }
{
    if !are_top_names(value.as_object().ok_or(DocFault::Shape)?) {
        return Err(DocFault::Shape);
    }
    Ok(())
}

/// Whether a document may have all these names.
fn are_top_names(members: &Map<String, Value>) -> bool
    ensures { result ≡ are_top_names (members_view members.now.entries) }
{
    for (name, _) in members.iter() {
        if !is_top_name(name.as_str()) {
            return false;
        }
    }
    true
}

/// Whether a document may have this name.
fn is_top_name(name: &str) -> bool
    ensures { result ≡ is_top_name name.now }
{
    name == "version"
        || name == "source"
        || name == "query"
        || name == "growth"
        || name == "aggregate"
}

fn steps_in(value: &Value) -> Result<&[Value], DocFault>
    ensures { MatchResult result
        (λ steps. steps_in (view value.now) ≡ Ok (items_view steps.now))
        (λ e. steps_in (view value.now) ≡ Err e) }
{
    let steps = value.get("query").ok_or(DocFault::Shape)?;
    let steps = steps.as_array().ok_or(DocFault::Shape)?;
    if steps.len() > MOST_STEPS {
        return Err(DocFault::Shape);
    }
    Ok(steps)
}

/// A new query on which the settings were called.
fn new_query(alloc: Global, settings: Settings) -> Query<Formula>
    ensures { result ≡ new_query settings }
{
    let mut query = Query::new(alloc);
    if let Some(workers) = settings.workers {
        query = query.with_degree(workers.number()).unwrap();
    }
    if let Some(option) = settings.merge {
        query = query.with_merge(option).unwrap();
    }
    query
}
