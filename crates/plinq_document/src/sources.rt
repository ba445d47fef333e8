ghost use Rattle.std.specs.Prelude.{◌≡◌, MatchResult, IfOk};
ghost use Rattle.serde_json.specs.View.{view};
ghost use Rattle.plinq_document.specs.Results.{IfMeant};
ghost use Rattle.plinq_document.specs.Sources.{source_in, source_of, concat_or_plain, concat_pair};

use crate::any_source::AnySource;
use crate::concats::{concat_of, concat_pair};
use crate::doc_fault::DocFault;
use crate::plain_sources::plain_source_of;
use crate::version::Version;
use plinq_source::Source;
use serde_json::Value;
use std::alloc::Global;

/// The source of a document of this version.
pub(crate) fn source_in(
    alloc: Global,
    version: Version,
    document: &Value,
) -> Result<AnySource, DocFault>
    ensures whole { MatchResult result
        (λ s. source_in version (view document.now) ≡ Ok (⟦<AnySource as Source>⟧.whole s))
        (IfMeant (source_in version (view document.now))) }
    ensures fresh { IfOk result (λ s. ⟦<AnySource as Source>⟧.given s ≡ 0) }
{
    source_of(
        alloc,
        version,
        document.get("source").ok_or(DocFault::Shape)?,
    )
}

/// The source that a value describes in this version.
fn source_of(alloc: Global, version: Version, value: &Value) -> Result<AnySource, DocFault>
    ensures whole { MatchResult result
        (λ s. source_of version (view value.now) ≡ Ok (⟦<AnySource as Source>⟧.whole s))
        (IfMeant (source_of version (view value.now))) }
    ensures fresh { IfOk result (λ s. ⟦<AnySource as Source>⟧.given s ≡ 0) }
{
    match version {
        Version::One => Ok(AnySource::Plain(plain_source_of(alloc, value)?)),
        Version::Two => concat_or_plain(alloc, value),
    }
}

fn concat_or_plain(alloc: Global, value: &Value) -> Result<AnySource, DocFault>
    ensures whole { MatchResult result
        (λ s. concat_or_plain (view value.now) (concat_pair (view value.now)) ≡ Ok (⟦<AnySource as Source>⟧.whole s))
        (IfMeant (concat_or_plain (view value.now) (concat_pair (view value.now)))) }
    ensures fresh { IfOk result (λ s. ⟦<AnySource as Source>⟧.given s ≡ 0) }
{
    match concat_pair(value) {
        Some((first, second)) => concat_of(alloc, first, second),
        None => Ok(AnySource::Plain(plain_source_of(alloc, value)?)),
    }
}
