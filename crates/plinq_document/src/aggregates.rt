ghost use Rattle.std.specs.Prelude.{◌≡◌};
ghost use Rattle.serde_json.specs.View.{view};
ghost use Rattle.plinq_document.specs.Aggregates.{aggregate_in, aggregate_of};

use crate::doc_fault::DocFault;
use crate::kind::{Kind, kind_since, kind_word};
use crate::version::Version;
use serde_json::Value;

/// The aggregate that a document of this version asks for; none if it is omitted.
pub(crate) fn aggregate_in(version: Version, document: &Value) -> Result<Option<Kind>, DocFault>
    ensures { result ≡ aggregate_in version (view document.now) }
{
    match document.get("aggregate") {
        None => Ok(None),
        Some(word) => Ok(Some(aggregate_of(version, word)?)),
    }
}

fn aggregate_of(version: Version, word: &Value) -> Result<Kind, DocFault>
    ensures { result ≡ aggregate_of version (view word.now) }
{
    let word = word.as_str().ok_or(DocFault::Shape)?;
    let kind = kind_word(word).ok_or(DocFault::Shape)?;
    if version.has(kind_since(kind)) {
        Ok(kind)
    } else {
        Err(DocFault::Shape)
    }
}
