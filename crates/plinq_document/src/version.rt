ghost use Rattle.std.specs.Prelude.{◌≡◌};
ghost use Rattle.serde_json.specs.View.{view};
ghost use Rattle.plinq_document.specs.Versions.{version_in, version_numbered, has};

use crate::doc_fault::DocFault;
use serde_json::Value;

/// The version of a document, which says what steps and sources it may have.
#[derive(Clone, Copy, Debug, PartialEq, Eq)]
pub enum Version {
    /// The first, of the number 1.
    One,
    /// The second, of the number 2: it has all that the first has.
    Two,
}

impl Version {
    /// Whether it has what came with another version.
    pub(crate) fn has(self, came: Version) -> bool
        ensures { result ≡ has self came }
    {
        match (self, came) {
            (Version::One, Version::Two) => false,
            (_, _) => true,
        }
    }
}

/// The version that a document names.
pub(crate) fn version_in(document: &Value) -> Result<Version, DocFault>
    ensures { result ≡ version_in (view document.now) }
{
    let version = document.get("version").ok_or(DocFault::Shape)?;
    version_numbered(version.as_i64().ok_or(DocFault::Shape)?)
}

/// The version of this number.
fn version_numbered(number: i64) -> Result<Version, DocFault>
    ensures { result ≡ version_numbered number }
{
    match number {
        1 => Ok(Version::One),
        2 => Ok(Version::Two),
        _ => Err(DocFault::Version),
    }
}
