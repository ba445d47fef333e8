ghost use Rattle.std.specs.Prelude.{◌≡◌};
ghost use Rattle.plinq_document.specs.Aggregates.{kind_since, kind_word};

use crate::version::Version;

/// What is reported of an answer's items in their place.
#[derive(Clone, Copy, Debug, PartialEq, Eq)]
pub enum Kind {
    /// The sum.
    Sum,
    /// How many there are.
    Count,
    /// The least.
    Min,
    /// The greatest.
    Max,
}

/// The aggregate of this word, if there is one.
pub(crate) fn kind_word(word: &str) -> Option<Kind>
    ensures { result ≡ kind_word word.now }
{
    match word {
        "sum" => Some(Kind::Sum),
        "count" => Some(Kind::Count),
        "min" => Some(Kind::Min),
        "max" => Some(Kind::Max),
        _ => None,
    }
}

/// The version with which an aggregate came.
pub(crate) fn kind_since(kind: Kind) -> Version
    ensures { result ≡ kind_since kind }
{
    match kind {
        Kind::Sum | Kind::Count | Kind::Min | Kind::Max => Version::One,
    }
}
