ghost use Rattle.std.specs.Prelude.{◌≡◌};
ghost use Rattle.plinq_document.specs.Sources.{source_name};

/// The name of a kind of source.
#[derive(Clone, Copy, Debug, PartialEq, Eq)]
pub(crate) enum SourceName {
    List,
    Text,
    Range,
    Repeat,
}

/// The kind of source of this name, if there is one.
pub(crate) fn source_name_of(word: &str) -> Option<SourceName>
    ensures { result ≡ source_name word.now }
{
    match word {
        "list" => Some(SourceName::List),
        "text" => Some(SourceName::Text),
        "range" => Some(SourceName::Range),
        "repeat" => Some(SourceName::Repeat),
        _ => None,
    }
}
