ghost use Rattle.std.specs.Prelude.{◌≡◌};
ghost use Rattle.plinq_document.specs.Steps.{other_step_named};

/// A step that adds no operator, by its name.
#[derive(Clone, Copy, Debug, PartialEq, Eq)]
pub(crate) enum OtherStep {
    AsOrdered,
    WithMerge,
    WithDegree,
}

/// The other step of this name, if there is one.
pub(crate) fn other_step_named(word: &str) -> Option<OtherStep>
    ensures { result ≡ other_step_named word.now }
{
    match word {
        "as_ordered" => Some(OtherStep::AsOrdered),
        "with_merge" => Some(OtherStep::WithMerge),
        "with_degree" => Some(OtherStep::WithDegree),
        _ => None,
    }
}
