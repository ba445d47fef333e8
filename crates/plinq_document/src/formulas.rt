ghost use Rattle.std.specs.Prelude.{◌≡◌};
ghost use Rattle.serde_json.specs.View.{items_view};
ghost use Rattle.plinq_document.specs.Formulas.{formula_of, formula_since};

use crate::values::only_whole_number;
use crate::version::Version;
use plinq_lambda::Formula;
use serde_json::Value;

/// The formula of a step's items after its name.
pub(crate) fn formula_of(items: &[Value]) -> Option<Formula>
    ensures { result ≡ formula_of (items_view items.now) }
{
    let (word, numbers) = items.split_first()?;
    let word = word.as_str()?;
    match numbers.split_first() {
        None => Formula::named(word, None),
        Some(_) => Formula::named(word, Some(only_whole_number(numbers)?)),
    }
}

/// The version with which a formula came.
pub(crate) fn formula_since(formula: Formula) -> Version
    ensures { result ≡ formula_since formula }
{
    match formula {
        Formula::Add(_) | Formula::Mul(_) | Formula::Mod(_) | Formula::Into(_) => Version::One,
        Formula::Below(_) | Formula::Above(_) | Formula::Equal(_) | Formula::Even => Version::One,
        Formula::Repeat(_) | Formula::UpTo => Version::One,
    }
}
