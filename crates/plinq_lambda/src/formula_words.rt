ghost use Rattle.std.specs.Prelude.{◌≡◌};
ghost use Rattle.plinq_lambda.specs.FormulaWords.{formula_name, formula_number, formula_named};

use crate::formula::Formula;
use plinq_words::{Named, first_named};

impl Named for Formula {
    ghost its_name = { formula_name };

    fn name(&self) -> &'static str {
        match self {
            Formula::Add(_) => "add",
            Formula::Mul(_) => "mul",
            Formula::Mod(_) => "mod",
            Formula::Into(_) => "into",
            Formula::Below(_) => "below",
            Formula::Above(_) => "above",
            Formula::Equal(_) => "equal",
            Formula::Even => "even",
            Formula::Repeat(_) => "repeat",
            Formula::UpTo => "up_to",
        }
    }
}

impl Formula {
    /// The number after its name, if it has one.
    pub fn number(self) -> Option<i64>
        ensures { result ≡ formula_number self }
    {
        match self {
            Formula::Add(c)
            | Formula::Mul(c)
            | Formula::Mod(c)
            | Formula::Into(c)
            | Formula::Below(c)
            | Formula::Above(c)
            | Formula::Equal(c)
            | Formula::Repeat(c) => Some(c),
            Formula::Even | Formula::UpTo => None,
        }
    }

    /// The formula of this name, with this number after it or none. Takes no memory.
    ///
    /// ```text
    /// Formula::named("add", Some(1))   // Some(Formula::Add(1))
    /// Formula::named("add", None)      // None
    /// ```
    pub fn named(name: &str, number: Option<i64>) -> Option<Formula>
        ensures { result ≡ formula_named number name.now }
    {
        match number {
            None => first_named(&[Formula::Even, Formula::UpTo], name),
            Some(c) => first_named(
                &[
                    Formula::Add(c),
                    Formula::Mul(c),
                    Formula::Mod(c),
                    Formula::Into(c),
                    Formula::Below(c),
                    Formula::Above(c),
                    Formula::Equal(c),
                    Formula::Repeat(c),
                ],
                name,
            ),
        }
    }
}
