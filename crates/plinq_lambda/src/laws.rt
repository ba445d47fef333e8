//! Laws of the definitions, each the contract of a function with nothing to do.
ghost use Rattle.std.specs.Prelude.{◌≡◌, ℕ, ℤ, List, Option, Some};
ghost use Rattle.plinq_lambda.specs.declared.formula.Formula.{Formula};
ghost use Rattle.plinq_lambda.specs.FormulaWords.{formula_name, formula_number, formula_named};

/// A formula is found by its number and its name, and by no other.
pub fn a_formula_is_found_by_its_words()
    ensures found { (f : Formula) → formula_named (formula_number f) (formula_name f) ≡ Some f }
    ensures alone { (number : Option ℤ) (word : List ℕ) (f : Formula) →
        formula_named number word ≡ Some f → (word ≡ formula_name f) × (number ≡ formula_number f) }
{}
