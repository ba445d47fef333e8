//! Laws of the definitions, each the contract of a function with nothing to do.
ghost use Rattle.std.specs.Prelude.{◌≡◌, ◌≤◌, ℕ, ℤ, length, false, Some, Ok, IfSome, option_and_then};
ghost use Rattle.serde_json.specs.Data.{Data, Items};
ghost use Rattle.plinq_source.specs.Trace.{Trace};
ghost use Rattle.plinq_lambda.specs.declared.formula.Formula.{Formula};
ghost use Rattle.plinq_ops.specs.declared.op.Op.{Op};
ghost use Rattle.plinq_ops.specs.declared.op.Op.TheVariants.{SkipWhile};
ghost use Rattle.plinq_document.specs.declared.version.Version.TheVariants.{One, Two};
ghost use Rattle.plinq_document.specs.declared.step_call.StepCall.{StepCall};
ghost use Rattle.plinq_document.specs.declared.step_call.StepCall.TheVariants.{Operator};
ghost use Rattle.plinq_document.specs.Sources.{plain_source_of, bound_of};
ghost use Rattle.plinq_document.specs.Formulas.{formula_of};
ghost use Rattle.plinq_document.specs.Steps.{call_from, has_step, only_of};
ghost use Rattle.plinq_document.specs.Printed.{FormulaItems, OpItems, op_of_call};

/// Each source that may stand in a concatenation has a bound, and no more items than that. So a concatenation of two is
/// too large only if their bounds add up to too much.
pub fn a_source_keeps_to_its_bound()
    ensures { (d : Data) (t : Trace ℤ) → plain_source_of d ≡ Ok t →
        (m : ℕ) × ((bound_of d ≡ Some m) × (length t.items ≤ m)) }
{}

/// The words by which a plan prints a formula, and no others, are read as that formula.
pub fn a_formulas_words_are_read()
    ensures read { (f : Formula) (ds : Items) → FormulaItems f ds → formula_of ds ≡ Some f }
    ensures alone { (f : Formula) (ds : Items) → formula_of ds ≡ Some f → FormulaItems f ds }
{}

/// The words by which a plan prints an operator, and no others, are read by version 2 as the call that adds it. Version 1
/// reads the same, but for the steps that it doesn't have, as SkipWhile.
pub fn an_operators_words_are_read()
    ensures read { (op : Op Formula) (ds : Items) → OpItems op ds → call_from Two ds ≡ Some (Operator op) }
    ensures alone { (ds : Items) (c : StepCall) → call_from Two ds ≡ Some c → IfSome (op_of_call c) (λ op. OpItems op ds) }
    ensures first { (ds : Items) → call_from One ds ≡ option_and_then (only_of One) (call_from Two ds) }
    ensures later { (f : Formula) → has_step One (Operator (SkipWhile f)) ≡ false }
{}
