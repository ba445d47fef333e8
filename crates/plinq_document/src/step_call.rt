ghost use Rattle.std.specs.Prelude.{◌≡◌, ◌≢◌, MatchResult};
ghost use Rattle.serde_json.specs.View.{view, items_view};
ghost use Rattle.plinq_ops.specs.declared.build_fault.BuildFault.TheVariants.{Memory};
ghost use Rattle.plinq_document.specs.Steps.{argument_of, op_from, other_call_from, call_alone, call_named, since, has_formula, has_step, call_of, call_result};

use crate::formulas::{formula_of, formula_since};
use crate::other_step::{OtherStep, other_step_named};
use crate::values::{only_count, only_item, only_whole_number};
use crate::version::Version;
use plinq_lambda::Formula;
use plinq_ops::{Argument, Built, MergeOption, Op, Query};
use serde_json::Value;

/// The builder call that a step stands for.
#[derive(Clone, Copy, Debug, PartialEq, Eq)]
pub enum StepCall {
    /// `as_ordered`.
    AsOrdered,
    /// The call that adds this operator.
    Operator(Op<Formula>),
    /// `with_merge` with an option.
    WithMerge(MergeOption),
    /// `with_degree` with a number that may be no degree.
    WithDegree(u64),
}

impl StepCall {
    /// The query with this call, or the query unchanged and why it refuses.
    pub(crate) fn on(self, query: Query<Formula>) -> Built<Formula>
        ensures { MatchResult result (λ new. call_result query self ≡ Ok new)
            (λ refused. refused.1 ≢ Memory → call_result query self ≡ Err refused) }
    {
        match self {
            StepCall::AsOrdered => query.as_ordered(),
            StepCall::Operator(op) => query.with_op(op),
            StepCall::WithMerge(option) => query.with_merge(option),
            StepCall::WithDegree(n) => query.with_degree(n),
        }
    }
}

/// The call of a step, if this version has the step.
pub(crate) fn call_of(version: Version, step: &Value) -> Option<StepCall>
    ensures { result ≡ call_of version (view step.now) }
{
    let (name, items) = step.as_array()?.split_first()?;
    let call = call_named(name.as_str()?, items)?;
    if has_step(version, call) {
        Some(call)
    } else {
        None
    }
}

/// The call of a step with this name and these items after it.
fn call_named(name: &str, items: &[Value]) -> Option<StepCall>
    ensures { result ≡ call_named (items_view items.now) name.now }
{
    match op_from(name, items) {
        Some(op) => Some(StepCall::Operator(op)),
        None => other_call_from(name, items),
    }
}

/// The operator of this name with these items after it.
fn op_from(name: &str, items: &[Value]) -> Option<Op<Formula>>
    ensures { result ≡ op_from name.now (items_view items.now) }
{
    Op::named(name, argument_of(items)?)
}

/// What stands after a step's name, if an operator can have it.
fn argument_of(items: &[Value]) -> Option<Argument>
    ensures { result ≡ argument_of (items_view items.now) }
{
    match items.split_first() {
        None => Some(Argument::Nothing),
        Some(_) => match only_whole_number(items) {
            Some(n) => Some(Argument::Number(n)),
            None => formula_of(items).map(Argument::Formula),
        },
    }
}

/// Whether a version has a step.
fn has_step(version: Version, call: StepCall) -> bool
    ensures { result ≡ has_step version call }
{
    match call {
        StepCall::AsOrdered | StepCall::WithMerge(_) | StepCall::WithDegree(_) => true,
        StepCall::Operator(op) => version.has(since(op)) && has_formula(version, op),
    }
}

/// Whether a version has an operator's formula, if the operator has one.
fn has_formula(version: Version, op: Op<Formula>) -> bool
    ensures { result ≡ has_formula version op }
{
    match op {
        Op::Select(f) | Op::Filter(f) | Op::SelectMany(f) | Op::TakeWhile(f) | Op::SkipWhile(f) => {
            version.has(formula_since(f))
        }
        Op::Take(_) | Op::Skip(_) | Op::AsUnordered => true,
    }
}

/// The version with which an operator came.
fn since(op: Op<Formula>) -> Version
    ensures { result ≡ since op }
{
    match op {
        Op::Select(_) | Op::Filter(_) | Op::SelectMany(_) | Op::TakeWhile(_) => Version::One,
        Op::Take(_) | Op::Skip(_) | Op::AsUnordered => Version::One,
        Op::SkipWhile(_) => Version::Two,
    }
}

/// The call of another step, by its name and the items after that.
fn other_call_from(name: &str, items: &[Value]) -> Option<StepCall>
    ensures { result ≡ other_call_from name.now (items_view items.now) }
{
    match other_step_named(name)? {
        OtherStep::AsOrdered => call_alone(StepCall::AsOrdered, items),
        OtherStep::WithMerge => {
            let word = only_item(items)?.as_str()?;
            Some(StepCall::WithMerge(MergeOption::named(word)?))
        }
        OtherStep::WithDegree => Some(StepCall::WithDegree(only_count(items)?)),
    }
}

fn call_alone(call: StepCall, items: &[Value]) -> Option<StepCall>
    ensures { result ≡ call_alone call (items_view items.now) }
{
    match items.split_first() {
        None => Some(call),
        Some(_) => None,
    }
}
