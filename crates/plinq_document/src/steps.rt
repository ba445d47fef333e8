ghost use Rattle.std.specs.Prelude.{◌≡◌, ◌≢◌, MatchResult};
ghost use Rattle.serde_json.specs.View.{view, items_view};
ghost use Rattle.plinq_document.specs.Steps.{with_step_of, with_steps_of};
ghost use Rattle.plinq_document.specs.Results.{IfMeant};
ghost use Rattle.plinq_ops.specs.declared.build_fault.BuildFault.TheVariants.{Memory as BuildMemory};
ghost use Rattle.plinq_document.specs.declared.doc_fault.StepFault.TheVariants.{Build};
ghost use Rattle.plinq_document.specs.declared.doc_fault.DocFault.TheVariants.{Memory, Step};

use crate::doc_fault::{DocFault, StepFault};
use crate::step_call::call_of;
use crate::version::Version;
use plinq_lambda::Formula;
use plinq_ops::{BuildFault, Query};
use serde_json::Value;

/// The query with these steps called on it in order, or the first step that is refused.
pub(crate) fn with_steps(
    version: Version,
    query: Query<Formula>,
    steps: &[Value],
) -> Result<Query<Formula>, DocFault>
    ensures { MatchResult result (λ new. with_steps_of version 0 query (items_view steps.now) ≡ Ok new)
        (IfMeant (with_steps_of version 0 query (items_view steps.now))) }
{
    let mut query = query;
    for (at, step) in steps.iter().enumerate() {
        query = match with_step(version, query, step) {
            Ok(query) => query,
            Err(why) => return Err(step_refused(at as u64, why)),
        };
    }
    Ok(query)
}

/// The query with this step called on it.
fn with_step(
    version: Version,
    query: Query<Formula>,
    step: &Value,
) -> Result<Query<Formula>, StepFault>
    ensures { MatchResult result (λ new. with_step_of version query (view step.now) ≡ Ok new)
        (λ why. why ≢ Build BuildMemory → with_step_of version query (view step.now) ≡ Err why) }
{
    match call_of(version, step) {
        None => Err(StepFault::Unknown),
        Some(call) => match call.on(query) {
            Ok(query) => Ok(query),
            Err((_, why)) => Err(StepFault::Build(why)),
        },
    }
}

/// The fault of a document whose step at this place is refused.
fn step_refused(at: u64, why: StepFault) -> DocFault
    ensures memory { why ≡ Build BuildMemory → result ≡ Memory }
    ensures other { why ≢ Build BuildMemory → result ≡ Step at why }
{
    match why {
        StepFault::Build(BuildFault::Memory) => DocFault::Memory,
        _ => DocFault::Step { at, why },
    }
}
