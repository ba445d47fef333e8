//! The run of a query's steps on the caller's thread.
ghost use Rattle.std.specs.Prelude.{◌≡◌, [], Some, MatchResult};
ghost use Rattle.std.specs.List.{filter_map, cons_option};
ghost use Rattle.plinq_closures.specs.inner.Only.{answer_in};
ghost use Rattle.plinq_merge.specs.Sending.{Leads, RefusesNext, TakesEach};
ghost use Rattle.plinq_passing.specs.Ran.{told_alone};

use crate::made::Made;
use crate::query_fault::QueryFault;
use crate::visits::Visits;
use plinq_run::RunFault;
use plinq_source::{Ending, Source, Step};
use plinq_steps::Steps;

/// Passes on what is made of an item, if anything is.
#[inline(always)]
fn visit_made<S, V>(made: &Made<'_, S>, x: S::From, by: &mut V::Called) -> Result<(), u32>
where
    S: Steps,
    V: Visits<Item = S::To>,
    requires { V.is_called }
    ensures { TakesEach V.takes V.refuses by.old (cons_option (answer_in (made.now.one x)) []) result by.new }
{
    match made.step_of(x) {
        Some(y) => V::visit(by, y),
        None => Ok(()),
    }
}

/// Passes on what is made of a source's items, one by one, and returns how the source ended. No item after the one that is refused
/// is asked for.
///
/// # Errors
///
/// The code with which one was refused.
pub(crate) fn visit_alone<Src, S, V>(
    source: Src,
    made: &Made<'_, S>,
    by: &mut V::Called,
) -> Result<Ending, u32>
where
    S: Steps,
    Src: Source<Item = S::From>,
    V: Visits<Item = S::To>,
    requires fresh { Src.given source ≡ 0 }
    requires may_call { V.is_called }
    ensures { MatchResult result
        (λ e. (Leads V.takes by.old (filter_map (λ x. answer_in (made.now.one x)) (Src.whole source).items) by.new)
        × ((Src.whole source).ending ≡ Some e))
        (λ code. RefusesNext V.takes V.refuses by.old (filter_map (λ x. answer_in (made.now.one x)) (Src.whole source).items) code by.new) }
{
    let mut source = source;
    loop {
        match source.next() {
            Step::Item(x) => visit_made::<S, V>(made, x, by)?,
            Step::End => return Ok(Ending::End),
            Step::Refused(code) => return Ok(Ending::Refused(code)),
        }
    }
}

/// How a run on the caller's thread ended, as the query's own.
pub(crate) fn told_alone(outcome: Result<Ending, u32>) -> Result<(), QueryFault>
    ensures { result ≡ told_alone outcome }
{
    match outcome {
        Ok(Ending::End) => Ok(()),
        Ok(Ending::Refused(code)) => Err(QueryFault::Ended(Ending::Refused(code))),
        Ok(Ending::Fault(code)) => Err(QueryFault::Ended(Ending::Fault(code))),
        Err(code) => Err(QueryFault::Run(RunFault::Sink(code))),
    }
}
