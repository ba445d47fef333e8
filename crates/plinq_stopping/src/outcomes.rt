//! What is reported of a run with its token.
ghost use Rattle.std.specs.Prelude.{◌≡◌};
ghost use Rattle.plinq_merge.specs.Lent.{AreSame};
ghost use Rattle.plinq_stopping.specs.inner.Reported.{AsksAtLast, value_ended, value_reported};

use plinq_aggregate::GrowingAggregator;
use plinq_merge::{Cancel, WithCancellation};
use plinq_run::{AggregateFault, RunFault};
use plinq_source::Ending;

/// How a run with this outcome ended: before an ending its token is asked once more.
pub(crate) fn ending_of<C: Cancel, K>(
    with: &mut WithCancellation<'_, C, K>,
    outcome: Result<Ending, RunFault>,
) -> Result<Ending, RunFault>
    ensures same { AreSame with.old with.new }
    ensures asked { AsksAtLast C.asks with.old.is_stopped outcome with.old result with.new }
{
    if with.is_stopped {
        return Err(RunFault::Cancelled);
    }
    let ending = outcome?;
    if with.stops() {
        return Err(RunFault::Cancelled);
    }
    Ok(ending)
}

/// The value of an accumulator whose answer ended so.
fn value_at<A: GrowingAggregator>(
    aggregator: &A,
    acc: A::Acc,
    ending: Ending,
) -> Result<A::Out, AggregateFault>
    ensures { result ≡ value_ended (A.folding aggregator.now) acc ending }
{
    match ending {
        Ending::End => Ok(aggregator.result(acc)),
        Ending::Refused(_) | Ending::Fault(_) => Err(AggregateFault::Ended(ending)),
    }
}

/// The value of the accumulator of a run that ended so.
pub(crate) fn value_of<A: GrowingAggregator>(
    aggregator: &A,
    acc: A::Acc,
    outcome: Result<Ending, RunFault>,
) -> Result<A::Out, AggregateFault>
    ensures { result ≡ value_reported (A.folding aggregator.now) acc outcome }
{
    match outcome {
        Ok(ending) => value_at(aggregator, acc, ending),
        Err(fault) => Err(AggregateFault::Run(fault)),
    }
}
