//! The value of an aggregate.
ghost use Rattle.std.specs.Prelude.{◌≡◌};
ghost use Rattle.plinq_run.specs.inner.Valuing.{value_at, value_of};

use crate::aggregate_fault::AggregateFault;
use crate::run_fault::RunFault;
use plinq_aggregate::GrowingAggregator;
use plinq_source::Ending;

/// What is reported of an accumulator whose items' answer ended so.
fn value_at<A: GrowingAggregator>(
    aggregator: &A,
    acc: A::Acc,
    ending: Ending,
) -> Result<A::Out, AggregateFault>
    ensures { result ≡ value_at (A.folding aggregator.now) acc ending }
{
    match ending {
        Ending::End => Ok(aggregator.result(acc)),
        Ending::Refused(_) | Ending::Fault(_) => Err(AggregateFault::Ended(ending)),
    }
}

/// What is reported of an accumulator of a run with this outcome.
pub(crate) fn value_of<A: GrowingAggregator>(
    aggregator: &A,
    acc: A::Acc,
    outcome: Result<Ending, RunFault>,
) -> Result<A::Out, AggregateFault>
    ensures { result ≡ value_of (A.folding aggregator.now) acc outcome }
{
    match outcome {
        Ok(ending) => value_at(aggregator, acc, ending),
        Err(fault) => Err(AggregateFault::Run(fault)),
    }
}
