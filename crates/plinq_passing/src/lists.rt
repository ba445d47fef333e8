//! A list of all that came one by one, and how it ended.
ghost use Rattle.std.specs.Prelude.{◌≡◌, Ok, Err, MatchResult, Some, []};
ghost use Rattle.plinq_passing.specs.Listed.{listed};

use crate::folds::Folded;
use crate::query_fault::QueryFault;
use plinq_aggregate::GrowingAggregator;
use plinq_groups::Collect;
use plinq_run::RunFault;
use plinq_source::Ending;
use std::alloc::Global;

/// An empty list, and how items are added to it.
pub fn empty_list<T: Copy + Send + Sync>(alloc: Global) -> Folded<Collect<T>>
    ensures { result.acc ≡ Some [] }
{
    let by = Collect::new();
    let items = by.seed(alloc);
    Folded {
        alloc,
        by,
        acc: Some(items),
    }
}

/// The list of what came, and how it ended, if all came.
pub fn told_list<T: Copy + Send + Sync>(
    folded: Folded<Collect<T>>,
    outcome: Result<(), QueryFault>,
) -> Result<(Vec<T>, Ending), QueryFault>
    ensures { MatchResult result (λ it. listed outcome folded.acc ≡ Ok (it.0.items, it.1)) (λ fault. listed outcome folded.acc ≡ Err fault) }
{
    let Folded { acc, .. } = folded;
    let ending = match outcome {
        Ok(()) => Ending::End,
        Err(QueryFault::Ended(ending)) => ending,
        Err(QueryFault::Run(RunFault::Sink(_))) => return Err(QueryFault::Run(RunFault::Memory)),
        Err(fault) => return Err(fault),
    };
    match acc {
        Some(items) => Ok((items.into_vec(), ending)),
        None => Err(QueryFault::Run(RunFault::Memory)),
    }
}
