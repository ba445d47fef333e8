ghost use Rattle.std.specs.Prelude.{◌≡◌, ⊤};
ghost use Rattle.plinq_passing.specs.Passing.{FoldsOne, told_folded};

use crate::query_fault::QueryFault;
use crate::visits::Visits;
use plinq_aggregate::GrowingAggregator;
use plinq_run::RunFault;
use std::alloc::Global;
use std::marker::PhantomData;

/// An aggregator, and its accumulator of what came so far; none once memory ran out.
#[derive(Drop)]
pub struct Folded<A: GrowingAggregator> {
    pub alloc: Global,
    pub by: A,
    pub acc: Option<A::Acc>,
}

/// How it is given items one by one.
pub struct Folds<A>(PhantomData<A>);

impl<A: GrowingAggregator> Visits for Folds<A> {
    type Called = Folded<A>;

    type Item = A::Item;

    ghost is_called = { ⊤ };

    ghost takes = { λ s x t. (t.by ≡ s.by) × FoldsOne (A.folding s.by) s.acc x t.acc };

    ghost refuses = { λ _ _ _ _. ⊤ };

    #[inline(always)]
    fn visit(called: &mut Folded<A>, item: A::Item) -> Result<(), u32> {
        let Some(acc) = called.acc.take() else {
            return Err(1);
        };
        match called.by.update(called.alloc, acc, item) {
            Ok(after) => {
                called.acc = Some(after);
                Ok(())
            }
            Err(_) => Err(1),
        }
    }
}

/// The value of what came, if all came.
pub fn told_folded<A: GrowingAggregator>(
    folded: Folded<A>,
    outcome: Result<(), QueryFault>,
) -> Result<A::Out, QueryFault>
    ensures { result ≡ told_folded (A.folding folded.by) outcome folded.acc }
{
    let Folded { by, acc, .. } = folded;
    match outcome {
        Ok(()) => match acc {
            Some(acc) => Ok(by.result(acc)),
            None => Err(QueryFault::Run(RunFault::Memory)),
        },
        Err(QueryFault::Run(RunFault::Sink(_))) => Err(QueryFault::Run(RunFault::Memory)),
        Err(fault) => Err(fault),
    }
}
