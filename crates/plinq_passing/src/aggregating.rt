//! The aggregate of what steps make of a source's items.
ghost use Rattle.std.specs.Prelude.{◌≡◌, Option, false, Some, Err, MatchResult, true};
ghost use Rattle.std.specs.List.{filter_map};
ghost use Rattle.plinq_source.specs.declared.ending.Ending.TheVariants.{End};
ghost use Rattle.plinq_aggregate.specs.Folding.{aggregate_value};
ghost use Rattle.plinq_ops.specs.Query.{is_degree};
ghost use Rattle.plinq_passing.specs.declared.query_fault.QueryFault.TheVariants.{Degree, Growth as GrowthRefused};
ghost use Rattle.plinq_passing.specs.Told.{AskedFor, CantGrow, HasNone, HasNoneAlone};
ghost use Rattle.plinq_stopping.specs.Asking.{WasLetBy, WasStoppedBy};
ghost use Rattle.plinq_enumerator.specs.declared.growth_fault.GrowthFault.{GrowthFault};

use crate::by_threads::ByThreads;
use crate::made::Made;
use crate::plain::Plain;
use crate::planning::{aggregate_alone, aggregate_of, growth_of, plan_of, told_of};
use crate::query_fault::QueryFault;
use plinq_aggregate::GrowingAggregator;
use plinq_groups::FoldEach;
use plinq_merge::Cancel;
use plinq_source::Source;
use plinq_steps::Steps;
use std::alloc::Global;
use std::sync::Wait;
use std::thread::Threads;
use std::time::Clock;

/// What an aggregator makes of what steps make, by threads, which fold it.
pub fn aggregate_steps<Src, S, A, C, R>(
    source: Src,
    steps: S,
    settings: ByThreads<C>,
    rt: &R,
    alloc: Global,
    aggregator: A,
) -> Result<A::Out, QueryFault>
where
    S: Steps<From: Send + Sync, To: Send + Sync> + Sync + Drop,
    Src: Source<Item = S::From>,
    A: GrowingAggregator<Item = S::To>,
    A::Out: Drop,
    C: Cancel + Drop,
    R: Clock + Threads + Wait + Sync,
    requires fresh { Src.given source ≡ 0 }
    requires is_called { S.is_called steps }
    requires in_one_way { S.in_one_way steps }
    requires gives { S.gives steps }
    requires gives_one { S.gives_one steps }
    ensures degree { is_degree settings.degree ≡ false → result ≡ Err Degree }
    ensures asked { AskedFor (WasLetBy C.asks settings.token) result }
    ensures growth { (fault : GrowthFault) → is_degree settings.degree ≡ true → CantGrow settings.growth fault → result ≡ Err (GrowthRefused fault) }
    ensures value { (f : S.From → Option S.To) → ((x : S.From) → S.makes steps x (f x)) → MatchResult result
        (λ out. (out ≡ aggregate_value (A.folding aggregator) (filter_map f (Src.whole source).items))
        × ((Src.whole source).ending ≡ Some End))
        (HasNone (WasStoppedBy C.asks settings.token) settings.degree settings.growth (Src.whole source)) }
{
    let ByThreads {
        degree,
        growth,
        token,
        ..
    } = settings;
    let mut token = token;
    let plan = plan_of::<Plain<S::From>>(alloc, degree)?;
    let growth = growth_of(growth)?;
    let folds = FoldEach {
        make: Made::of(&steps),
        each: aggregator,
    };
    told_of(aggregate_of(rt, alloc, &plan, source, growth, &mut token, &folds))
}

/// The same on the caller's thread.
pub fn aggregate_steps_alone<Src, S, A>(
    source: Src,
    steps: S,
    alloc: Global,
    aggregator: A,
) -> Result<A::Out, QueryFault>
where
    S: Steps<To: Send + Sync> + Sync + Drop,
    Src: Source<Item = S::From>,
    A: GrowingAggregator<Item = S::To>,
    A::Out: Drop,
    requires fresh { Src.given source ≡ 0 }
    requires is_called { S.is_called steps }
    requires in_one_way { S.in_one_way steps }
    requires gives { S.gives steps }
    requires gives_one { S.gives_one steps }
    ensures value { (f : S.From → Option S.To) → ((x : S.From) → S.makes steps x (f x)) → MatchResult result
        (λ out. (out ≡ aggregate_value (A.folding aggregator) (filter_map f (Src.whole source).items))
        × ((Src.whole source).ending ≡ Some End))
        (HasNoneAlone (Src.whole source)) }
{
    let folds = FoldEach {
        make: Made::of(&steps),
        each: aggregator,
    };
    told_of(aggregate_alone::<Plain<S::From>, _, _>(alloc, source, &folds))
}
