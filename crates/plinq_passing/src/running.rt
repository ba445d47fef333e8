//! The run of a query's steps into a sink, and what comes of a search.
ghost use Rattle.std.specs.Prelude.{◌≡◌, [], true, false, Option, Some, Err, IfErr, IfOk};
ghost use Rattle.plinq_ops.specs.Batches.{batches};
ghost use Rattle.plinq_ops.specs.Query.{is_degree, merge_in_force};
ghost use Rattle.plinq_stopping.specs.Asking.{WasLetBy, WasStoppedBy};
ghost use Rattle.plinq_stopping.specs.Outcomes.{RunsMadeOfWith};
ghost use Rattle.plinq_passing.specs.declared.query_fault.QueryFault.TheVariants.{Degree, Growth as GrowthRefused};
ghost use Rattle.plinq_passing.specs.Ran.{Ran, steps_made, told_ran, told_first, told_found, told_not};
ghost use Rattle.plinq_passing.specs.Told.{AskedFor, CantGrow};
ghost use Rattle.plinq_enumerator.specs.declared.growth_fault.GrowthFault.{GrowthFault};

use crate::by_threads::ByThreads;
use crate::made::Made;
use crate::plain::Plain;
use crate::planning::{growth_of, plan_of};
use crate::query_fault::QueryFault;
use plinq_enumerator::Growth;
use plinq_groups::{MakeOf, MapEach};
use plinq_lambda::SharedLambda;
use plinq_merge::{Cancel, Sink};
use plinq_ops::{MergeOption, Query};
use plinq_run::{OpenGate, RunFault, TimedGate};
use plinq_source::{Ending, Source};
use plinq_steps::Steps;
use plinq_stopping::run_mapped_with;
use std::alloc::Global;
use std::sync::Wait;
use std::thread::Threads;
use std::time::Clock;

/// A plan without an operator, by this many workers, whose items are delivered so.
fn delivering_plan_of<L: Drop>(
    alloc: Global,
    degree: u64,
    option: MergeOption,
) -> Result<Query<L>, QueryFault>
    ensures degree { is_degree degree ≡ false → result ≡ Err Degree }
    ensures refused { IfErr result (λ fault. (fault ≡ Degree) × (is_degree degree ≡ false)) }
    ensures planned { IfOk result (λ plan. (plan.ops ≡ []) × (plan.ordered ≡ true) × (plan.merge ≡ Some option)) }
{
    match plan_of::<L>(alloc, degree)?.with_merge(option) {
        Ok(plan) => Ok(plan),
        Err(_) => Err(QueryFault::Degree),
    }
}

/// Delivers what is made of the source's items, by chunks that grow so, else by how long they take.
fn run_of<L, S, M, K, C, R>(
    rt: &R,
    alloc: Global,
    plan: &Query<L>,
    source: S,
    growth: Option<Growth>,
    mapping: &MapEach<M>,
    token: &mut C,
    sink: &mut K,
) -> Result<Ending, RunFault>
where
    L: SharedLambda,
    S: Source<Item = L::Item>,
    M: MakeOf<Item = L::Item>,
    K: Sink<Item = M::Made>,
    C: Cancel + Drop,
    R: Clock + Threads + Wait + Sync,
    requires fresh { S.given source ≡ 0 }
    requires planned { (plan.now.ops ≡ []) × (plan.now.ordered ≡ true) }
    ensures { RunsMadeOfWith C.asks K.accepts K.refuses (merge_in_force plan.now.merge) (M.makes mapping.now.make) (λ u. u ≡ S.whole source)
        token.old sink.old result token.new sink.new }
{
    match growth {
        Some(growth) => run_mapped_with(
            rt, alloc, plan, source, growth, &OpenGate, mapping, token, sink,
        ),
        None => run_mapped_with(
            rt,
            alloc,
            plan,
            source,
            Growth::DEFAULT,
            &TimedGate::new(rt),
            mapping,
            token,
            sink,
        ),
    }
}

/// How a run ended, as the query's own.
fn told_ran(outcome: Result<Ending, RunFault>) -> Result<(), QueryFault>
    ensures { result ≡ told_ran outcome }
{
    match outcome {
        Ok(Ending::End) => Ok(()),
        Ok(Ending::Refused(code)) => Err(QueryFault::Ended(Ending::Refused(code))),
        Ok(Ending::Fault(code)) => Err(QueryFault::Ended(Ending::Fault(code))),
        Err(fault) => Err(QueryFault::Run(fault)),
    }
}

/// Delivers what steps make of a source's items to a sink, in their order, by threads.
pub fn run_steps_into<Src, S, K, C, R>(
    source: Src,
    steps: S,
    settings: ByThreads<C>,
    rt: &R,
    alloc: Global,
    sink: &mut K,
) -> Result<(), QueryFault>
where
    S: Steps<From: Send + Sync, To: Send + Sync> + Sync + Drop,
    Src: Source<Item = S::From>,
    K: Sink<Item = S::To>,
    C: Cancel + Drop,
    R: Clock + Threads + Wait + Sync,
    requires fresh { Src.given source ≡ 0 }
    requires is_called { S.is_called steps }
    requires in_one_way { S.in_one_way steps }
    requires gives { S.gives steps }
    requires gives_one { S.gives_one steps }
    ensures degree { is_degree settings.degree ≡ false → result ≡ Err Degree }
    ensures asked { AskedFor (WasLetBy C.asks settings.token) result }
    ensures growth { (fault : GrowthFault) → is_degree settings.degree ≡ true → CantGrow settings.growth fault → result ≡ Err (GrowthRefused fault) }
    ensures ran { (f : S.From → Option S.To) → ((x : S.From) → S.makes steps x (f x))
        → Ran K.accepts K.refuses (WasStoppedBy C.asks settings.token) settings.degree
        settings.growth (batches settings.merge (steps_made f (Src.whole source))) (Src.whole source).ending sink.old result sink.new }
{
    let ByThreads {
        degree,
        growth,
        merge,
        token,
    } = settings;
    let mut token = token;
    let plan = delivering_plan_of::<Plain<S::From>>(alloc, degree, merge)?;
    let growth = growth_of(growth)?;
    let mapping = MapEach {
        make: Made::of(&steps),
    };
    told_ran(run_of(rt, alloc, &plan, source, growth, &mapping, &mut token, sink))
}

/// What came first to a sink that refuses once it has come.
pub fn told_first<T: Copy>(
    item: Option<T>,
    outcome: Result<(), QueryFault>,
) -> Result<Option<T>, QueryFault>
    ensures { result ≡ told_first item outcome }
{
    match outcome {
        Ok(()) => Ok(None),
        Err(QueryFault::Run(RunFault::Sink(_))) => Ok(item),
        Err(fault) => Err(fault),
    }
}

/// Whether something was found.
pub fn told_found<T: Copy>(found: Result<Option<T>, QueryFault>) -> Result<bool, QueryFault>
    ensures { result ≡ told_found found }
{
    match found {
        Ok(item) => Ok(item.is_some()),
        Err(fault) => Err(fault),
    }
}

/// Whether nothing was.
pub fn told_not(found: Result<bool, QueryFault>) -> Result<bool, QueryFault>
    ensures { result ≡ told_not found }
{
    match found {
        Ok(is) => Ok(!is),
        Err(fault) => Err(fault),
    }
}
