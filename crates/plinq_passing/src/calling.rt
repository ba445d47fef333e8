//! The calls of something with what steps make, one after another.
ghost use Rattle.std.specs.Prelude.{◌≡◌, Option, Err, IfErr, None, false, true};
ghost use Rattle.std.specs.List.{filter_map};
ghost use Rattle.plinq_collect.specs.Telling.{items_of};
ghost use Rattle.plinq_ops.specs.Batches.{batches};
ghost use Rattle.plinq_ops.specs.Query.{is_degree};
ghost use Rattle.plinq_passing.specs.declared.query_fault.QueryFault.TheVariants.{Degree, Growth as GrowthRefused};
ghost use Rattle.plinq_passing.specs.Ran.{Ran, EndedOrRefused, steps_made};
ghost use Rattle.plinq_passing.specs.Told.{AskedFor, CantGrow};
ghost use Rattle.plinq_stopping.specs.Asking.{WasLetBy, WasStoppedBy};
ghost use Rattle.plinq_enumerator.specs.declared.growth_fault.GrowthFault.{GrowthFault};

use crate::alone::{told_alone, visit_alone};
use crate::by_threads::ByThreads;
use crate::call_each::CallEach;
use crate::made::Made;
use crate::query_fault::QueryFault;
use crate::running::run_steps_into;
use crate::visits::Visits;
use plinq_merge::Cancel;
use plinq_source::Source;
use plinq_steps::Steps;
use std::alloc::Global;
use std::sync::Wait;
use std::thread::Threads;
use std::time::Clock;

/// Calls what is lent with each item that the steps make of a source's. The workers apply the steps, this thread calls.
pub fn call_by_threads<Src, S, V, C, R>(
    source: Src,
    steps: S,
    settings: ByThreads<C>,
    rt: &R,
    alloc: Global,
    by: &mut V::Called,
) -> Result<(), QueryFault>
where
    S: Steps<From: Send + Sync, To: Send + Sync> + Sync + Drop,
    Src: Source<Item = S::From>,
    V: Visits<Item = S::To>,
    C: Cancel + Drop,
    R: Clock + Threads + Wait + Sync,
    requires fresh { Src.given source ≡ 0 }
    requires is_called { S.is_called steps }
    requires in_one_way { S.in_one_way steps }
    requires gives { S.gives steps }
    requires gives_one { S.gives_one steps }
    requires may_call { V.is_called }
    requires may_call_in_one_way { (a b : V.is_called) → a ≡ b }
    ensures degree { is_degree settings.degree ≡ false → result ≡ Err Degree }
    ensures asked { AskedFor (WasLetBy C.asks settings.token) result }
    ensures growth { (fault : GrowthFault) → is_degree settings.degree ≡ true → CantGrow settings.growth fault → result ≡ Err (GrowthRefused fault) }
    ensures calls { (f : S.From → Option S.To) → ((x : S.From) → S.makes steps x (f x))
        → Ran V.takes V.refuses (WasStoppedBy C.asks settings.token) settings.degree settings.growth
        (items_of (batches settings.merge (steps_made f (Src.whole source)))) (Src.whole source).ending by.old result by.new }
{
    let mut sink = CallEach::<V> { by };
    run_calls(source, steps, settings, rt, alloc, &mut sink)
}

/// Runs steps into a sink that calls.
fn run_calls<Src, S, V, C, R>(
    source: Src,
    steps: S,
    settings: ByThreads<C>,
    rt: &R,
    alloc: Global,
    sink: &mut CallEach<'_, V>,
) -> Result<(), QueryFault>
where
    S: Steps<From: Send + Sync, To: Send + Sync> + Sync + Drop,
    Src: Source<Item = S::From>,
    V: Visits<Item = S::To>,
    C: Cancel + Drop,
    R: Clock + Threads + Wait + Sync,
    requires fresh { Src.given source ≡ 0 }
    requires is_called { S.is_called steps }
    requires in_one_way { S.in_one_way steps }
    requires gives { S.gives steps }
    requires gives_one { S.gives_one steps }
    ensures degree { is_degree settings.degree ≡ false → result ≡ Err Degree }
    ensures asked { AskedFor (WasLetBy C.asks settings.token) result }
    ensures growth { (fault : GrowthFault) → is_degree settings.degree ≡ true → CantGrow settings.growth fault → result ≡ Err (GrowthRefused fault) }
    ensures same { sink.new.by.ghost_name ≡ sink.old.by.ghost_name }
    ensures calls { (f : S.From → Option S.To) → ((x : S.From) → S.makes steps x (f x))
        → Ran V.takes V.refuses (WasStoppedBy C.asks settings.token) settings.degree settings.growth
        (items_of (batches settings.merge (steps_made f (Src.whole source)))) (Src.whole source).ending sink.old.by.now result sink.new.by.now }
{
    run_steps_into(source, steps, settings, rt, alloc, sink)
}

/// The same on the caller's thread, item by item.
pub fn call_alone<Src, S, V>(source: Src, steps: S, by: &mut V::Called) -> Result<(), QueryFault>
where
    S: Steps + Drop,
    Src: Source<Item = S::From>,
    V: Visits<Item = S::To>,
    requires fresh { Src.given source ≡ 0 }
    requires is_called { S.is_called steps }
    requires in_one_way { S.in_one_way steps }
    requires gives { S.gives steps }
    requires gives_one { S.gives_one steps }
    requires may_call { V.is_called }
    ensures calls { (f : S.From → Option S.To) → ((x : S.From) → S.makes steps x (f x)) → Ran V.takes V.refuses ⊥ 1 None
        (filter_map f (Src.whole source).items) (Src.whole source).ending by.old result by.new }
    ensures alone { IfErr result EndedOrRefused }
{
    let made = Made::of(&steps);
    told_alone(visit_alone::<Src, S, V>(source, &made, by))
}
