//! The delivery of what steps by position leave, in batches or call by call.
ghost use Rattle.std.specs.Prelude.{◌≡◌, List, [], Bool, Option, Err, IfErr, None, false, true};
ghost use Rattle.plinq_collect.specs.Telling.{items_of};
ghost use Rattle.plinq_ops.specs.Batches.{batches, batches_from};
ghost use Rattle.plinq_ops.specs.Query.{is_degree};
ghost use Rattle.plinq_passing.specs.declared.query_fault.QueryFault.TheVariants.{Degree, Growth as GrowthRefused};
ghost use Rattle.plinq_passing.specs.Told.{AskedFor, CantGrow};
ghost use Rattle.plinq_stopping.specs.Asking.{WasLetBy, WasStoppedBy};
ghost use Rattle.plinq_passing.specs.Ran.{Ran, EndedOrRefused, left_trace};
ghost use Rattle.plinq_passing.specs.Passing.{Finishes, SendsLast, Touched};
ghost use Rattle.plinq_enumerator.specs.declared.growth_fault.GrowthFault.{GrowthFault};

use crate::by_threads::ByThreads;
use crate::call_each::CallEach;
use crate::gathers::{Gathered, Gathers};
use crate::lends::Lends;
use crate::passes::Passed;
use crate::passing::{pass_alone, pass_by_threads};
use crate::query_fault::QueryFault;
use crate::visits::Visits;
use plinq_mapped::DeliverMade;
use plinq_merge::{Cancel, DeliveryFault, Sink};
use plinq_run::RunFault;
use plinq_source::{Ending, Source};
use plinq_steps::{Positional, Steps};
use std::alloc::Global;
use std::sync::Wait;
use std::thread::Threads;
use std::time::Clock;

/// Sends what is still held back, if the ending says so; the query ends so unless that is refused.
fn send_last<K: Sink<Item: Copy>>(
    gathered: &mut Gathered<'_, K>,
    ending: Ending,
    how: Result<(), QueryFault>,
) -> Result<(), QueryFault>
    ensures same { gathered.new.sink.ghost_name ≡ gathered.old.sink.ghost_name }
    ensures sent { SendsLast K.accepts K.refuses gathered.old.made.size gathered.old.made.held.items ending gathered.old.sink.now
        how result gathered.new.sink.now }
{
    match gathered.made.end(ending, gathered.sink) {
        Ok(_) => how,
        Err(DeliveryFault::Memory) => Err(QueryFault::Run(RunFault::Memory)),
        Err(DeliveryFault::Sink(code)) => Err(QueryFault::Run(RunFault::Sink(code))),
    }
}

/// How the query ended, once the last batch is sent.
fn finish<K: Sink<Item: Copy>>(
    gathered: &mut Gathered<'_, K>,
    outcome: Result<(), QueryFault>,
) -> Result<(), QueryFault>
    ensures same { gathered.new.sink.ghost_name ≡ gathered.old.sink.ghost_name }
    ensures finished { Finishes K.accepts K.refuses gathered.old.made.size gathered.old.made.held.items gathered.old.short
        gathered.old.sink.now outcome result gathered.new.sink.now }
{
    match outcome {
        Ok(()) => send_last(gathered, Ending::End, Ok(())),
        Err(QueryFault::Ended(ending)) => {
            send_last(gathered, ending, Err(QueryFault::Ended(ending)))
        }
        Err(QueryFault::Run(RunFault::Sink(code))) => {
            if gathered.short {
                return Err(QueryFault::Run(RunFault::Memory));
            }
            Err(QueryFault::Run(RunFault::Sink(code)))
        }
        Err(fault) => Err(fault),
    }
}

/// Delivers to a sink, in batches, what steps by position leave of what the steps before them make, by threads. The source is left once
/// no more can be made.
pub fn run_left_into<Src, S, L, K, C, R>(
    source: Src,
    steps: S,
    later: L,
    settings: ByThreads<C>,
    rt: &R,
    alloc: Global,
    sink: &mut K,
) -> Result<(), QueryFault>
where
    S: Steps<From: Send + Sync, To: Send + Sync> + Sync + Drop,
    Src: Source<Item = S::From>,
    L: Positional<From = S::To> + Drop,
    K: Sink<Item = L::To>,
    C: Cancel + Drop,
    R: Clock + Threads + Wait + Sync,
    requires fresh { Src.given source ≡ 0 }
    requires is_called { S.is_called steps }
    requires in_one_way { S.in_one_way steps }
    requires gives { S.gives steps }
    requires gives_one { S.gives_one steps }
    requires then_called { (l : L) → L.is_called l }
    requires then_in_one_way { (l : L) → L.in_one_way l }
    requires then_gives_one { (l : L) → L.gives_one l }
    ensures degree { is_degree settings.degree ≡ false → result ≡ Err Degree }
    ensures asked { AskedFor (WasLetBy C.asks settings.token) result }
    ensures growth { (fault : GrowthFault) → is_degree settings.degree ≡ true → CantGrow settings.growth fault → result ≡ Err (GrowthRefused fault) }
    ensures touched { Touched K.accepts K.refuses sink.old sink.new }
    ensures ran { (f : S.From → Option S.To) → ((x : S.From) → S.makes steps x (f x)) → (g : List S.To → List L.To) (d : List S.To → Bool)
        → L.means later g d → Ran K.accepts K.refuses (WasStoppedBy C.asks settings.token) settings.degree settings.growth (batches settings.merge
        (left_trace f g d (Src.whole source)))
        (left_trace f g d (Src.whole source)).ending sink.old result sink.new }
{
    let mut gathered = Gathered {
        made: DeliverMade::new(alloc, settings.merge),
        short: false,
        sink,
    };
    let outcome = run_gathered(source, steps, later, settings, rt, alloc, &mut gathered);
    // (dropped part by part: of what is dropped whole it isn't known what it lent)
    let Gathered {
        made: _made,
        sink: _sink,
        ..
    } = gathered;
    outcome
}

/// Delivers what is left by way of what is held back, of which there is nothing at first.
fn run_gathered<Src, S, L, K, C, R>(
    source: Src,
    steps: S,
    later: L,
    settings: ByThreads<C>,
    rt: &R,
    alloc: Global,
    gathered: &mut Gathered<'_, K>,
) -> Result<(), QueryFault>
where
    S: Steps<From: Send + Sync, To: Send + Sync> + Sync + Drop,
    Src: Source<Item = S::From>,
    L: Positional<From = S::To> + Drop,
    K: Sink<Item = L::To>,
    C: Cancel + Drop,
    R: Clock + Threads + Wait + Sync,
    requires fresh { Src.given source ≡ 0 }
    requires is_called { S.is_called steps }
    requires in_one_way { S.in_one_way steps }
    requires gives { S.gives steps }
    requires gives_one { S.gives_one steps }
    requires then_called { (l : L) → L.is_called l }
    requires then_in_one_way { (l : L) → L.in_one_way l }
    requires then_gives_one { (l : L) → L.gives_one l }
    requires begins { gathered.old.made.held.items ≡ [] }
    ensures degree { is_degree settings.degree ≡ false → result ≡ Err Degree }
    ensures asked { AskedFor (WasLetBy C.asks settings.token) result }
    ensures growth { (fault : GrowthFault) → is_degree settings.degree ≡ true → CantGrow settings.growth fault → result ≡ Err (GrowthRefused fault) }
    ensures same { gathered.new.sink.ghost_name ≡ gathered.old.sink.ghost_name }
    ensures touched { Touched K.accepts K.refuses gathered.old.sink.now gathered.new.sink.now }
    ensures ran { (f : S.From → Option S.To) → ((x : S.From) → S.makes steps x (f x)) → (g : List S.To → List L.To) (d : List S.To → Bool)
        → L.means later g d → Ran K.accepts K.refuses (WasStoppedBy C.asks settings.token) settings.degree settings.growth
        (batches_from gathered.old.made.size [] (left_trace f g d (Src.whole source))) (left_trace f g d (Src.whole source)).ending
        gathered.old.sink.now result gathered.new.sink.now }
{
    let outcome = visit_left::<Src, S, L, Gathers<'_, K>, C, R>(
        source, steps, later, settings, rt, alloc, gathered,
    );
    finish(gathered, outcome)
}

/// Passes on what is left, item by item, by threads.
fn visit_left<Src, S, L, V, C, R>(
    source: Src,
    steps: S,
    later: L,
    settings: ByThreads<C>,
    rt: &R,
    alloc: Global,
    by: &mut V::Called,
) -> Result<(), QueryFault>
where
    S: Steps<From: Send + Sync, To: Send + Sync> + Sync + Drop,
    Src: Source<Item = S::From>,
    L: Positional<From = S::To> + Drop,
    V: Visits<Item = L::To>,
    C: Cancel + Drop,
    R: Clock + Threads + Wait + Sync,
    requires fresh { Src.given source ≡ 0 }
    requires is_called { S.is_called steps }
    requires in_one_way { S.in_one_way steps }
    requires gives { S.gives steps }
    requires gives_one { S.gives_one steps }
    requires then_called { (l : L) → L.is_called l }
    requires then_in_one_way { (l : L) → L.in_one_way l }
    requires then_gives_one { (l : L) → L.gives_one l }
    requires may_call { V.is_called }
    requires may_call_in_one_way { (a b : V.is_called) → a ≡ b }
    ensures degree { is_degree settings.degree ≡ false → result ≡ Err Degree }
    ensures asked { AskedFor (WasLetBy C.asks settings.token) result }
    ensures growth { (fault : GrowthFault) → is_degree settings.degree ≡ true → CantGrow settings.growth fault → result ≡ Err (GrowthRefused fault) }
    ensures touched { Touched V.takes V.refuses by.old by.new }
    ensures ran { (f : S.From → Option S.To) → ((x : S.From) → S.makes steps x (f x)) → (g : List S.To → List L.To) (d : List S.To → Bool)
        → L.means later g d → Ran V.takes V.refuses (WasStoppedBy C.asks settings.token) settings.degree settings.growth
        (left_trace f g d (Src.whole source)).items (left_trace f g d (Src.whole source)).ending by.old result by.new }
{
    let mut passed = Passed {
        later,
        to: by,
        over: false,
    };
    let outcome = visit_lent::<Src, S, L, V, C, R>(source, steps, settings, rt, alloc, &mut passed);
    // (part by part, as above)
    let Passed {
        later: _later,
        to: _to,
        ..
    } = passed;
    outcome
}

/// Passes on what is left to what is lent.
fn visit_lent<Src, S, L, V, C, R>(
    source: Src,
    steps: S,
    settings: ByThreads<C>,
    rt: &R,
    alloc: Global,
    passed: &mut Passed<L, &mut V::Called>,
) -> Result<(), QueryFault>
where
    S: Steps<From: Send + Sync, To: Send + Sync> + Sync + Drop,
    Src: Source<Item = S::From>,
    L: Positional<From = S::To> + Drop,
    V: Visits<Item = L::To>,
    C: Cancel + Drop,
    R: Clock + Threads + Wait + Sync,
    requires fresh { Src.given source ≡ 0 }
    requires is_called { S.is_called steps }
    requires in_one_way { S.in_one_way steps }
    requires gives { S.gives steps }
    requires gives_one { S.gives_one steps }
    requires then_called { (l : L) → L.is_called l }
    requires then_in_one_way { (l : L) → L.in_one_way l }
    requires then_gives_one { (l : L) → L.gives_one l }
    requires may_call { V.is_called }
    requires may_call_in_one_way { (a b : V.is_called) → a ≡ b }
    ensures degree { is_degree settings.degree ≡ false → result ≡ Err Degree }
    ensures asked { AskedFor (WasLetBy C.asks settings.token) result }
    ensures growth { (fault : GrowthFault) → is_degree settings.degree ≡ true → CantGrow settings.growth fault → result ≡ Err (GrowthRefused fault) }
    ensures same { passed.new.to.ghost_name ≡ passed.old.to.ghost_name }
    ensures touched { Touched V.takes V.refuses passed.old.to.now passed.new.to.now }
    ensures ran { (f : S.From → Option S.To) → ((x : S.From) → S.makes steps x (f x)) → (g : List S.To → List L.To) (d : List S.To → Bool)
        → L.means passed.old.later g d → Ran V.takes V.refuses (WasStoppedBy C.asks settings.token) settings.degree settings.growth
        (left_trace f g d (Src.whole source)).items (left_trace f g d (Src.whole source)).ending passed.old.to.now result passed.new.to.now }
{
    pass_by_threads::<Src, S, L, Lends<'_, V::Called, V>, C, R>(
        source, steps, settings, rt, alloc, passed,
    )
}

/// Calls what is lent with each item that steps by position leave of what the steps before them make. The workers apply the steps, this
/// thread calls.
pub fn call_left_by_threads<Src, S, L, V, C, R>(
    source: Src,
    steps: S,
    later: L,
    settings: ByThreads<C>,
    rt: &R,
    alloc: Global,
    by: &mut V::Called,
) -> Result<(), QueryFault>
where
    S: Steps<From: Send + Sync, To: Send + Sync> + Sync + Drop,
    Src: Source<Item = S::From>,
    L: Positional<From = S::To> + Drop,
    V: Visits<Item = L::To>,
    C: Cancel + Drop,
    R: Clock + Threads + Wait + Sync,
    requires fresh { Src.given source ≡ 0 }
    requires is_called { S.is_called steps }
    requires in_one_way { S.in_one_way steps }
    requires gives { S.gives steps }
    requires gives_one { S.gives_one steps }
    requires then_called { (l : L) → L.is_called l }
    requires then_in_one_way { (l : L) → L.in_one_way l }
    requires then_gives_one { (l : L) → L.gives_one l }
    requires may_call { V.is_called }
    requires may_call_in_one_way { (a b : V.is_called) → a ≡ b }
    ensures degree { is_degree settings.degree ≡ false → result ≡ Err Degree }
    ensures asked { AskedFor (WasLetBy C.asks settings.token) result }
    ensures growth { (fault : GrowthFault) → is_degree settings.degree ≡ true → CantGrow settings.growth fault → result ≡ Err (GrowthRefused fault) }
    ensures calls { (f : S.From → Option S.To) → ((x : S.From) → S.makes steps x (f x)) → (g : List S.To → List L.To) (d : List S.To → Bool)
        → L.means later g d → Ran V.takes V.refuses (WasStoppedBy C.asks settings.token) settings.degree settings.growth
        (items_of (batches settings.merge (left_trace f g d (Src.whole source)))) (left_trace f g d (Src.whole source)).ending by.old result by.new }
{
    let mut sink = CallEach::<V> { by };
    run_left_calls(source, steps, later, settings, rt, alloc, &mut sink)
}

/// Delivers what is left to a sink that calls.
fn run_left_calls<Src, S, L, V, C, R>(
    source: Src,
    steps: S,
    later: L,
    settings: ByThreads<C>,
    rt: &R,
    alloc: Global,
    sink: &mut CallEach<'_, V>,
) -> Result<(), QueryFault>
where
    S: Steps<From: Send + Sync, To: Send + Sync> + Sync + Drop,
    Src: Source<Item = S::From>,
    L: Positional<From = S::To> + Drop,
    V: Visits<Item = L::To>,
    C: Cancel + Drop,
    R: Clock + Threads + Wait + Sync,
    requires fresh { Src.given source ≡ 0 }
    requires is_called { S.is_called steps }
    requires in_one_way { S.in_one_way steps }
    requires gives { S.gives steps }
    requires gives_one { S.gives_one steps }
    requires then_called { (l : L) → L.is_called l }
    requires then_in_one_way { (l : L) → L.in_one_way l }
    requires then_gives_one { (l : L) → L.gives_one l }
    ensures degree { is_degree settings.degree ≡ false → result ≡ Err Degree }
    ensures asked { AskedFor (WasLetBy C.asks settings.token) result }
    ensures growth { (fault : GrowthFault) → is_degree settings.degree ≡ true → CantGrow settings.growth fault → result ≡ Err (GrowthRefused fault) }
    ensures same { sink.new.by.ghost_name ≡ sink.old.by.ghost_name }
    ensures calls { (f : S.From → Option S.To) → ((x : S.From) → S.makes steps x (f x)) → (g : List S.To → List L.To) (d : List S.To → Bool)
        → L.means later g d → Ran V.takes V.refuses (WasStoppedBy C.asks settings.token) settings.degree settings.growth
        (items_of (batches settings.merge (left_trace f g d (Src.whole source)))) (left_trace f g d (Src.whole source)).ending
        sink.old.by.now result sink.new.by.now }
{
    run_left_into(source, steps, later, settings, rt, alloc, sink)
}

/// The same on the caller's thread, item by item.
pub fn call_left_alone<Src, S, L, V>(
    source: Src,
    steps: S,
    later: L,
    by: &mut V::Called,
) -> Result<(), QueryFault>
where
    S: Steps + Drop,
    Src: Source<Item = S::From>,
    L: Positional<From = S::To> + Drop,
    V: Visits<Item = L::To>,
    requires fresh { Src.given source ≡ 0 }
    requires is_called { S.is_called steps }
    requires in_one_way { S.in_one_way steps }
    requires gives { S.gives steps }
    requires gives_one { S.gives_one steps }
    requires then_called { (l : L) → L.is_called l }
    requires then_gives_one { (l : L) → L.gives_one l }
    requires may_call { V.is_called }
    ensures calls { (f : S.From → Option S.To) → ((x : S.From) → S.makes steps x (f x)) → (g : List S.To → List L.To) (d : List S.To → Bool)
        → L.means later g d → Ran V.takes V.refuses ⊥ 1 None (left_trace f g d (Src.whole source)).items
        (left_trace f g d (Src.whole source)).ending by.old result by.new }
    ensures alone { IfErr result EndedOrRefused }
{
    let mut passed = Passed {
        later,
        to: by,
        over: false,
    };
    let outcome = call_lent::<Src, S, L, V>(source, steps, &mut passed);
    // (part by part, as above)
    let Passed {
        later: _later,
        to: _to,
        ..
    } = passed;
    outcome
}

/// Calls what is lent.
fn call_lent<Src, S, L, V>(
    source: Src,
    steps: S,
    passed: &mut Passed<L, &mut V::Called>,
) -> Result<(), QueryFault>
where
    S: Steps + Drop,
    Src: Source<Item = S::From>,
    L: Positional<From = S::To> + Drop,
    V: Visits<Item = L::To>,
    requires fresh { Src.given source ≡ 0 }
    requires is_called { S.is_called steps }
    requires in_one_way { S.in_one_way steps }
    requires gives { S.gives steps }
    requires gives_one { S.gives_one steps }
    requires then_called { (l : L) → L.is_called l }
    requires then_gives_one { (l : L) → L.gives_one l }
    requires may_call { V.is_called }
    ensures same { passed.new.to.ghost_name ≡ passed.old.to.ghost_name }
    ensures calls { (f : S.From → Option S.To) → ((x : S.From) → S.makes steps x (f x)) → (g : List S.To → List L.To) (d : List S.To → Bool)
        → L.means passed.old.later g d → Ran V.takes V.refuses ⊥ 1 None (left_trace f g d (Src.whole source)).items
        (left_trace f g d (Src.whole source)).ending passed.old.to.now result passed.new.to.now }
    ensures alone { IfErr result EndedOrRefused }
{
    pass_alone::<Src, S, L, Lends<'_, V::Called, V>>(source, steps, passed)
}
