//! The run of steps whose items go through steps by position, and on.
ghost use Rattle.std.specs.Prelude.{◌≡◌, List, Bool, Option, Err, IfErr, None, false, true};
ghost use Rattle.plinq_ops.specs.Query.{is_degree};
ghost use Rattle.plinq_passing.specs.declared.query_fault.QueryFault.TheVariants.{Degree, Growth as GrowthRefused};
ghost use Rattle.plinq_passing.specs.Ran.{Ran, EndedOrRefused, left_trace};
ghost use Rattle.plinq_passing.specs.Listed.{WasShort};
ghost use Rattle.plinq_passing.specs.Passing.{Touched, told_over};
ghost use Rattle.plinq_passing.specs.Told.{AskedFor, CantGrow};
ghost use Rattle.plinq_stopping.specs.Asking.{WasLetBy, WasStoppedBy};
ghost use Rattle.plinq_enumerator.specs.declared.growth_fault.GrowthFault.{GrowthFault};

use crate::by_threads::ByThreads;
use crate::calling::{call_alone, call_by_threads};
use crate::limited::Limited;
use crate::limiting::limit_of;
use crate::passes::{Passed, Passes};
use crate::plain::Plain;
use crate::planning::{growth_of, plan_of};
use crate::query_fault::QueryFault;
use crate::visits::Visits;
use plinq_merge::Cancel;
use plinq_ops::MergeOption;
use plinq_run::RunFault;
use plinq_source::Source;
use plinq_steps::{Positional, Steps};
use std::alloc::Global;
use std::sync::Wait;
use std::thread::Threads;
use std::time::Clock;

/// How it went; a refusal once no more could be made is none.
fn told_over(over: bool, outcome: Result<(), QueryFault>) -> Result<(), QueryFault>
    ensures { result ≡ told_over outcome over }
{
    match outcome {
        Ok(()) => Ok(()),
        Err(QueryFault::Run(RunFault::Sink(code))) => {
            if over {
                Ok(())
            } else {
                Err(QueryFault::Run(RunFault::Sink(code)))
            }
        }
        Err(fault) => Err(fault),
    }
}

/// Asks the token of a query that is over before it begins, and nothing else.
fn ask_alone<T, C>(settings: ByThreads<C>, alloc: Global) -> Result<(), QueryFault>
where
    T: Copy,
    C: Cancel + Drop,
    ensures degree { is_degree settings.degree ≡ false → result ≡ Err Degree }
    ensures asked { AskedFor (WasLetBy C.asks settings.token) result }
    ensures growth { (fault : GrowthFault) → is_degree settings.degree ≡ true → CantGrow settings.growth fault → result ≡ Err (GrowthRefused fault) }
    ensures short { IfErr result (WasShort (WasStoppedBy C.asks settings.token) settings.degree settings.growth) }
{
    let mut token = settings.token;
    plan_of::<Plain<T>>(alloc, settings.degree)?;
    growth_of(settings.growth)?;
    if token.cancelled(0) {
        return Err(QueryFault::Run(RunFault::Cancelled));
    }
    Ok(())
}

/// Passes on what steps by position make of what is made of a source's items, by threads. The source is left once they can make no more;
/// if it is known before an item comes how many they need, it is asked for no more.
pub fn pass_by_threads<Src, S, L, W, C, R>(
    source: Src,
    steps: S,
    settings: ByThreads<C>,
    rt: &R,
    alloc: Global,
    passed: &mut Passed<L, W::Called>,
) -> Result<(), QueryFault>
where
    S: Steps<From: Send + Sync, To: Send + Sync> + Sync + Drop,
    Src: Source<Item = S::From>,
    L: Positional<From = S::To>,
    W: Visits<Item = L::To>,
    C: Cancel + Drop,
    R: Clock + Threads + Wait + Sync,
    requires fresh { Src.given source ≡ 0 }
    requires is_called { S.is_called steps }
    requires in_one_way { S.in_one_way steps }
    requires gives { S.gives steps }
    requires gives_one { S.gives_one steps }
    requires then_called { (l : L) → L.is_called l }
    requires then_in_one_way { (l : L) → L.in_one_way l }
    requires then_gives_one { (l : L) → L.gives_one l }
    requires may_call { W.is_called }
    requires may_call_in_one_way { (a b : W.is_called) → a ≡ b }
    ensures degree { is_degree settings.degree ≡ false → result ≡ Err Degree }
    ensures asked { AskedFor (WasLetBy C.asks settings.token) result }
    ensures growth { (fault : GrowthFault) → is_degree settings.degree ≡ true → CantGrow settings.growth fault → result ≡ Err (GrowthRefused fault) }
    ensures touched { Touched W.takes W.refuses passed.old.to passed.new.to }
    ensures passed { (f : S.From → Option S.To) → ((x : S.From) → S.makes steps x (f x)) → (g : List S.To → List L.To) (d : List S.To → Bool)
        → L.means passed.old.later g d → Ran W.takes W.refuses (WasStoppedBy C.asks settings.token) settings.degree settings.growth
        (left_trace f g d (Src.whole source)).items (left_trace f g d (Src.whole source)).ending passed.old.to result passed.new.to }
{
    if passed.later.has_ended() {
        return ask_alone::<S::From, C>(settings, alloc);
    }
    let left = limit_of(&steps, &passed.later);
    let outcome = call_by_threads::<Limited<Src>, S, Passes<L, W>, C, R>(
        Limited { source, left },
        steps,
        ByThreads {
            merge: MergeOption::NotBuffered,
            ..settings
        },
        rt,
        alloc,
        passed,
    );
    told_over(passed.over, outcome)
}

/// The same on the caller's thread.
pub fn pass_alone<Src, S, L, W>(
    source: Src,
    steps: S,
    passed: &mut Passed<L, W::Called>,
) -> Result<(), QueryFault>
where
    S: Steps + Drop,
    Src: Source<Item = S::From>,
    L: Positional<From = S::To>,
    W: Visits<Item = L::To>,
    requires fresh { Src.given source ≡ 0 }
    requires is_called { S.is_called steps }
    requires in_one_way { S.in_one_way steps }
    requires gives { S.gives steps }
    requires gives_one { S.gives_one steps }
    requires then_called { (l : L) → L.is_called l }
    requires then_gives_one { (l : L) → L.gives_one l }
    requires may_call { W.is_called }
    ensures touched { Touched W.takes W.refuses passed.old.to passed.new.to }
    ensures passed { (f : S.From → Option S.To) → ((x : S.From) → S.makes steps x (f x)) → (g : List S.To → List L.To) (d : List S.To → Bool)
        → L.means passed.old.later g d → Ran W.takes W.refuses ⊥ 1 None
        (left_trace f g d (Src.whole source)).items (left_trace f g d (Src.whole source)).ending passed.old.to result passed.new.to }
    ensures alone { IfErr result EndedOrRefused }
{
    if passed.later.has_ended() {
        return Ok(());
    }
    let outcome = call_alone::<Src, S, Passes<L, W>>(source, steps, passed);
    told_over(passed.over, outcome)
}
