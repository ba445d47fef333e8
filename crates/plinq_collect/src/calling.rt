//! A closure that is called with the items of a query's answer.
ghost use Rattle.std.specs.Prelude.{◌≡◌, IfErr};
ghost use Rattle.plinq_source.specs.Trace.{ended_trace};
ghost use Rattle.plinq_ops.specs.Answer.{MayAnswer};
ghost use Rattle.plinq_ops.specs.Query.{merge_in_force};
ghost use Rattle.plinq_collect.specs.Calling.{CallsSome, CallsAll, IsCode};

use crate::call_each::CallEach;
use crate::collecting::run_into;
use crate::visits::{Visitor, Visits};
use plinq_lambda::SharedLambda;
use plinq_merge::Sink;
use plinq_ops::Query;
use plinq_run::RunFault;
use plinq_source::{Ending, Source};
use std::alloc::Global;
use std::sync::Wait;
use std::thread::Threads;
use std::time::Clock;

/// Calls a closure with each item of a query's answer, one after another, and returns how it ended (C#'s `foreach` over a
/// query). It is called on the caller's thread, while the workers go on; rayon's `for_each` calls on the workers'.
///
/// The closure is lent, as a sink is: whatever is answered, it has been called with the first items of the answer and with no
/// others.
///
/// # Errors
///
/// [`RunFault::Sink`] with the code that the closure answers, and it is called no more; else as [`run`](plinq_run::run).
///
/// ```text
/// let ending = for_each(rt, alloc, &query, source, &mut |item| sums.push(item).map_err(|_| 1))?;
/// ```
pub fn for_each<L, S, F, R>(
    rt: &R,
    alloc: Global,
    query: &Query<L>,
    source: S,
    by: &mut F,
) -> Result<Ending, RunFault>
where
    L: SharedLambda,
    S: Source<Item = L::Item>,
    F: FnMut(L::Item) -> Result<(), u32>,
    R: Clock + Threads + Wait + Sync,
    requires fresh { S.given source ≡ 0 }
    requires is_called { (f : F) (x : L.Item) → F.pre f x }
    requires in_one_way { (f : F) (x : L.Item) (a b : F.pre f x) → a ≡ b }
    ensures { CallsSome (λ f x r g. F.step f x r g) (merge_in_force query.now.merge)
        (MayAnswer L.meaning query.now.ordered query.now.ops (S.whole source)) by.old result by.new }
{
    visit_each::<L, S, Visitor<L::Item, F>, R>(rt, alloc, query, source, by)
}

/// As [`for_each`], in any way of calling.
fn visit_each<L, S, V, R>(
    rt: &R,
    alloc: Global,
    query: &Query<L>,
    source: S,
    by: &mut V::Called,
) -> Result<Ending, RunFault>
where
    L: SharedLambda,
    S: Source<Item = L::Item>,
    V: Visits<Item = L::Item>,
    R: Clock + Threads + Wait + Sync,
    requires fresh { S.given source ≡ 0 }
    requires is_called { V.is_called }
    requires in_one_way { (a b : V.is_called) → a ≡ b }
    ensures { CallsSome V.steps (merge_in_force query.now.merge) (MayAnswer L.meaning query.now.ordered query.now.ops (S.whole source)) by.old result by.new }
{
    let mut sink = CallEach::<V> { by };
    run_each(rt, alloc, query, source, &mut sink)
}

/// Runs a query into a sink that calls.
fn run_each<L, S, V, R>(
    rt: &R,
    alloc: Global,
    query: &Query<L>,
    source: S,
    sink: &mut CallEach<'_, V>,
) -> Result<Ending, RunFault>
where
    L: SharedLambda,
    S: Source<Item = L::Item>,
    V: Visits<Item = L::Item>,
    R: Clock + Threads + Wait + Sync,
    requires fresh { S.given source ≡ 0 }
    ensures same { sink.new.by.ghost_name ≡ sink.old.by.ghost_name }
    ensures calls { CallsSome V.steps (merge_in_force query.now.merge)
        (MayAnswer L.meaning query.now.ordered query.now.ops (S.whole source)) sink.old.by.now result sink.new.by.now }
{
    match run_into(rt, alloc, query, source, sink) {
        Ok(report) => Ok(report.ending),
        Err(fault) => Err(fault),
    }
}

/// Calls with these items, of an answer that ended so.
pub(crate) fn visit_all<V: Visits>(
    by: &mut V::Called,
    items: &[V::Item],
    ending: Ending,
) -> Result<Ending, RunFault>
    requires is_called { V.is_called }
    requires in_one_way { (a b : V.is_called) → a ≡ b }
    ensures calls { CallsAll V.steps (ended_trace items.now ending) by.old result by.new }
    ensures code { IfErr result IsCode }
{
    let mut sink = CallEach::<V> { by };
    call_all(&mut sink, items, ending)
}

/// Hands these items to a sink that calls.
fn call_all<V: Visits>(
    sink: &mut CallEach<'_, V>,
    items: &[V::Item],
    ending: Ending,
) -> Result<Ending, RunFault>
    ensures same { sink.new.by.ghost_name ≡ sink.old.by.ghost_name }
    ensures calls { CallsAll V.steps (ended_trace items.now ending) sink.old.by.now result sink.new.by.now }
    ensures code { IfErr result IsCode }
{
    match sink.batch(items) {
        Ok(()) => Ok(ending),
        Err(code) => Err(RunFault::Sink(code)),
    }
}
