//! The items of a query's answer in a list.
ghost use Rattle.std.specs.Prelude.{◌≡◌, MatchResult};
ghost use Rattle.plinq_ops.specs.Answer.{MayAnswer};
ghost use Rattle.plinq_ops.specs.Query.{merge_in_force};
ghost use Rattle.plinq_run.specs.Reports.{Reports};
ghost use Rattle.plinq_collect.specs.Telling.{GathersSome, IsShort, gathered_of};

use crate::collect::Collect;
use plinq_enumerator::Growth;
use plinq_lambda::SharedLambda;
use plinq_merge::Sink;
use plinq_ops::Query;
use plinq_run::{Report, RunFault, TimedGate, run};
use plinq_source::{Ending, Source};
use std::alloc::Global;
use std::sync::Wait;
use std::thread::Threads;
use std::time::Clock;

/// Runs a query into a sink, by workers that choose their chunks' sizes by time ([`TimedGate`]).
///
/// # Errors
///
/// As [`run`](plinq_run::run).
pub fn run_into<L, S, K, R>(
    rt: &R,
    alloc: Global,
    query: &Query<L>,
    source: S,
    sink: &mut K,
) -> Result<Report, RunFault>
where
    L: SharedLambda,
    S: Source<Item = L::Item>,
    K: Sink<Item = L::Item>,
    R: Clock + Threads + Wait + Sync,
    requires { S.given source ≡ 0 }
    ensures { Reports K.accepts K.refuses (merge_in_force query.now.merge) (MayAnswer L.meaning query.now.ordered query.now.ops)
        (S.whole source) sink.old sink.new result }
{
    run(
        rt,
        alloc,
        query,
        source,
        Growth::DEFAULT,
        &TimedGate::new(rt),
        sink,
    )
}

/// The items of a query's answer, and how it ended (.NET's `ToList`, rayon's `collect`).
///
/// If the answer ends well these are all of its items. Before a fault or a refusal they are those that come before it;
/// a fully buffered query hands over none then.
///
/// # Errors
///
/// [`RunFault::Memory`] if there is no room, also for the list; else as [`run`](plinq_run::run).
///
/// ```text
/// let (items, ending) = to_vec(rt, alloc, &query, SliceSource::new(&numbers)?)?;
/// ```
pub fn to_vec<L, S, R>(
    rt: &R,
    alloc: Global,
    query: &Query<L>,
    source: S,
) -> Result<(Vec<L::Item>, Ending), RunFault>
where
    L: SharedLambda,
    S: Source<Item = L::Item>,
    R: Clock + Threads + Wait + Sync,
    requires { S.given source ≡ 0 }
    ensures { MatchResult result
        (λ it. GathersSome (merge_in_force query.now.merge) (MayAnswer L.meaning query.now.ordered query.now.ops (S.whole source)) it.0.items it.1)
        IsShort }
{
    let mut sink = Collect(Vec::new(alloc));
    let outcome = run_into(rt, alloc, query, source, &mut sink);
    gathered(sink.0, outcome)
}

/// What is answered of a run into this list.
fn gathered<T: Drop>(
    list: Vec<T>,
    outcome: Result<Report, RunFault>,
) -> Result<(Vec<T>, Ending), RunFault>
    ensures { result ≡ gathered_of list outcome }
{
    match outcome {
        Ok(report) => Ok((list, report.ending)),
        Err(RunFault::Sink(_)) => Err(RunFault::Memory),
        Err(fault) => Err(fault),
    }
}
