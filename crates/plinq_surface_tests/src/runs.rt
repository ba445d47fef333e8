//! The calls that wait for workers.
ghost use Rattle.std.specs.Prelude.{◌≡◌, false};

use plinq_aggregate::Aggregator;
use plinq_enumerator::Growth;
use plinq_lambda::SharedLambda;
use plinq_merge::{Cancel, Sink};
use plinq_ops::Query;
use plinq_run::{AggregateFault, Gate, Report, RunFault, aggregate, run, run_with};
use plinq_source::Source;
use std::alloc::Global;
use std::sync::Wait;
use std::thread::Threads;

fn run_by<L, S, G, K, R>(
    rt: &R,
    alloc: Global,
    query: &Query<L>,
    source: S,
    gate: &G,
    sink: &mut K,
) -> Result<Report, RunFault>
where
    L: SharedLambda,
    S: Source<Item = L::Item>,
    G: Gate,
    K: Sink<Item = L::Item>,
    R: Threads + Wait + Sync,
    requires { S.given source ≡ 0 }
{
    run(rt, alloc, query, source, Growth::DEFAULT, gate, sink)
}

fn run_until<L, S, G, C, K, R>(
    rt: &R,
    alloc: Global,
    query: &Query<L>,
    source: S,
    gate: &G,
    token: &mut C,
    sink: &mut K,
) -> Result<Report, RunFault>
where
    L: SharedLambda,
    S: Source<Item = L::Item>,
    G: Gate,
    C: Cancel,
    K: Sink<Item = L::Item>,
    R: Threads + Wait + Sync,
    requires unasked { S.given source ≡ 0 }
    requires untold { C.has_told token.old ≡ false }
{
    run_with(rt, alloc, query, source, Growth::DEFAULT, gate, token, sink)
}

fn aggregated<L, S, G, A, R>(
    rt: &R,
    alloc: Global,
    query: &Query<L>,
    source: S,
    gate: &G,
    aggregator: &A,
) -> Result<A::Out, AggregateFault>
where
    L: SharedLambda,
    S: Source<Item = L::Item>,
    G: Gate,
    A: Aggregator<Item = L::Item>,
    R: Threads + Wait + Sync,
    requires { S.given source ≡ 0 }
{
    aggregate(rt, alloc, query, source, Growth::DEFAULT, gate, aggregator)
}
