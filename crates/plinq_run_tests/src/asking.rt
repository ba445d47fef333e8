use plinq_enumerator::Growth;
use plinq_lambda::SharedLambda;
use plinq_merge::Sink;
use plinq_ops::{BuildFault, Query};
use plinq_run::{Gate, RunFault, run};
use plinq_source::{Ending, RangeSource};
use std::alloc::Global;
use std::sync::Wait;
use std::thread::Threads;

/// So many numbers from the first on, which leave in chunks that grow so.
#[derive(Clone, Copy)]
pub(crate) struct Numbers {
    pub(crate) first: i64,
    pub(crate) count: u64,
    pub(crate) growth: Growth,
}

impl Numbers {
    /// So many from 0 on, each in a chunk of its own.
    pub(crate) fn below(count: u64) -> Numbers {
        Numbers {
            first: 0,
            count,
            growth: Growth::ONE,
        }
    }
}

/// How a run of a query over numbers ends. It is Incomplete if there is no query, or no such numbers.
///
/// In one place, since a call of `run` and its report are dear to prove.
pub(crate) fn ending_of<L, G, K, R>(
    rt: &R,
    alloc: Global,
    query: Result<Query<L>, BuildFault>,
    numbers: Numbers,
    gate: &G,
    sink: &mut K,
) -> Result<Ending, RunFault>
where
    L: SharedLambda<Item = i64>,
    G: Gate,
    K: Sink<Item = i64>,
    R: Threads + Wait + Sync,
{
    let Ok(query) = query else {
        return Err(RunFault::Incomplete);
    };
    let Ok(source) = RangeSource::new(numbers.first, numbers.count) else {
        return Err(RunFault::Incomplete);
    };
    match run(rt, alloc, &query, source, numbers.growth, gate, sink) {
        Ok(report) => Ok(report.ending),
        Err(fault) => Err(fault),
    }
}
