//! The run of a crew in a scope of threads, and what comes back of it.
ghost use Rattle.std.specs.Prelude.{◌≡◌};
ghost use Rattle.plinq_crew.specs.Equipped.{IsReady};
ghost use Rattle.plinq_crew.specs.Conducting.{Conducts};
ghost use Rattle.plinq_crew.specs.inner.Scoped.{MayStartScope, ScopeReturns};

use crate::consumer::Consumer;
use crate::result_stream::RunSpec;
use crate::starting::WorkerFaults;
use crate::task::Task;
use crate::worker::{Crew, Equipment, WorkerContext};
use crate::worker_count::WorkerCount;
use plinq_lambda::Lambda;
use plinq_partition::Partition;
use plinq_source::{OutOfMemory, Source};
use std::sync::Wait;
use std::thread;
use std::thread::Threads;

/// What is left of a run whose workers were joined.
#[derive(Drop)]
pub struct Returned<S: Source> {
    pub partitions: Vec<Partition<S>>,
    pub worker_faults: WorkerFaults,
    pub worker_count: WorkerCount,
}

/// Starts a crew's workers, passes what they send to the consumer, and joins them.
///
/// # Errors
///
/// [`OutOfMemory`] if there is no room for what the workers bring back. No worker was started then.
pub fn conduct<'x, J, L, S: Source<Item = L::Item>, P: Task<L::Item>, X, R>(
    rt: &'x R,
    crew: &'x Crew<'x, L, S, J, P>,
    context: WorkerContext<S, P::Part>,
    consumer: &mut X,
) -> Result<Returned<S>, OutOfMemory>
where
    J: RunSpec<P::Part> + Send + Sync,
    L: Lambda<Item: Send> + Sync,
    X: Consumer<<P as Task<L::Item>>::Part>,
    R: Threads + Wait + Sync,
    requires ready { IsReady L.meaning P.makes J.is_result J.stops_at crew.now context }
    requires consumer { X.is_ready consumer.old }
    ensures { Conducts X.accepts J.is_result crew.now context consumer.old consumer.new result }
{
    let taken = (Equipment { rt, crew, context }, &mut *consumer);
    let (returned, _lent) = thread::scope(
        thread::scope_env(),
        rt,
        move |scope| -> (Result<Returned<S>, OutOfMemory>, &mut X)
            requires { MayStartScope L.meaning P.makes J.is_result J.stops_at X.is_ready taken.0 taken.1.now }
            ensures same { result.1.ghost_name ≡ taken.entry.1.ghost_name }
            ensures returns { ScopeReturns X.accepts J.is_result taken.entry.0 taken.entry.1.now result.1.now result.0 }
        {
            let (equipment, lent) = taken;
            let Equipment { rt, crew, context } = equipment;
            let returned = crew.conduct_within(scope, rt, context, lent);
            (returned, lent)
        },
    );
    returned
}
