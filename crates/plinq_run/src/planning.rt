//! The run of a plan: what its workers share is made here, and what they send goes to a taker.
ghost use Rattle.std.specs.Prelude.{◌≡◌, true};
ghost use Rattle.plinq_crew.specs.Equipped.{IsReady};
ghost use Rattle.plinq_run.specs.inner.Conducted.{MayConduct, HasRunCrew, HasConducted};

use crate::accepting::{Merging, MergingInto};
use crate::kept_memory::keep_memory;
use crate::reporting::finish;
use crate::run_ahead::{most_by_clock, progress_of};
use crate::run_fault::RunFault;
use crate::run_request::RunRequest;
use crate::run_types::RunTypes;
use plinq_crew::{Crew, ResultStream, RunSpec, RunStopKeys, Task, WorkerContext, conduct};
use plinq_cut::CutWord;
use plinq_merge::{Joined, Joiner, TakeInto, Taker};
use plinq_partition::{Chunked, Partition};
use plinq_source::Source;
use std::sync::Wait;
use std::thread::Threads;

/// How many results the queue has room for.
const ROOM: usize = 256;

/// What is left of a run that has an answer: the partitions, what has taken the answer's items and how it ended.
#[derive(Drop)]
pub(crate) struct Ended<S: Source, W> {
    pub(crate) partitions: Vec<Partition<S>>,
    pub(crate) joined: Joined<W>,
}

/// A run that has an answer, and the source that its partitions have shared.
#[derive(Drop)]
pub(crate) struct Conducted<S: Source, W> {
    pub(crate) chunked: Chunked<S>,
    pub(crate) ended: Ended<S, W>,
}

/// Runs a crew, and gives what it sends to this taker.
fn run_crew<'x, Q: RunTypes, J, P: Task<Q::Item>, W, O, R: Threads + Wait + Sync>(
    rt: &'x R,
    crew: &'x Crew<'x, Q::Lambda, Q::Source, J, P>,
    context: WorkerContext<Q::Source, P::Part>,
    taker: W,
    out: &mut O,
) -> Result<Ended<Q::Source, W>, RunFault>
where
    J: RunSpec<P::Part> + Send + Sync,
    W: Taker<Item = <P as Task<Q::Item>>::Part> + TakeInto<O>,
    requires ready { IsReady Q.Lambda.meaning P.makes J.is_result J.stops_at crew.now context }
    requires takes { W.can_take taker ≡ true }
    ensures { HasRunCrew W.made J.is_result crew.now context taker out.old result out.new }
{
    let mut merging = Merging {
        joiner: Joiner::new(crew.alloc, crew.plan.order, taker),
        fault: None,
    };
    let mut into = MergingInto {
        merging: &mut merging,
        out,
    };
    let Ok(back) = conduct(rt, crew, context, &mut into) else {
        return Err(RunFault::Memory);
    };
    finish(merging, back)
}

impl<'x, Q: RunTypes> RunRequest<'x, Q> {
    /// Runs the plan, which isn't decided: workers do this task, and what they send goes to this taker.
    pub(crate) fn conduct_plan<J, P: Task<Q::Item>, W, O, R: Threads + Wait + Sync>(
        self,
        rt: &'x R,
        task: &'x P,
        taker: W,
        out: &mut O,
    ) -> Result<Conducted<Q::Source, W>, RunFault>
    where
        J: RunSpec<P::Part> + Send + Sync,
        W: Taker<Item = <P as Task<Q::Item>>::Part> + TakeInto<O>,
        requires may { MayConduct Q.Source.given Q.Source.whole Q.Lambda.meaning (P.makes task.now) J.is_result J.stops_at self }
        requires takes { W.can_take taker ≡ true }
        ensures { HasConducted W.made J.is_result self.entry.plan.now.order (Q.Source.whole self.entry.source) taker out.old result out.new }
    {
        let RunRequest {
            alloc,
            plan,
            workers,
            source,
            growth,
            gate,
        } = self;
        keep_memory(alloc);
        let chosen = most_by_clock::<Q::Item, Q::Lambda, Q::Gate>(gate, plan);
        let largest = chosen.unwrap_or(growth.size(u64::MAX));
        let progress = progress_of::<Q::Item, Q::Gate, R>(rt, gate, plan.order, workers, largest);
        let Ok((cut, cut_pass)) = CutWord::<RunStopKeys<P::Part, J>>::new(alloc, plan, &source)
        else {
            return Err(RunFault::Memory);
        };
        let Ok((chunked, partition)) = Chunked::new(alloc, source, growth) else {
            return Err(RunFault::Memory);
        };
        let Ok((stream, pass)) = ResultStream::<P::Part, J>::new(alloc, ROOM) else {
            return Err(RunFault::Memory);
        };
        let crew = Crew {
            alloc,
            plan,
            chunked: &chunked,
            stream: &stream,
            cut: &cut,
            task,
            progress: &progress,
            workers,
            chosen,
        };
        let context = WorkerContext {
            partition,
            stream: pass,
            cut: cut_pass,
        };
        match run_crew::<Q, _, _, _, _, _>(rt, &crew, context, taker, out) {
            Ok(ended) => Ok(Conducted { chunked, ended }),
            Err(fault) => Err(fault),
        }
    }
}
