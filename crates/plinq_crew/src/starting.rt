//! Starting the workers of a run, passing on what they send, and having them back.
ghost use Rattle.std.specs.Prelude.{◌≡◌, ◌≤◌, true, false, not, ◌||◌, IfSome};
ghost use Rattle.plinq_partition.specs.Partitions.{holding_of};
ghost use Rattle.plinq_crew.specs.Conducting.{Conducts};
ghost use Rattle.plinq_crew.specs.Equipped.{IsEquipped, IsReady};
ghost use Rattle.plinq_crew.specs.Noted.{lacks_room, has_worker_fault, has_noted, StaysNoted};
ghost use Rattle.plinq_crew.specs.inner.Handles.{IsHandleOf};
ghost use Rattle.plinq_crew.specs.inner.Joining.{MayJoin, HasJoined};
ghost use Rattle.plinq_crew.specs.Working.{IsNewcomer};
ghost use Rattle.plinq_stream.specs.Passes.{knowledge_of};
ghost use Rattle.plinq_crew.specs.inner.Coordinating.{CanStart};
ghost use Rattle.plinq_crew.specs.inner.Scoped.{MayWork, WorkReturns};

use crate::closing::Closing;
use crate::conducting::Returned;
use crate::consumer::Consumer;
use crate::coordinator::Coordinator;
use crate::handle::{WorkerHandle, WorkerPromise};
use crate::result_stream::{ResultPass, RunSpec};
use crate::task::Task;
use crate::worker::{Crew, Equipment, Worked, WorkerContext};
use crate::worker_count::WorkerCount;
use plinq_cut::CutPass;
use plinq_lambda::Lambda;
use plinq_partition::{Partition, TakeFault};
use plinq_source::{OutOfMemory, Source};
use std::snapshot::Snapshot;
use std::sync::Wait;
use std::thread::{Scope, Threads};

/// The workers that were started, and the pass of the cut of which each has got one.
#[derive(Drop)]
pub(crate) struct Team<S: Source, M> {
    pub(crate) handles: Vec<WorkerHandle<S, M>>,
    pub(crate) cut: CutPass,
}

impl<'s, L, S, J, P> Crew<'s, L, S, J, P>
where
    L: Lambda<Item: Send> + Sync,
    S: Source<Item = L::Item>,
    J: RunSpec<P::Part> + Send + Sync,
    P: Task<L::Item>,
{
    /// Starts one worker, unless no thread can be had. The scope makes the thread; the worker needs `rt` only to wait.
    fn start<Env, R: Wait + Sync>(
        &'s self,
        scope: &Scope<'s, Env>,
        rt: &'s R,
        worker: u64,
        context: WorkerContext<S, P::Part>,
    ) -> Option<WorkerHandle<S, P::Part>>
        requires new { IsNewcomer self.now.stream.now worker context.partition context.stream }
        requires equipped { IsEquipped L.meaning (P.makes self.now.task.now) J.is_result J.stops_at self.now.plan.now
            self.now.chunked.now self.now.cut.now context.partition context.cut }
        ensures handle { IfSome result (IsHandleOf self.now.chunked.now self.now.stream.now) }
        ensures number { IfSome result (λ handle. handle.promise.number ≡ worker) }
    {
        let promise = WorkerPromise {
            chunked: Snapshot::of(self.chunked),
            given: Snapshot::of(&context.stream),
            number: worker,
        };
        let crew = self;
        let taken = (Equipment { rt, crew, context }, worker);
        let handle = scope.spawn_with(
            promise,
            move || -> Worked<S, P::Part>
                requires { MayWork L.meaning P.makes J.is_result J.stops_at taken.0 taken.1 }
                ensures { WorkReturns taken.entry.0 taken.entry.1 result }
            {
                let (equipment, worker) = taken;
                let Equipment { rt, crew, context } = equipment;
                crew.work(rt, worker, context)
            },
        );
        handle.ok()
    }

    /// Starts as many workers as are wanted by now, at least one, each with a new partition beside the caller's thread's own and a
    /// number of its own, or as many as there are threads to be had. If one was missing before, none is started.
    fn start_wanted<Env, R: Wait + Sync>(
        &'s self,
        scope: &Scope<'s, Env>,
        rt: &'s R,
        coordinator: &mut Coordinator<S, P::Part>,
        team: &mut Team<S, P::Part>,
    )
        requires may { CanStart L.meaning P.makes J.is_result J.stops_at self.now coordinator.old team.old }
        ensures may { CanStart L.meaning P.makes J.is_result J.stops_at self.now coordinator.new team.new }
        ensures same { holding_of coordinator.new.partition ≡ holding_of coordinator.old.partition }
        ensures received { (knowledge_of coordinator.new.stream).received ≡ (knowledge_of coordinator.old.stream).received }
        ensures wanted { 1 ≤ coordinator.new.worker_count.wanted }
    {
        let WorkerCount { wanted, started } = coordinator.worker_count;
        if started != wanted {
            return;
        }
        let goal = self.workers.min(wanted.max(self.progress.wanted()).max(1));
        coordinator.worker_count.wanted = goal;
        for worker in started..goal {
            let theirs = WorkerContext {
                partition: self.chunked.dynamic(&mut coordinator.partition),
                stream: self.stream.give_number(&mut coordinator.stream),
                cut: self.cut.split(&mut team.cut),
            };
            let Some(handle) = self.start(scope, rt, worker, theirs) else {
                return;
            };
            team.handles.push_reserved(handle);
            coordinator.worker_count.started = worker + 1;
        }
    }

    /// Joins the workers. Their partitions come after the one that is given, and their passes are taken in.
    fn join_all<R: Threads>(
        &self,
        rt: &R,
        first: Partition<S>,
        pass: &mut ResultPass<P::Part>,
        handles: Vec<WorkerHandle<S, P::Part>>,
        room: Vec<Partition<S>>,
        worker_faults: &mut WorkerFaults,
    ) -> Vec<Partition<S>>
        requires { MayJoin self.now first pass.old handles.items room }
        ensures { HasJoined self.now first pass.old handles.items worker_faults.old 0 pass.new worker_faults.new result.items }
    {
        let mut handles = handles;
        let mut partitions = room;
        partitions.push_reserved(first);
        while let Some(handle) = handles.pop() {
            let worked = handle.join(rt);
            worker_faults.note_any(worked.fault);
            self.stream.join(pass, worked.stream);
            partitions.push_reserved(worked.partition);
        }
        partitions
    }

    /// Starts the workers, passes what they send to the consumer, and joins them.
    pub(crate) fn conduct_within<Env, X: Consumer<P::Part>, R: Threads + Wait + Sync>(
        &'s self,
        scope: &Scope<'s, Env>,
        rt: &'s R,
        context: WorkerContext<S, P::Part>,
        consumer: &mut X,
    ) -> Result<Returned<S>, OutOfMemory>
        requires ready { IsReady L.meaning P.makes J.is_result J.stops_at self.now context }
        requires consumer { X.is_ready consumer.old }
        ensures { Conducts X.accepts J.is_result self.now context consumer.old consumer.new result }
    {
        let Ok(handles) = Vec::with_capacity(self.alloc, self.workers as usize) else {
            return Err(OutOfMemory);
        };
        let Ok(room) = Vec::with_capacity(self.alloc, self.workers as usize + 1) else {
            return Err(OutOfMemory);
        };
        let WorkerContext {
            partition,
            stream,
            cut,
        } = context;
        let mut coordinator = Coordinator::new(partition, stream);
        let mut team = Team { handles, cut };
        let mut closing = Closing::Open;
        for _ in rt.forever() {
            self.start_wanted(scope, rt, &mut coordinator, &mut team);
            if !self.accept_some(rt, &mut coordinator, &mut closing, consumer) {
                break;
            }
        }
        self.close_at_last(rt, &mut coordinator, closing);
        let Team { handles, .. } = team;
        let Coordinator {
            partition,
            mut stream,
            worker_count,
            mut worker_faults,
            ..
        } = coordinator;
        let partitions = self.join_all(
            rt,
            partition,
            &mut stream,
            handles,
            room,
            &mut worker_faults,
        );
        self.accept_rest(rt, &mut stream, closing, consumer);
        Ok(Returned {
            partitions,
            worker_faults,
            worker_count,
        })
    }
}

/// Why workers ended before they saw a tail.
#[derive(Clone, Copy)]
pub struct WorkerFaults {
    pub memory: bool,
    pub tickets: bool,
}

impl WorkerFaults {
    pub(crate) fn none() -> WorkerFaults
        ensures { has_worker_fault result ≡ false }
    {
        WorkerFaults {
            memory: false,
            tickets: false,
        }
    }

    pub(crate) fn note(&mut self, fault: TakeFault)
        ensures memory { self.new.memory ≡ (self.old.memory || lacks_room fault) }
        ensures tickets { self.new.tickets ≡ (self.old.tickets || not (lacks_room fault)) }
        ensures kept { StaysNoted self.old self.new }
        ensures noted { has_noted self.new fault ≡ true }
    {
        match fault {
            TakeFault::Memory => self.memory = true,
            _ => self.tickets = true,
        }
    }

    /// Notes a worker's fault, if it had one.
    fn note_any(&mut self, fault: Option<TakeFault>)
        ensures kept { StaysNoted self.old self.new }
        ensures noted { IfSome fault (λ f. has_noted self.new f ≡ true) }
    {
        if let Some(fault) = fault {
            self.note(fault);
        }
    }
}
