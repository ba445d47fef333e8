//! The caller's thread among its workers: it passes what they send to a consumer, and closes the source in time.
ghost use Rattle.std.specs.Prelude.{◌≡◌, ◌≤◌, ◌^◌, true, false};
ghost use Rattle.plinq_ops.specs.declared.results.ChunkResult.{ChunkResult};
ghost use Rattle.plinq_ops.specs.Tails.{end_of_result};
ghost use Rattle.plinq_partition.specs.Partitions.{IsPartitionOf, holding_of};
ghost use Rattle.plinq_crew.specs.Noted.{has_worker_fault};
ghost use Rattle.plinq_crew.specs.Polls.{IfCame, HasCome};
ghost use Rattle.plinq_stream.specs.Passes.{IsPassOf, knowledge_of};
ghost use Rattle.plinq_crew.specs.inner.Closing.{is_closed};
ghost use Rattle.plinq_crew.specs.inner.Coordinating.{IsCoordinator, StaysSame, ClosesInTime, ClosesAtLast, AcceptsMore, AcceptsRest};

use crate::closing::Closing;
use crate::consumer::Consumer;
use crate::poll::Poll;
use crate::result_stream::{ResultPass, RunSpec};
use crate::starting::WorkerFaults;
use crate::task::Task;
use crate::worker::Crew;
use crate::worker_count::WorkerCount;
use crossbeam_utils::sync::Key;
use plinq_lambda::Lambda;
use plinq_partition::Partition;
use plinq_source::Source;
use plinq_wait::Patience;
use std::sync::Wait;

/// What the caller's thread has of its own while workers send.
#[derive(Drop)]
pub(crate) struct Coordinator<S: Source, M> {
    pub(crate) partition: Partition<S>,
    pub(crate) stream: ResultPass<M>,
    pub(crate) worker_count: WorkerCount,
    pub(crate) worker_faults: WorkerFaults,
    pub(crate) patience: Patience,
}

impl<S: Source, M: Drop> Coordinator<S, M> {
    /// No worker was started yet.
    pub(crate) fn new(partition: Partition<S>, stream: ResultPass<M>) -> Coordinator<S, M>
        ensures partition { result.partition ≡ partition }
        ensures stream { result.stream ≡ stream }
        ensures started { result.worker_count.started ≡ 0 }
        ensures wanted { result.worker_count.wanted ≡ 0 }
        ensures none { has_worker_fault result.worker_faults ≡ false }
    {
        Coordinator {
            partition,
            stream,
            worker_count: WorkerCount {
                wanted: 0,
                started: 0,
            },
            worker_faults: WorkerFaults::none(),
            patience: Patience::new(),
        }
    }

    /// Spins for a moment, or sleeps, if nothing was there at a poll.
    pub(crate) fn wait<R: Wait>(&self, rt: &R, sleep: Option<Key<'_>>) {
        match sleep {
            Some(sleep) => {
                sleep.wait(rt);
                self.patience.reset();
            }
            None => self.patience.spin(),
        }
    }
}

/// Tells the consumer that nothing comes for now, if the thread is about to sleep. A moment's lack is not worth what it does
/// then: a buffer that is flushed after each result writes too little at a time.
fn tell_before_sleep<M, X: Consumer<M>>(consumer: &mut X, sleeps: bool)
    ensures { consumer.new ≡ consumer.old }
{
    if sleeps {
        consumer.idle();
    }
}

impl<'s, L, S, J, P> Crew<'s, L, S, J, P>
where
    L: Lambda,
    S: Source<Item = L::Item>,
    J: RunSpec<P::Part>,
    P: Task<L::Item>,
{
    /// Closes the source once nothing more is wanted: the answer is decided, or there was a fault. Workers that wait are let
    /// on after that, so that they take nothing more. If there is no memory to close it, it is tried again at the next
    /// poll.
    fn close_in_time<R: Wait>(
        &self,
        rt: &R,
        coordinator: &mut Coordinator<S, P::Part>,
        is_over: bool,
        closing: &mut Closing,
    )
        requires of { IsPartitionOf self.now.chunked.now coordinator.old.partition }
        ensures of { IsPartitionOf self.now.chunked.now coordinator.new.partition }
        ensures origin { (holding_of coordinator.new.partition).origin ≡ (holding_of coordinator.old.partition).origin }
        ensures stream { coordinator.new.stream ≡ coordinator.old.stream }
        ensures worker_count { coordinator.new.worker_count ≡ coordinator.old.worker_count }
        ensures closes { ClosesInTime is_over closing.old coordinator.old closing.new coordinator.new }
    {
        if closing.is_closed() {
            return;
        }
        let is_whole = coordinator.worker_count.started == coordinator.worker_count.wanted
            && !self.progress.has_failed();
        if is_whole && !closing.wants_close() && !is_over {
            return;
        }
        *closing = Closing::Wanted;
        match coordinator.partition.stop(rt, self.chunked) {
            Ok(()) => *closing = Closing::Closed,
            Err(fault) => coordinator.worker_faults.note(fault),
        }
        self.progress.window.let_all_on();
    }

    /// Closes the source if no poll has: what is accepted once workers were joined may be what decides the answer.
    pub(crate) fn close_at_last<R: Wait>(
        &self,
        rt: &R,
        coordinator: &mut Coordinator<S, P::Part>,
        closing: Closing,
    )
        requires coordinator { IsCoordinator self.now.chunked.now self.now.stream.now coordinator.old }
        ensures coordinator { IsCoordinator self.now.chunked.now self.now.stream.now coordinator.new }
        ensures closes { ClosesAtLast closing coordinator.old coordinator.new }
    {
        if closing.is_closed() {
            return;
        }
        if let Err(fault) = coordinator.partition.stop(rt, self.chunked) {
            coordinator.worker_faults.note(fault);
        }
    }

    /// The next result that a worker has sent. If none comes for a while, the thread is to sleep until something is
    /// reported, so that it takes no processor from a worker.
    fn poll<R: Wait>(
        &self,
        rt: &R,
        coordinator: &mut Coordinator<S, P::Part>,
        is_over: bool,
        closing: &mut Closing,
    ) -> Poll<'s, P::Part>
        requires coordinator { IsCoordinator self.now.chunked.now self.now.stream.now coordinator.old }
        ensures coordinator { IsCoordinator self.now.chunked.now self.now.stream.now coordinator.new }
        ensures same { StaysSame coordinator.old coordinator.new }
        ensures carried { IfCame result J.is_result }
        ensures received { HasCome (knowledge_of coordinator.old.stream) result (knowledge_of coordinator.new.stream) }
        ensures closes { ClosesInTime is_over closing.old coordinator.old closing.new coordinator.new }
    {
        let sleep = if coordinator.patience.is_over() {
            Some(self.progress.announce_sleep())
        } else {
            None
        };
        let have_ended = self.progress.have_ended(coordinator.worker_count.started);
        self.close_in_time(rt, coordinator, is_over, closing);
        match self.stream.try_receive(&mut coordinator.stream) {
            Some(sent) => {
                coordinator.patience.reset();
                Poll::Came(sent.item)
            }
            None => {
                if have_ended {
                    return Poll::Over;
                }
                Poll::Nothing(sleep)
            }
        }
    }

    /// Whether more workers are wanted now than when some were last started.
    fn wants_more(&self, worker_count: WorkerCount) -> bool {
        worker_count.wanted < self.workers.min(self.progress.wanted())
    }

    /// Accepts what the workers send, until all have ended and nothing seems to be left in the queue, or more workers are wanted:
    /// says whether they are. If they aren't, the source is closed if the consumer is over, unless a worker's fault stands
    /// noted.
    pub(crate) fn accept_some<X: Consumer<P::Part>, R: Wait>(
        &self,
        rt: &R,
        coordinator: &mut Coordinator<S, P::Part>,
        closing: &mut Closing,
        consumer: &mut X,
    ) -> bool
        requires coordinator { IsCoordinator self.now.chunked.now self.now.stream.now coordinator.old }
        requires within { (c : ChunkResult P.Part) → J.is_result c → end_of_result c ≤ 2 ^ 40 }
        requires ready { X.is_ready consumer.old }
        ensures coordinator { IsCoordinator self.now.chunked.now self.now.stream.now coordinator.new }
        ensures over { result ≡ false → X.wants_no_more consumer.new ≡ true → is_closed closing.new ≡ false
            → has_worker_fault coordinator.new.worker_faults ≡ true }
        ensures more { AcceptsMore X.is_ready X.accepts J.is_result coordinator.old closing.old consumer.old coordinator.new closing.new consumer.new }
    {
        for _ in rt.forever() {
            let is_over = consumer.is_over();
            match self.poll(rt, coordinator, is_over, closing) {
                Poll::Came(part) => {
                    if !closing.wants_close() {
                        consumer.accept(part);
                        self.progress
                            .window
                            .move_to(consumer.next_key(), consumer.merged_items());
                    }
                }
                Poll::Nothing(sleep) => {
                    tell_before_sleep::<P::Part, X>(consumer, sleep.is_some());
                    if !closing.wants_close() && self.wants_more(coordinator.worker_count) {
                        return true;
                    }
                    coordinator.wait(rt, sleep);
                }
                Poll::Over => return false,
            }
        }
        unreachable!()
    }

    /// Accepts what is left once all workers were joined, until the queue is empty.
    pub(crate) fn accept_rest<X: Consumer<P::Part>, R: Wait>(
        &self,
        rt: &R,
        pass: &mut ResultPass<P::Part>,
        closing: Closing,
        consumer: &mut X,
    )
        requires stream { IsPassOf self.now.stream.now pass.old }
        requires receives { (knowledge_of pass.old).receives ≡ true }
        requires within { (c : ChunkResult P.Part) → J.is_result c → end_of_result c ≤ 2 ^ 40 }
        requires ready { X.is_ready consumer.old }
        ensures { AcceptsRest X.accepts J.is_result self.now.stream.now closing pass.old consumer.old pass.new consumer.new }
    {
        for _ in rt.forever() {
            match self.stream.receive(rt, pass) {
                Some(sent) => {
                    if !closing.wants_close() {
                        consumer.accept(sent.item);
                    }
                }
                None => return,
            }
        }
    }
}
