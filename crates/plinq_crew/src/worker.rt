//! What a worker does: it takes chunks until one has a tail, and sends their results.
ghost use Rattle.std.specs.Prelude.{◌≡◌, ◌≤◌, All, IfOk, IfErr};
ghost use Rattle.plinq_cut.specs.Passes.{IsPassOf as IsCutPassOf};
ghost use Rattle.plinq_ops.specs.declared.results.ChunkResult.{ChunkResult};
ghost use Rattle.plinq_partition.specs.Partitions.{IsPartitionOf, holding_of};
ghost use Rattle.plinq_crew.specs.Equipped.{IsEquipped};
ghost use Rattle.plinq_crew.specs.inner.Taking.{MayTakeNext, IsNextPart};
ghost use Rattle.plinq_crew.specs.Results.{IsPart};
ghost use Rattle.plinq_crew.specs.Working.{IsNewcomer, HasWorked, HasLeft};
ghost use Rattle.plinq_stream.specs.Passes.{IsPassOf, knowledge_of};

use crate::pace::Pace;
use crate::progress::Progress;
use crate::result_stream::{ResultPass, ResultStream, RunSpec, RunStopKeys};
use crate::task::Task;
use plinq_cut::{CutPass, CutWord, cut_now, cut_off};
use plinq_lambda::Lambda;
use plinq_ops::{ChunkResult, FragEnd, Op, Order, Plan};
use plinq_partition::{Chunked, Partition, TakeFault};
use plinq_source::Source;
use std::alloc::Global;
use std::sync::Wait;

/// Where a worker stands whose last result is this one: after its keys, or after all keys where the run ends within them or
/// before, so that by key it takes nothing more until the source is closed.
fn next_place<T>(made: &ChunkResult<T>) -> u64 {
    match made.ending {
        FragEnd::More => made.first.saturating_add(made.count),
        _ => u64::MAX,
    }
}

/// Whether the answer is decided once all up to this result is merged: by key the run ends in it, or it fills the Take that
/// comes first after the merge.
fn is_enough<L, T>(plan: &Plan<'_, L>, made: &ChunkResult<T>) -> bool {
    match (made.ending, plan.after.first()) {
        (FragEnd::More, Some(Op::Take(most))) => made.items.len() as u64 >= most.unsigned_abs(),
        (FragEnd::More, _) => false,
        _ => plan.order == Order::ByKey,
    }
}

/// What a worker brings back: its partition and its pass of the stream, and why it ended before it saw a tail, if it did.
#[derive(Drop)]
pub(crate) struct Worked<S: Source, M> {
    pub(crate) partition: Partition<S>,
    pub(crate) stream: ResultPass<M>,
    pub(crate) fault: Option<TakeFault>,
}

/// What a thread of a run has of its own: a partition, and a pass of the stream and of the cut.
#[derive(Drop)]
pub struct WorkerContext<S: Source, M> {
    pub partition: Partition<S>,
    pub stream: ResultPass<M>,
    pub cut: CutPass,
}

/// What the workers of a run share.
#[derive(Drop)]
pub struct Crew<'a, L: Lambda, S: Source, J: RunSpec<P::Part>, P: Task<L::Item>> {
    pub alloc: Global,
    pub plan: &'a Plan<'a, L>,
    pub chunked: &'a Chunked<S>,
    pub stream: &'a ResultStream<P::Part, J>,
    pub cut: &'a CutWord<RunStopKeys<P::Part, J>>,
    pub task: &'a P,
    pub progress: &'a Progress,
    pub workers: u64,
    /// The most items of a chunk whose size a worker chooses by a clock, or none if the growth says how large chunks are.
    pub chosen: Option<u64>,
}

/// What the closure of a thread captures. (It is one value, since each that is captured or named makes the closure's proof
/// longer.)
#[derive(Drop)]
pub(crate) struct Equipment<'a, L: Lambda, S: Source, J: RunSpec<P::Part>, P: Task<L::Item>, R> {
    pub(crate) rt: &'a R,
    pub(crate) crew: &'a Crew<'a, L, S, J, P>,
    pub(crate) context: WorkerContext<S, P::Part>,
}

impl<'a, L, S, J, P> Crew<'a, L, S, J, P>
where
    L: Lambda,
    S: Source<Item = L::Item>,
    J: RunSpec<P::Part>,
    P: Task<L::Item>,
{
    /// How many items the next chunk has: as many as the worker's pace says if it chooses by a clock, else as many as the growth says.
    fn size_of_next(&self, partition: &Partition<S>, pace: &Pace, time: Option<u64>) -> u64
        ensures least { 1 ≤ result }
        ensures most { result ≤ 65536 }
    {
        match (self.chosen, time) {
            (Some(most), Some(_)) => pace.size(most),
            _ => partition.next_size(self.chunked),
        }
    }

    /// Takes the next chunk, and gives what is sent of its result under the cut that all share, which it lowers if the run
    /// ends.
    fn next_result<R: Wait>(
        &self,
        rt: &R,
        worker: u64,
        partition: &mut Partition<S>,
        pass: &mut CutPass,
        pace: &mut Pace,
    ) -> Result<ChunkResult<P::Part>, TakeFault>
        requires { MayTakeNext L.meaning J.stops_at self.now partition.old pass.old }
        ensures of { IsPartitionOf self.now.chunked.now partition.new }
        ensures origin { (holding_of partition.new).origin ≡ (holding_of partition.old).origin }
        ensures cut { IsCutPassOf self.now.cut.now pass.new }
        ensures next { IfOk result (IsNextPart L.meaning (P.makes self.now.task.now) self.now.plan.now (holding_of partition.old) (holding_of partition.new)) }
        ensures left { IfErr result (λ fault. HasLeft (holding_of partition.old).share (holding_of partition.new).share) }
    {
        self.task.before_take(worker);
        let began = self.task.nanoseconds();
        let size = self.size_of_next(partition, pace, began);
        let chunk = partition.take_up_to(rt, self.chunked, size)?;
        self.progress.note_taken(chunk.tail.is_some());
        self.task.after_chunk(worker, chunk.first);
        let cut = cut_now(self.plan, self.cut, pass);
        let part = self.task.work(self.alloc, self.plan, &chunk, cut)?;
        partition.reuse(chunk.items);
        cut_off(self.plan, self.cut, pass, &part);
        pace.note(size, began, self.task.nanoseconds());
        Ok(part)
    }

    /// Takes chunks and sends their results, until one has a tail.
    pub(crate) fn work<R: Wait>(
        &self,
        rt: &R,
        worker: u64,
        context: WorkerContext<S, P::Part>,
    ) -> Worked<S, P::Part>
        requires new { IsNewcomer self.now.stream.now worker context.partition context.stream }
        requires equipped { IsEquipped L.meaning (P.makes self.now.task.now) J.is_result J.stops_at self.now.plan.now
            self.now.chunked.now self.now.cut.now context.partition context.cut }
        ensures of { IsPartitionOf self.now.chunked.now result.partition }
        ensures origin { (holding_of result.partition).origin ≡ (holding_of context.partition).origin }
        ensures stream { IsPassOf self.now.stream.now result.stream }
        ensures worked { HasWorked worker (holding_of result.partition).share result.fault (knowledge_of result.stream) }
        ensures results { All (λ s. IsPart L.meaning (P.makes self.now.task.now) self.now.plan.now (holding_of context.partition).origin s.item)
            (knowledge_of result.stream).sent }
    {
        let WorkerContext {
            mut partition,
            mut stream,
            mut cut,
        } = context;
        let mut pace = Pace::new(self.workers);
        for _ in rt.forever() {
            match self.next_result(rt, worker, &mut partition, &mut cut, &mut pace) {
                Ok(made) => {
                    let is_last = made.tail.is_some();
                    let place = next_place(&made);
                    if is_enough(self.plan, &made) {
                        self.progress.window.hold_all();
                    }
                    self.progress.count_in(made.items.len() as u64);
                    self.stream.send(rt, &mut stream, worker, made);
                    self.progress.tell();
                    if is_last {
                        self.progress.end();
                        return Worked {
                            partition,
                            stream,
                            fault: None,
                        };
                    }
                    self.progress.window.wait_until_within(rt, place);
                }
                Err(fault) => {
                    self.progress.fail();
                    self.progress.end();
                    return Worked {
                        partition,
                        stream,
                        fault: Some(fault),
                    };
                }
            }
        }
        unreachable!()
    }
}
