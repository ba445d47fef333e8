ghost use Rattle.std.specs.Prelude.{◌≡◌, ◌≤◌, ◌++◌, true, false, Some, None, IfOk, IfErr};
ghost use Rattle.plinq_keyed.specs.Keys.{keyed_from, element_lists};
ghost use Rattle.plinq_partition.specs.Cuts.{cuts};
ghost use Rattle.plinq_source.specs.Trace.{ended_trace};
ghost use Rattle.plinq_cli.specs.ServeFaults.{MayFail, told_of, told_of_one};
ghost use Rattle.plinq_lines.specs.AggregateText.{told_value};
ghost use Rattle.plinq_lines.specs.Written.{Writes};
ghost use Rattle.plinq_cli.specs.Told.{last_line};
ghost use Rattle.plinq_cli.specs.Served.{Delivers, LeavesWholeLines, Serves};
ghost use Rattle.plinq_cli.specs.inner.WrittenAnswer.{HasWrittenAnswer};
ghost use Rattle.plinq_cli.specs.inner.StoppedRun.{Leaves};
ghost use Rattle.plinq_lambda.specs.Formula.{formula_meaning};
ghost use Rattle.plinq_ops.specs.Answer.{MayAnswer};
ghost use Rattle.plinq_ops.specs.Query.{merge_in_force};

use crate::aggregate_values::{value_by_one, value_by_threads};
use crate::rounds::{drive_partitions, told_ending};
use crate::serve_fault::ServeFault;
use plinq_arguments::Command;
use plinq_document::{AnySource, Job, Kind};
use plinq_enumerator::Growth;
use plinq_keyed::{Guarded, Keyed};
use plinq_lambda::Formula;
use plinq_lines::{
    LineSink, WriteFault, write_ending, write_history, write_parts, write_plan, write_value,
};
use plinq_merge::{CancelAfter, DeliveryFault, Sink, deliver_in_blocks};
use plinq_ops::{Query, sequential};
use plinq_partition::{OrderablePartitioner, RangeParts};
use plinq_run::{AggregateFault, Report, RunFault, TimedGate, run, run_with};
use plinq_source::{Ending, OutOfMemory, Source};
use std::alloc::Global;
use std::io::Write;
use std::sync::Wait;
use std::thread::Threads;
use std::time::Clock;

/// Answers a document's job as the command asks, and writes the lines of the answer.
///
/// After a fault what was written is a beginning of these lines; how long it is isn't said, but that a run that broke off
/// leaves whole lines.
///
/// ```text
/// let job = read_document(rt.alloc(), document, settings)?;
/// let ending = serve(&rt, Command::Run, job, &mut out)?;
/// ```
///
/// # Errors
///
/// [`ServeFault::Memory`] if `seq`, `parts` or `history` have no memory for the answer. [`ServeFault::Write`] if the
/// writer answers an error, also in a flush while nothing comes, or takes none of the bytes that it is given.
/// [`ServeFault::Run`] if a run breaks off for another cause, also if memory runs out, and the writer hasn't failed
/// before. [`ServeFault::Take`] if the partitions of a history don't get through for another cause than that.
pub fn serve<R, W>(rt: &R, command: Command, job: Job, writer: &mut W) -> Result<Ending, ServeFault>
where
    R: AllocGlobal + Clock + Threads + Wait + Sync,
    W: Write,
    ensures written { Serves false command job (W.contents writer.old) (W.contents writer.new) result }
    ensures whole { command ≡ Command.Run → LeavesWholeLines false job (W.contents writer.old) (W.contents writer.new) result }
    ensures faults { IfErr result (MayFail command) }
{
    serve_as(rt, command, false, job, writer)
}

/// Answers a document's job as [`serve`] does, but writes no line of an ending for `run` and `seq`: elements alone, or the
/// value of an aggregate. How the answer ended is returned.
///
/// ```text
/// let ending = serve_plain(&rt, Command::Run, job, &mut out)?; // 4, 2, 5
/// ```
///
/// # Errors
///
/// As of [`serve`].
pub fn serve_plain<R, W>(
    rt: &R,
    command: Command,
    job: Job,
    writer: &mut W,
) -> Result<Ending, ServeFault>
where
    R: AllocGlobal + Clock + Threads + Wait + Sync,
    W: Write,
    ensures written { Serves true command job (W.contents writer.old) (W.contents writer.new) result }
    ensures whole { command ≡ Command.Run → LeavesWholeLines true job (W.contents writer.old) (W.contents writer.new) result }
    ensures faults { IfErr result (MayFail command) }
{
    serve_as(rt, command, true, job, writer)
}

/// Answers a job as the command asks, plain or not.
pub(crate) fn serve_as<R, W>(
    rt: &R,
    command: Command,
    plain: bool,
    job: Job,
    writer: &mut W,
) -> Result<Ending, ServeFault>
where
    R: AllocGlobal + Clock + Threads + Wait + Sync,
    W: Write,
    ensures written { Serves plain command job (W.contents writer.old) (W.contents writer.new) result }
    ensures whole { command ≡ Command.Run → LeavesWholeLines plain job (W.contents writer.old) (W.contents writer.new) result }
    ensures faults { IfErr result (MayFail command) }
{
    let alloc = rt.alloc();
    match command {
        Command::Run => match job.aggregate {
            None => serve_batches(rt, plain, job, writer),
            Some(kind) => serve_value(rt, plain, job, kind, writer),
        },
        Command::Seq => match job.aggregate {
            None => serve_items(alloc, plain, job, writer),
            Some(kind) => serve_fold(alloc, plain, job, kind, writer),
        },
        Command::Plan => serve_plan(&job, writer),
        Command::Parts => serve_parts(alloc, job, writer),
        Command::History => serve_history(alloc, job, writer),
    }
}

/// Runs a job's query, and writes each batch as it is delivered.
fn serve_batches<R, W>(rt: &R, plain: bool, job: Job, writer: &mut W) -> Result<Ending, ServeFault>
where
    R: AllocGlobal + Clock + Threads + Wait + Sync,
    W: Write,
    requires items { job.aggregate ≡ None }
    ensures written { Serves plain Command.Run job (W.contents writer.old) (W.contents writer.new) result }
    ensures whole { LeavesWholeLines plain job (W.contents writer.old) (W.contents writer.new) result }
    ensures faults { IfErr result (MayFail Command.Run) }
{
    let Job {
        query,
        source,
        growth,
        has_growth,
        cancel_after,
        ..
    } = job;
    let gate = gate_of(rt, has_growth);
    let (ended, _writer) = run_lines(rt, &query, source, growth, &gate, cancel_after, writer);
    let ending = ended?;
    write_last(writer, plain, ending)?;
    Ok(ending)
}

/// The gate of a run: one with a clock, unless the document says how its chunks grow.
fn gate_of<'a, R>(rt: &'a R, has_growth: bool) -> TimedGate<'a, R> {
    if has_growth {
        return TimedGate::untimed();
    }
    TimedGate::new(rt)
}

/// Writes the line of an answer's ending, unless the answer is plain.
fn write_last<W: Write>(writer: &mut W, plain: bool, ending: Ending) -> Result<(), WriteFault>
    ensures { Writes (W.contents writer.old) (W.contents writer.new) result (last_line plain (Some ending)) }
{
    if plain {
        return Ok(());
    }
    write_ending(writer, ending)
}

/// Writes an aggregated answer: its value if it ended well, and its ending, unless it is plain.
fn write_told<W: Write>(
    writer: &mut W,
    plain: bool,
    value: Option<i128>,
    ending: Ending,
) -> Result<(), WriteFault>
    ensures { Writes (W.contents writer.old) (W.contents writer.new) result (told_value value (Some ending) ++ last_line plain (Some ending)) }
{
    match ending {
        Ending::End => {
            write_value(writer, value)?;
            write_last(writer, plain, ending)
        }
        Ending::Refused(_) => write_last(writer, plain, ending),
        Ending::Fault(_) => write_last(writer, plain, ending),
    }
}

/// Runs a job's aggregate, and writes its value once that is there.
fn serve_value<R, W>(
    rt: &R,
    plain: bool,
    job: Job,
    kind: Kind,
    writer: &mut W,
) -> Result<Ending, ServeFault>
where
    R: AllocGlobal + Clock + Threads + Wait + Sync,
    W: Write,
    requires value { job.aggregate ≡ Some kind }
    ensures written { Serves plain Command.Run job (W.contents writer.old) (W.contents writer.new) result }
    ensures whole { LeavesWholeLines plain job (W.contents writer.old) (W.contents writer.new) result }
    ensures faults { IfErr result (MayFail Command.Run) }
{
    let Job {
        query,
        source,
        growth,
        has_growth,
        ..
    } = job;
    let gate = gate_of(rt, has_growth);
    match value_by_threads(rt, kind, &query, source, growth, &gate) {
        Ok(value) => {
            write_told(writer, plain, value, Ending::End)?;
            Ok(Ending::End)
        }
        Err(AggregateFault::Ended(ending)) => {
            write_told(writer, plain, None, ending)?;
            Ok(ending)
        }
        Err(AggregateFault::Run(fault)) => Err(ServeFault::Run(fault)),
    }
}

/// Runs a query, and writes the lines of its batches as they are delivered. Gives back the writer, which they have gone to.
fn run_lines<'a, R, W>(
    rt: &R,
    query: &Query<Formula>,
    source: AnySource,
    growth: Growth,
    gate: &TimedGate<'_, R>,
    cancel_after: Option<u64>,
    writer: &'a mut W,
) -> (Result<Ending, ServeFault>, &'a mut W)
where
    R: AllocGlobal + Clock + Threads + Wait + Sync,
    W: Write,
    requires unasked { ⟦<AnySource as Source>⟧.given source ≡ 0 }
    ensures delivers { Delivers query.now (⟦<AnySource as Source>⟧.whole source) (W.contents writer.old) (W.contents result.1.now) cancel_after result.0 }
    ensures same { result.1.ghost_name ≡ writer.entry.ghost_name }
{
    let mut sink = LineSink::new(writer);
    let reported = run_until(rt, query, source, growth, gate, cancel_after, &mut sink);
    let written = written_by(&sink);
    (tell(written, reported), sink.into_writer())
}

/// Whether the writer took all lines. A flush that fails while nothing comes is a failing write, also if no batch comes
/// after it.
fn written_by<W: Write>(sink: &LineSink<'_, W>) -> Result<(), WriteFault> {
    if sink.has_failed() {
        return Err(WriteFault);
    }
    Ok(())
}

/// What is reported of a run: a failing write before any other fault, so also if the run was cancelled after it.
fn tell(
    written: Result<(), WriteFault>,
    reported: Result<Report, RunFault>,
) -> Result<Ending, ServeFault>
    ensures { result ≡ told_of written reported }
{
    written?;
    Ok(reported?.ending)
}

/// Runs a query into a sink, and stops after so many batches, if it is to stop at all.
fn run_until<R, K>(
    rt: &R,
    query: &Query<Formula>,
    source: AnySource,
    growth: Growth,
    gate: &TimedGate<'_, R>,
    cancel_after: Option<u64>,
    sink: &mut K,
) -> Result<Report, RunFault>
where
    R: AllocGlobal + Clock + Threads + Wait + Sync,
    K: Sink<Item = i64>,
    requires unasked { ⟦<AnySource as Source>⟧.given source ≡ 0 }
    ensures { Leaves K.accepts K.refuses (merge_in_force query.now.merge)
        (MayAnswer formula_meaning query.now.ordered query.now.ops) (⟦<AnySource as Source>⟧.whole source)
        cancel_after sink.old sink.new result }
{
    let Some(most) = cancel_after else {
        return run(rt, rt.alloc(), query, source, growth, gate, sink);
    };
    let mut token = CancelAfter::new(most);
    run_with(
        rt,
        rt.alloc(),
        query,
        source,
        growth,
        gate,
        &mut token,
        sink,
    )
}

/// Answers a job's query on one thread, and writes each batch as it comes.
fn serve_items<W: Write>(
    alloc: Global,
    plain: bool,
    job: Job,
    writer: &mut W,
) -> Result<Ending, ServeFault>
    requires items { job.aggregate ≡ None }
    ensures written { Serves plain Command.Seq job (W.contents writer.old) (W.contents writer.new) result }
    ensures faults { IfErr result (MayFail Command.Seq) }
{
    let Job {
        query,
        mut source,
        ..
    } = job;
    let ending = answer_into(alloc, &query, &mut source, writer)?;
    write_last(writer, plain, ending)?;
    Ok(ending)
}

/// Answers a query on one thread, and writes the lines of its batches as they come. The source keeps nobody waiting.
fn answer_into<W: Write>(
    alloc: Global,
    query: &Query<Formula>,
    source: &mut AnySource,
    writer: &mut W,
) -> Result<Ending, ServeFault>
    requires unasked { ⟦<AnySource as Source>⟧.given source.old ≡ 0 }
    ensures { HasWrittenAnswer query.now (⟦<AnySource as Source>⟧.whole source.old) (W.contents writer.old) (W.contents writer.new) result }
{
    let (ended, _writer) = answer_lines(alloc, query, source, writer);
    ended
}

/// The same, and the writer, which the lines have gone to.
fn answer_lines<'a, W: Write>(
    alloc: Global,
    query: &Query<Formula>,
    source: &mut AnySource,
    writer: &'a mut W,
) -> (Result<Ending, ServeFault>, &'a mut W)
    requires unasked { ⟦<AnySource as Source>⟧.given source.old ≡ 0 }
    ensures writes { HasWrittenAnswer query.now (⟦<AnySource as Source>⟧.whole source.old) (W.contents writer.old) (W.contents result.1.now) result.0 }
    ensures same { result.1.ghost_name ≡ writer.entry.ghost_name }
{
    let mut sink = LineSink::new(writer);
    let delivered = deliver_in_blocks(alloc, query, source, &mut sink);
    let written = written_by(&sink);
    (tell_answer(written, delivered), sink.into_writer())
}

/// What is reported of an answer on one thread: a failing write before that memory ran out.
fn tell_answer(
    written: Result<(), WriteFault>,
    delivered: Result<Ending, DeliveryFault>,
) -> Result<Ending, ServeFault>
    ensures { result ≡ told_of_one written delivered }
{
    match written {
        Ok(()) => Ok(delivered?),
        Err(_) => Err(ServeFault::Write),
    }
}

/// The items are folded as they come.
fn serve_fold<W: Write>(
    alloc: Global,
    plain: bool,
    job: Job,
    kind: Kind,
    writer: &mut W,
) -> Result<Ending, ServeFault>
    requires value { job.aggregate ≡ Some kind }
    ensures written { Serves plain Command.Seq job (W.contents writer.old) (W.contents writer.new) result }
    ensures faults { IfErr result (MayFail Command.Seq) }
{
    let Job {
        query,
        mut source,
        ..
    } = job;
    let (value, ending) = value_by_one(alloc, kind, &query, &mut source)?;
    write_told(writer, plain, value, ending)?;
    Ok(ending)
}

fn serve_plan<W: Write>(job: &Job, writer: &mut W) -> Result<Ending, ServeFault>
    ensures written { Serves false Command.Plan job.now (W.contents writer.old) (W.contents writer.new) result }
    ensures faults { IfErr result (MayFail Command.Plan) }
{
    write_plan(writer, &job.query)?;
    Ok(Ending::End)
}

fn serve_parts<W: Write>(alloc: Global, job: Job, writer: &mut W) -> Result<Ending, ServeFault>
    ensures written { Serves false Command.Parts job (W.contents writer.old) (W.contents writer.new) result }
    ensures faults { IfErr result (MayFail Command.Parts) }
{
    let Job {
        query,
        mut source,
        ..
    } = job;
    let (items, ending) = all_of(alloc, &mut source)?;
    let parts = RangeParts::new(alloc, items);
    let partitions = cut(&parts, query.degree())?;
    write_parts(writer, parts.properties(), partitions.as_slice(), ending)?;
    Ok(ending)
}

fn serve_history<W: Write>(alloc: Global, job: Job, writer: &mut W) -> Result<Ending, ServeFault>
    ensures written { Serves false Command.History job (W.contents writer.old) (W.contents writer.new) result }
    ensures faults { IfErr result (MayFail Command.History) }
{
    let Job {
        query,
        source,
        growth,
        ..
    } = job;
    let enumerator = drive_partitions(alloc, source, growth, query.degree())?;
    let records = enumerator.records();
    let Some(ending) = told_ending(records) else {
        unreachable!()
    };
    write_history(writer, records, ending)?;
    Ok(ending)
}

/// All items of a source, and how it ends: the answer of a query with no operator.
fn all_of(alloc: Global, source: &mut AnySource) -> Result<(Vec<i64>, Ending), OutOfMemory>
    requires { ⟦<AnySource as Source>⟧.given source.old ≡ 0 }
    ensures { IfOk result (λ r. ended_trace r.0.items r.1 ≡ ⟦<AnySource as Source>⟧.whole source.old) }
{
    let query: Query<Formula> = Query::new(alloc);
    sequential(alloc, &query, source)
}

/// The numbers in `n` partitions. A degree is at least 1, so the only fault is that memory runs out.
fn cut(parts: &RangeParts<i64>, n: u64) -> Result<Vec<Vec<Keyed<i64>>>, ServeFault>
    requires { 1 ≤ n }
    ensures partitions { IfOk result (λ ps. element_lists ps.items ≡ cuts (keyed_from 0 parts.now) n) }
    ensures fault { IfErr result (λ e. e ≡ ServeFault.Memory) }
{
    match parts.partitions(n) {
        Ok(partitions) => Ok(partitions),
        Err(_) => Err(ServeFault::Memory),
    }
}
