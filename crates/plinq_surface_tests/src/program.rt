//! The names that the program's crates have.
use plinq_cli::{
    AnySource, Command, Degree, DocFault, InputFault, Job, Kind, ServeFault, Settings, StepFault,
    read_document, read_input, serve, serve_plain,
};
use plinq_enumerator::Growth;
use plinq_lambda::Formula;
use plinq_ops::{MergeOption, Query};
use plinq_source::{Ending, Source, Step};
use std::alloc::Global;
use std::io::{Read, Write};
use std::sync::Wait;
use std::test::*;
use std::thread::Threads;
use std::time::Clock;

fn bytes<R: Read>(alloc: Global, reader: &mut R) -> Result<Vec<u8>, InputFault> {
    read_input(alloc, reader)
}

fn meant(alloc: Global, bytes: &[u8], settings: Settings) -> Result<Job, DocFault> {
    read_document(alloc, bytes, settings)
}

fn served<R, W>(rt: &R, command: Command, job: Job, writer: &mut W) -> Result<Ending, ServeFault>
where
    R: AllocGlobal + Clock + Threads + Wait + Sync,
    W: Write,
{
    serve(rt, command, job, writer)
}

fn served_plain<R, W>(
    rt: &R,
    command: Command,
    job: Job,
    writer: &mut W,
) -> Result<Ending, ServeFault>
where
    R: AllocGlobal + Clock + Threads + Wait + Sync,
    W: Write,
{
    serve_plain(rt, command, job, writer)
}

fn of_settings(settings: Settings) -> (Option<Degree>, Option<MergeOption>) {
    (settings.workers, settings.merge)
}

fn query_of(job: &Job) -> &Query<Formula> {
    &job.query
}

fn source_of(job: &Job) -> &AnySource {
    &job.source
}

fn others_of(job: &Job) -> (Growth, Option<Kind>) {
    (job.growth, job.aggregate)
}

fn asked<S: Source<Item = i64>>(source: &mut S) -> Step<i64> {
    source.next()
}

fn of_any(source: &mut AnySource) -> Step<i64> {
    asked(source)
}

fn of_kind(kind: Kind) -> u64 {
    match kind {
        Kind::Sum => 1,
        Kind::Count => 2,
        Kind::Min => 3,
        Kind::Max => 4,
    }
}

fn of_command(command: Command) -> u64 {
    match command {
        Command::Run => 1,
        Command::Seq => 2,
        Command::Plan => 3,
        Command::Parts => 4,
        Command::History => 5,
    }
}

fn of_step(fault: StepFault) -> u64 {
    match fault {
        StepFault::Unknown => 1,
        StepFault::Build(_) => 2,
    }
}

fn of_document(fault: DocFault) -> u64 {
    match fault {
        DocFault::TooLong => 1,
        DocFault::NotJson => 2,
        DocFault::Shape => 3,
        DocFault::Version => 4,
        DocFault::Source => 5,
        DocFault::Growth(_) => 6,
        DocFault::Step { at, why } => at.max(of_step(why)),
        DocFault::Memory => 8,
    }
}

fn of_serving(fault: ServeFault) -> u64 {
    match fault {
        ServeFault::Memory => 1,
        ServeFault::Write => 2,
        ServeFault::Run(_) => 3,
        ServeFault::Take(_) => 4,
    }
}

fn are_cases() -> bool {
    let step = DocFault::Step {
        at: 7,
        why: StepFault::Unknown,
    };
    of_kind(Kind::Max) == 4
        && of_command(Command::History) == 5
        && of_document(step) == 7
        && of_serving(ServeFault::Write) == 2
}

#[test]
fn cases_of_the_program(rt: HostRuntime) {
    assert!(&rt; are_cases());
}
