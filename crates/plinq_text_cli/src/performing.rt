ghost use Rattle.std.specs.Prelude.{◌≤◌};

use crate::ended::Ended;
use crate::query::{FiguresEnd, LinesEnd, LinesQuery, read_query};
use crate::query_fault::QueryFault;
use crate::words::{Asked, read_words};
use clap::error::ErrorKind;
use plinq_cli::WithCause;
use plinq_rounds::{
    LinesFault, ReadBuffer, answer_lines, tally_lines, write_figures, write_tally, write_total,
};
use plinq_settings::Degree;
use plinq_tally::{Figures, Tally, Told};
use std::alloc::Global;
use std::io::{Read, Write};
use std::rt::Files;
use std::sync::Wait;
use std::thread::{Threads, available_parallelism};
use std::time::Clock;
use std::{fs, io};

/// The most bytes of one read.
const READ_BYTES: usize = 4_194_304;

/// What the lines of each reader are answered with.
#[derive(Drop)]
struct Answering {
    alloc: Global,
    workers: Degree,
    /// The query, with what is left of its steps after the readers before this one.
    query: LinesQuery,
    buffer: ReadBuffer,
    /// What was counted, if the query ends in a count.
    tally: Tally,
    /// What numbers come to, if it ends in a sum or its like.
    figures: Figures,
}

/// Does what `plinq lines` does: reads a query from the words, of which the first is `lines`, and the lines of files or of `input`.
/// Writes the answer to `out` and what is wrong to `err`, and returns the exit status.
///
/// The status is 0 at the end of the answer and for help, 2 for refused words, 4 at a line that has no number where the query wants
/// one, and 5 if anything failed. Of a reader that has gone nothing is said.
pub fn perform_lines<R, I, W, E>(
    rt: &R,
    words: &[String],
    input: &mut WithCause<I>,
    out: &mut WithCause<W>,
    err: &mut E,
) -> u8
where
    R: AllocGlobal + Clock + Files + Threads + Wait + Sync,
    R::File: Send,
    I: Read + Send,
    W: Write,
    E: Write,
    ensures { result ≤ 5 }
{
    let alloc = rt.alloc();
    match read_words(alloc, words) {
        Ok(asked) => answer(rt, alloc, &asked, input, out, err),
        Err(refusal) => show(&refusal, out, err),
    }
}

/// Answers the query over all that is asked for, one after another.
fn answer<R, I, W, E>(
    rt: &R,
    alloc: Global,
    asked: &Asked<'_>,
    input: &mut WithCause<I>,
    out: &mut WithCause<W>,
    err: &mut E,
) -> u8
where
    R: Clock + Files + Threads + Wait + Sync,
    R::File: Send,
    I: Read + Send,
    W: Write,
    E: Write,
    ensures { result ≤ 5 }
{
    let query = match read_query(alloc, asked.query) {
        Ok(query) => query,
        Err(QueryFault::Memory) => return report(Err(LinesFault::Memory), "", None, None, err),
        Err(fault) => {
            let _ = writeln!(err, "error: {fault}\n\nFor more information, try '--help'.");
            let _ = err.flush();
            return 2;
        }
    };
    let workers = match asked.workers {
        Some(workers) => workers,
        None => as_many_as_cores(rt),
    };
    let separator = match query.end {
        LinesEnd::Figures(end) => end.separator,
        _ => b' ',
    };
    let mut answering = Answering {
        alloc,
        workers,
        query,
        buffer: ReadBuffer::new(alloc, READ_BYTES),
        tally: Tally::new(alloc),
        figures: Figures::new(alloc, separator),
    };
    let status = answer_files(rt, asked, &mut answering, input, out, err);
    if status != 0 {
        return status;
    }
    let outcome = write_counts(&answering, out);
    report(outcome, "", None, out.cause(), err)
}

/// Answers the query over files, or over `input` if there are none.
fn answer_files<R, I, W, E>(
    rt: &R,
    asked: &Asked<'_>,
    answering: &mut Answering,
    input: &mut WithCause<I>,
    out: &mut WithCause<W>,
    err: &mut E,
) -> u8
where
    R: Clock + Files + Threads + Wait + Sync,
    R::File: Send,
    I: Read + Send,
    W: Write,
    E: Write,
    ensures { result ≤ 5 }
{
    if asked.files.is_empty() {
        return answer_named(rt, answering, "-", true, input, out, err);
    }
    for (i, name) in asked.files.iter().enumerate() {
        let is_last = i + 1 == asked.files.len();
        let status = answer_named(rt, answering, *name, is_last, input, out, err);
        if status != 0 {
            return status;
        }
    }
    0
}

/// Writes what was counted, if the query ends in a count.
fn write_counts<W: Write>(answering: &Answering, out: &mut W) -> Result<(), LinesFault> {
    match answering.query.end {
        LinesEnd::Write => Ok(()),
        LinesEnd::Count => write_total(answering.alloc, &answering.tally, out),
        LinesEnd::CountBy => write_tally(answering.alloc, &answering.tally, out),
        LinesEnd::Figures(end) => write_told(answering, end, out),
    }
}

/// Writes what numbers come to. The sum of none is 0; none of them has a least, a greatest or a mean.
fn write_told<W: Write>(
    answering: &Answering,
    end: FiguresEnd,
    out: &mut W,
) -> Result<(), LinesFault> {
    let figures = &answering.figures;
    if figures.len() == 0 && end.told == Told::Sum && !end.is_by_key {
        // (no line was counted)
        return write_total(answering.alloc, &answering.tally, out);
    }
    write_figures(answering.alloc, figures, end.told, out)
}

/// Answers the lines of a file, or of `input` by the name of `-`.
fn answer_named<R, I, W, E>(
    rt: &R,
    answering: &mut Answering,
    name: &str,
    is_last: bool,
    input: &mut WithCause<I>,
    out: &mut WithCause<W>,
    err: &mut E,
) -> u8
where
    R: Clock + Files + Threads + Wait + Sync,
    R::File: Send,
    I: Read + Send,
    W: Write,
    E: Write,
    ensures { result ≤ 5 }
{
    if name == "-" {
        let outcome = answer_part(rt, answering, is_last, input, out);
        return report(outcome, "standard input", input.cause(), out.cause(), err);
    }
    match fs::open(rt, name) {
        Ok(file) => {
            let mut file = WithCause::new(file);
            let outcome = answer_part(rt, answering, is_last, &mut file, out);
            report(outcome, name, file.cause(), out.cause(), err)
        }
        Err(error) => report(Err(LinesFault::Read), name, Some(&error), None, err),
    }
}

/// Answers the lines of one reader, which others follow unless it is the last one.
fn answer_part<R, I, W>(
    rt: &R,
    answering: &mut Answering,
    is_last: bool,
    input: &mut I,
    out: &mut W,
) -> Result<(), LinesFault>
where
    R: Clock + Threads + Wait + Sync,
    I: Read + Send,
    W: Write,
{
    let steps = answering.query.steps.as_mut_slice();
    let buffer = &mut answering.buffer;
    match answering.query.end {
        LinesEnd::Count | LinesEnd::CountBy => {
            return tally_lines(
                rt,
                answering.alloc,
                answering.workers,
                steps,
                buffer,
                input,
                &mut answering.tally,
            );
        }
        LinesEnd::Figures(_) => {
            return tally_lines(
                rt,
                answering.alloc,
                answering.workers,
                steps,
                buffer,
                input,
                &mut answering.figures,
            );
        }
        LinesEnd::Write => {}
    }
    if is_last {
        return answer_lines(
            rt,
            answering.alloc,
            answering.workers,
            steps,
            buffer,
            input,
            out,
        );
    }
    let mut ended = Ended::new(input);
    answer_lines(
        rt,
        answering.alloc,
        answering.workers,
        steps,
        buffer,
        &mut ended,
        out,
    )
}

/// The status of an outcome, and what is said of it.
fn report<E: Write>(
    outcome: Result<(), LinesFault>,
    name: &str,
    read: Option<&io::Error>,
    write: Option<&io::Error>,
    err: &mut E,
) -> u8
    ensures { result ≤ 5 }
{
    let Err(fault) = outcome else {
        return 0;
    };
    if let LinesFault::Check(before) = fault {
        let line = before.wrapping_add(1);
        let _ = writeln!(
            err,
            "plinq: {name}: line {line}: no number where the query wants one"
        );
        let _ = err.flush();
        return 4;
    }
    let _ = match (fault, read, write) {
        (LinesFault::Read, Some(error), _) => writeln!(err, "plinq: {name}: {error}"),
        (LinesFault::Read, None, _) => writeln!(err, "plinq: {name}: {fault}"),
        (LinesFault::Write, _, Some(error)) if error.kind() == io::ErrorKind::BrokenPipe => Ok(()),
        (LinesFault::Write, _, Some(error)) => writeln!(err, "plinq: {fault}: {error}"),
        _ => writeln!(err, "plinq: {fault}"),
    };
    let _ = err.flush();
    5
}

/// As many as the process may use, and at most 64; one if the system doesn't say.
fn as_many_as_cores<R: Threads>(rt: &R) -> Degree {
    let count = match available_parallelism(rt) {
        Ok(count) => (count.get() as u64).min(64),
        Err(_) => 1,
    };
    match Degree::new(count) {
        Some(degree) => degree,
        None => unreachable!(),
    }
}

/// Help goes to `out`, and what `clap` says of refused words to `err`.
fn show<W: Write, E: Write>(refusal: &clap::Error, out: &mut WithCause<W>, err: &mut E) -> u8
    ensures { result ≤ 5 }
{
    if refusal.kind() == ErrorKind::OutOfMemory {
        return report(Err(LinesFault::Memory), "", None, None, err);
    }
    if refusal.use_stderr() {
        let _ = write!(err, "{refusal}");
        let _ = err.flush();
        return 2;
    }
    match show_help(refusal, out) {
        Ok(()) => 0,
        Err(_) => report(Err(LinesFault::Write), "", None, out.cause(), err),
    }
}

fn show_help<W: Write>(help: &clap::Error, out: &mut W) -> io::Result<()> {
    write!(out, "{help}")?;
    out.flush()
}
