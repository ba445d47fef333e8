ghost use Rattle.std.specs.Prelude.{◌≡◌, ◌≤◌, ◌⊎◌, false, map};
ghost use Rattle.std.specs.String.{string_bytes};
ghost use Rattle.std.specs.Io.KnownBytes.{Keeps};
ghost use Rattle.clap.specs.Words.{kind_of};
ghost use Rattle.plinq_cli.specs.Performed.{Answers, Flushes, IsMeant, IsSilent, IsSilentOn};
ghost use Rattle.plinq_cli.specs.Performed.{Performs, PerformsWords, Shows, status_of, failure_status, unflushed};

use crate::failure::Failure;
use crate::input::read_input;
use crate::saying::{Manner, say_ending, say_failure};
use crate::serving::serve_as;
use crate::with_cause::WithCause;
use clap::error::ErrorKind;
use plinq_arguments::{Arguments, read_arguments};
use plinq_document::read_document;
use plinq_settings::{Degree, Settings};
use plinq_source::Ending;
use std::io;
use std::io::{Read, Write};
use std::sync::Wait;
use std::thread::{Threads, available_parallelism};
use std::time::Clock;

/// Does what the program does: reads the command line, of which the first word is the program's name, and the
/// document from `reader`. Writes the answer to `out` and what is wrong to `err`, and returns the exit status.
///
/// The status is 0 at the end of an answer and for help, 2 for refused arguments and documents, 3 if the source
/// refused, 4 at a fault, and 5 if anything else failed or the run was cancelled. `out` is flushed before the status
/// is answered, and a flush that fails is a failing write, also of a cancelled run, unless something has failed before.
/// After a failing write `out` is left alone,
/// so that a caller who lets go of what it still holds writes nothing after the line of the failure. What fails in
/// writing to `err` changes nothing.
///
/// What is wrong is one line. If the caller wants it explained, or by `--plain`, a second line says why and what to do. With
/// `--plain` an ending other than the end is said so too, and of a reader that has gone nothing is said.
pub fn perform<R, I, W, E>(
    rt: &R,
    words: Vec<String>,
    explains: bool,
    reader: &mut WithCause<I>,
    out: &mut WithCause<W>,
    err: &mut E,
) -> u8
where
    R: AllocGlobal + Clock + Threads + Wait + Sync,
    I: Read,
    W: Write,
    E: Write,
    ensures status { result ≤ 5 }

    // The answer of the document for what the words ask for, or what `clap` shows of words that it doesn't take. Where
    // the reader reports its bytes these are the document, else the document is of some bytes.
    ensures written { PerformsWords (map string_bytes words.items)
        (I.remaining reader.old.inner) (W.contents out.old.inner) (W.contents out.new.inner) result }
    ensures silent { IsSilentOn (map string_bytes words.items) (E.contents err.old) (E.contents err.new) result }
{
    match read_arguments(rt.alloc(), words.as_slice()) {
        Ok(arguments) => carry_out(rt, arguments, explains, reader, out, err),
        Err(refusal) => show(&refusal, explains, out, err),
    }
}

/// Does what these arguments ask for.
fn carry_out<R, I, W, E>(
    rt: &R,
    arguments: Arguments,
    explains: bool,
    reader: &mut WithCause<I>,
    out: &mut WithCause<W>,
    err: &mut E,
) -> u8
where
    R: AllocGlobal + Clock + Threads + Wait + Sync,
    I: Read,
    W: Write,
    E: Write,
    ensures status { result ≤ 5 }
    ensures written { Performs arguments (I.remaining reader.old.inner) (W.contents out.old.inner) (W.contents out.new.inner) result }
    ensures silent { IsSilent arguments.plain (E.contents err.old) (E.contents err.new) result }
{
    let manner = Manner {
        plain: arguments.plain,
        explains,
    };
    let answered = answer(rt, arguments, reader, out);
    let flushed = flush(answered, out);
    report(&flushed, manner, reader, out, err)
}

/// The answer of the document that is read.
fn answer<R, I, W>(
    rt: &R,
    arguments: Arguments,
    reader: &mut I,
    out: &mut W,
) -> Result<Ending, Failure>
where
    R: AllocGlobal + Clock + Threads + Wait + Sync,
    I: Read,
    W: Write,
    ensures { Answers arguments (I.remaining reader.old) (W.contents out.old) (W.contents out.new) result }
{
    let bytes = read_input(rt.alloc(), reader)?;
    let settings = settings_here(rt, arguments);
    let job = read_document(rt.alloc(), bytes.as_slice(), settings)?;
    Ok(serve_as(rt, arguments.command, arguments.plain, job, out)?)
}

/// The settings that are asked for, with as many workers as cores if these are.
fn settings_here<R: Threads>(rt: &R, arguments: Arguments) -> Settings
    ensures { IsMeant arguments result }
{
    if !arguments.cores {
        return arguments.settings;
    }
    Settings {
        workers: as_many_as_cores(rt),
        merge: arguments.settings.merge,
        cancel_after: arguments.settings.cancel_after,
    }
}

/// As many as the process may use, by its affinity and the quota of its control group, and at most 64; none if the system
/// doesn't say.
fn as_many_as_cores<R: Threads>(rt: &R) -> Option<Degree> {
    match available_parallelism(rt) {
        Ok(count) => Degree::new((count.get() as u64).min(64)),
        Err(_) => None,
    }
}

/// What is answered once the output is flushed.
///
/// After a failing write nothing more may be written, so the output isn't flushed.
fn flush<W: Write>(answered: Result<Ending, Failure>, out: &mut W) -> Result<Ending, Failure>
    ensures answer { Flushes answered result }
    ensures bytes { Keeps (W.contents out.old) (W.contents out.new) }
    ensures untouched { answered ≡ Err Failure.Write → out.new ≡ out.old }
{
    match answered {
        Err(Failure::Write) => Err(Failure::Write),
        _ => match out.flush() {
            Ok(()) => answered,
            Err(_) => unflushed(answered),
        },
    }
}

/// What is answered if a flush fails: what has failed before it, and else a failing write. A cancelled run hasn't failed.
fn unflushed(answered: Result<Ending, Failure>) -> Result<Ending, Failure>
    ensures { result ≡ unflushed answered }
{
    match answered {
        Ok(_) | Err(Failure::Cancelled) => Err(Failure::Write),
        Err(failure) => Err(failure),
    }
}

/// The status of an answer, and what is said of it.
fn report<I: Read, W: Write, E: Write>(
    answered: &Result<Ending, Failure>,
    manner: Manner,
    reader: &WithCause<I>,
    out: &WithCause<W>,
    err: &mut E,
) -> u8
    ensures status { result ≡ status_of answered.now }
    ensures silent { IsSilent manner.plain (E.contents err.old) (E.contents err.new) result }
{
    match answered {
        Ok(Ending::End) => 0,
        Ok(Ending::Refused(code)) => {
            report_ending(Ending::Refused(*code), manner, err);
            3
        }
        Ok(Ending::Fault(code)) => {
            report_ending(Ending::Fault(*code), manner, err);
            4
        }
        Err(Failure::Read) => report_failure(Failure::Read, reader.cause(), manner, err),
        Err(Failure::Write) => report_failure(Failure::Write, out.cause(), manner, err),
        Err(failure) => report_failure(*failure, None, manner, err),
    }
}

/// Says how an answer ended, if it is plain.
fn report_ending<E: Write>(ending: Ending, manner: Manner, err: &mut E)
    ensures { manner.plain ≡ false → Keeps (E.contents err.old) (E.contents err.new) }
{
    if manner.plain {
        say_ending(ending, err);
    }
}

fn report_failure<E: Write>(
    failure: Failure,
    cause: Option<&io::Error>,
    manner: Manner,
    err: &mut E,
) -> u8
    ensures status { result ≡ failure_status failure }
    ensures failed { (result ≡ 2) ⊎ (result ≡ 5) }
{
    say_failure(failure, cause, manner, err);
    match failure {
        Failure::Document(_) => 2,
        Failure::Memory | Failure::Read | Failure::Write => 5,
        Failure::Thread | Failure::Tickets | Failure::Incomplete | Failure::Cancelled => 5,
    }
}

/// Help goes to `out`, and what `clap` says of a refused command line to `err`.
fn show<W: Write, E: Write>(
    refusal: &clap::Error,
    explains: bool,
    out: &mut WithCause<W>,
    err: &mut E,
) -> u8
    ensures shown { Shows (kind_of refusal.now) (W.contents out.old.inner) (W.contents out.new.inner) result }
    ensures silent { IsSilent false (E.contents err.old) (E.contents err.new) result }
{
    let manner = Manner {
        plain: false,
        explains,
    };
    if refusal.kind() == ErrorKind::OutOfMemory {
        return report_failure(Failure::Memory, None, manner, err);
    }
    if refusal.use_stderr() {
        let _ = write!(err, "{refusal}");
        let _ = err.flush();
        return 2;
    }
    match show_help(refusal, out) {
        Ok(()) => 0,
        Err(_) => report_failure(Failure::Write, out.cause(), manner, err),
    }
}

fn show_help<W: Write>(help: &clap::Error, out: &mut W) -> io::Result<()> {
    write!(out, "{help}")?;
    out.flush()
}
