//! What is said on standard error: a line of what is wrong, and if it is wanted one more of why it is and what to do.
use crate::failure::Failure;
use plinq_document::DocFault;
use plinq_lambda::Formula;
use plinq_lines::write_ending;
use plinq_source::Ending;
use std::io;
use std::io::{ErrorKind, Write};

/// What is said beside the lines that scripts read.
#[derive(Clone, Copy)]
pub(crate) struct Manner {
    /// Elements alone are printed, so how an answer ended is said here, and nothing of a reader that has gone.
    pub plain: bool,
    /// A second line says why, and what to do.
    pub explains: bool,
}

/// Says how a plain answer ended, other than at its end.
pub(crate) fn say_ending<E: Write>(ending: Ending, err: &mut E) {
    let _ = write!(err, "plinq: ");
    let _ = write_ending(err, ending);
    let _ = writeln!(err, "  {}", ending_advice(ending));
    let _ = err.flush();
}

fn ending_advice(ending: Ending) -> &'static str {
    match ending {
        Ending::End => "all was answered",
        Ending::Refused(1) =>
            "of a text: a word of it is no whole number, as 1.5, 1,2 and a heading are none",
        Ending::Refused(2) => "of a text: a whole number of it is outside 64 bits",
        Ending::Refused(_) => "the document's source ends so, by its \"refuse\"",
        Ending::Fault(Formula::OVERFLOW) => "the result of a formula is outside 64 bits",
        Ending::Fault(Formula::DIVIDE_BY_ZERO) => "a formula divides by 0",
        Ending::Fault(_) => "an expansion has more than 65536 elements",
    }
}

/// Says why there is no answer. The cause is that of a failing read or write.
pub(crate) fn say_failure<E: Write>(
    failure: Failure,
    cause: Option<&io::Error>,
    manner: Manner,
    err: &mut E,
) {
    if manner.plain && has_left(failure, cause) {
        return;
    }
    let _ = writeln!(err, "plinq: {failure}");
    if manner.plain || manner.explains {
        let _ = match cause {
            Some(error) => writeln!(err, "  {error}{}", failure_advice(failure)),
            None => writeln!(err, "  {}", failure_advice(failure)),
        };
    }
    let _ = err.flush();
}

/// Whether the reader of the output has gone.
fn has_left(failure: Failure, cause: Option<&io::Error>) -> bool {
    match (failure, cause) {
        (Failure::Write, Some(error)) => error.kind() == ErrorKind::BrokenPipe,
        _ => false,
    }
}

fn failure_advice(failure: Failure) -> &'static str {
    match failure {
        Failure::Document(DocFault::TooLong) =>
            "a document has at most 16777216 bytes; plinq-cluster --text FILE reads the numbers of a file of any size",
        Failure::Document(_) => "plinq-check < DOCUMENT says where, and what can stand there",
        Failure::Memory =>
            "use fewer workers or smaller chunks (\"growth\":[1,3,64]), or allow more (PLINQ_MEMORY, the container); --merge full holds the whole answer",
        Failure::Read => "; a document is read from standard input: plinq run < DOCUMENT",
        Failure::Write => "; what was written until then is a beginning of the answer",
        Failure::Thread =>
            "the system refused a thread: ask for fewer by --workers, or raise its limit (ulimit -u)",
        Failure::Tickets =>
            "the source was asked more often than it can be, 4611686018427387904 times",
        Failure::Incomplete =>
            "results of the run are missing, which is a mistake of plinq: please report it with the document",
        Failure::Cancelled => "--cancel-after asked for no more lines",
    }
}
