ghost use Rattle.std.specs.Prelude.{◌≡◌, Some};
ghost use Rattle.plinq_lines.specs.HistoryText.{asked_word, asked_number, tail_word, tail_number, record_line, record_lines, history_text};
ghost use Rattle.plinq_lines.specs.inner.Pieces.{piece_words};
ghost use Rattle.plinq_lines.specs.Written.{Writes};

use crate::ending_lines::write_ending;
use crate::piece::Piece;
use crate::pieces::write_pieces;
use crate::write_fault::WriteFault;
use plinq_keyed::{Event, Record, Tail};
use plinq_source::Ending;
use std::io::Write;

/// Writes the records of a history, and how the source ended. Takes no memory.
///
/// ```text
/// ticket 0 ask 1 first 0 count 1
/// ticket 1 ask 1 first 1 count 0 refused 7
/// refused 7
/// ```
///
/// # Errors
///
/// [`WriteFault`] if the writer fails, or takes none of the bytes that it is given. What it took until then is a
/// beginning of these lines.
pub fn write_history<W: Write>(
    writer: &mut W,
    records: &[Record],
    ending: Ending,
) -> Result<(), WriteFault>
    ensures { Writes (W.contents writer.old) (W.contents writer.new) result (history_text records.now (Some ending)) }
{
    write_records(writer, records)?;
    write_ending(writer, ending)
}

/// Writes records, a line each.
fn write_records<W: Write>(writer: &mut W, records: &[Record]) -> Result<(), WriteFault>
    ensures { Writes (W.contents writer.old) (W.contents writer.new) result (record_lines records.now) }
{
    for record in records {
        write_record(writer, *record)?;
    }
    Ok(())
}

fn write_record<W: Write>(writer: &mut W, entry: Record) -> Result<(), WriteFault>
    ensures { Writes (W.contents writer.old) (W.contents writer.new) result (record_line entry) }
{
    write_pieces(
        writer,
        &[
            Piece::Text("ticket "),
            Piece::Count(entry.ticket),
            Piece::Text(asked_word(entry.asked)),
            asked_number(entry.asked),
            Piece::Text(" first "),
            Piece::Count(entry.first),
            Piece::Text(" count "),
            Piece::Count(entry.count),
            Piece::Text(tail_word(entry.tail)),
            tail_number(entry.tail),
            Piece::Text("\n"),
        ],
    )
}

fn asked_word(asked: Event) -> &'static str
    ensures { result.now ≡ asked_word asked }
{
    match asked {
        Event::Ask(_) => " ask ",
        Event::Close => " close",
    }
}

fn asked_number(asked: Event) -> Piece<'static>
    ensures { piece_words result ≡ asked_number asked }
{
    match asked {
        Event::Ask(n) => Piece::Count(n),
        Event::Close => Piece::Text(""),
    }
}

fn tail_word(tail: Option<Tail>) -> &'static str
    ensures { result.now ≡ tail_word tail }
{
    match tail {
        None => "",
        Some(Tail::Ended) => " ended",
        Some(Tail::Refused(_)) => " refused ",
        Some(Tail::Closed) => " closed",
    }
}

fn tail_number(tail: Option<Tail>) -> Piece<'static>
    ensures { piece_words result ≡ tail_number tail }
{
    match tail {
        Some(Tail::Refused(code)) => Piece::Count(code as u64),
        None => Piece::Text(""),
        Some(Tail::Ended) => Piece::Text(""),
        Some(Tail::Closed) => Piece::Text(""),
    }
}
