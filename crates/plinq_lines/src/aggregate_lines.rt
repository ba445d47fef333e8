ghost use Rattle.std.specs.Prelude.{◌≡◌, Some};
ghost use Rattle.plinq_lines.specs.AggregateText.{value_words, value_line, aggregate_text};
ghost use Rattle.plinq_lines.specs.inner.Pieces.{piece_words};
ghost use Rattle.plinq_lines.specs.Written.{Writes};

use crate::ending_lines::write_ending;
use crate::piece::Piece;
use crate::pieces::write_pieces;
use crate::write_fault::WriteFault;
use plinq_source::Ending;
use std::io::Write;

/// Writes an aggregated answer: its value if it ended well, and its ending. Takes no memory.
///
/// ```text
/// write_aggregate(&mut out, Some(6), Ending::End)?;
///
/// 6
/// end
/// ```
///
/// # Errors
///
/// [`WriteFault`] if the writer fails, or takes none of the bytes that it is given. What it took until then is a
/// beginning of these lines.
pub fn write_aggregate<W: Write>(
    writer: &mut W,
    value: Option<i128>,
    ending: Ending,
) -> Result<(), WriteFault>
    ensures { Writes (W.contents writer.old) (W.contents writer.new) result (aggregate_text value (Some ending)) }
{
    match ending {
        Ending::End => {
            write_value(writer, value)?;
            write_ending(writer, ending)
        }
        Ending::Refused(_) => write_ending(writer, ending),
        Ending::Fault(_) => write_ending(writer, ending),
    }
}

/// Writes the line of an aggregate's value: its decimal, or `none` if the items have no value. Takes no memory.
///
/// # Errors
///
/// [`WriteFault`] if the writer fails, or takes none of the bytes that it is given. What it took until then is a
/// beginning of the line.
pub fn write_value<W: Write>(writer: &mut W, value: Option<i128>) -> Result<(), WriteFault>
    ensures { Writes (W.contents writer.old) (W.contents writer.new) result (value_line value) }
{
    write_pieces(writer, &[value_piece(value), Piece::Text("\n")])
}

fn value_piece(value: Option<i128>) -> Piece<'static>
    ensures { piece_words result ≡ value_words value }
{
    match value {
        None => Piece::Text("none"),
        Some(x) => Piece::Value(x),
    }
}
