ghost use Rattle.std.specs.Prelude.{◌≡◌};
ghost use Rattle.plinq_lines.specs.AnswerText.{line, fault_word, ending_words};
ghost use Rattle.plinq_lines.specs.Written.{Writes};

use crate::piece::Piece;
use crate::pieces::write_pieces;
use crate::write_fault::WriteFault;
use plinq_lambda::Formula;
use plinq_source::Ending;
use std::io::Write;

/// Writes the line of an ending: `end`, `refused 7`, or `fault` and what the formula couldn't do. Takes no memory.
///
/// # Errors
///
/// [`WriteFault`] if the writer fails, or takes none of the bytes that it is given. What it took until then is a
/// beginning of the line.
pub fn write_ending<W: Write>(writer: &mut W, ending: Ending) -> Result<(), WriteFault>
    ensures { Writes (W.contents writer.old) (W.contents writer.new) result (line (ending_words ending)) }
{
    match ending {
        Ending::End => write_pieces(writer, &[Piece::Text("end\n")]),
        Ending::Refused(code) => write_pieces(
            writer,
            &[
                Piece::Text("refused "),
                Piece::Count(code as u64),
                Piece::Text("\n"),
            ],
        ),
        Ending::Fault(code) => write_pieces(
            writer,
            &[
                Piece::Text("fault "),
                Piece::Text(fault_word(code)),
                Piece::Text("\n"),
            ],
        ),
    }
}

fn fault_word(code: u32) -> &'static str
    ensures { result.now ≡ fault_word code }
{
    match code {
        Formula::OVERFLOW => "overflow",
        Formula::DIVIDE_BY_ZERO => "division",
        _ => "toomany",
    }
}
