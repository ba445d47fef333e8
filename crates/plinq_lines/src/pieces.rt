ghost use Rattle.std.specs.Prelude.{};
ghost use Rattle.std.specs.List.{flat_map};
ghost use Rattle.plinq_lines.specs.inner.Pieces.{piece_words};
ghost use Rattle.plinq_lines.specs.Written.{Writes};

use crate::bytes::write_bytes;
use crate::piece::Piece;
use crate::write_fault::WriteFault;
use itoa::Buffer;
use std::io::Write;

/// Writes pieces one after another. A line that is made of them needs no proof of its own.
pub(crate) fn write_pieces<W: Write>(writer: &mut W, pieces: &[Piece]) -> Result<(), WriteFault>
    ensures { Writes (W.contents writer.old) (W.contents writer.new) result (flat_map piece_words pieces.now) }
{
    for piece in pieces {
        write_piece(writer, *piece)?;
    }
    Ok(())
}

fn write_piece<W: Write>(writer: &mut W, piece: Piece) -> Result<(), WriteFault>
    ensures { Writes (W.contents writer.old) (W.contents writer.new) result (piece_words piece.entry) }
{
    let mut digits = Buffer::new();
    let words = match piece {
        Piece::Text(words) => words,
        Piece::Count(n) => digits.format(n),
        Piece::Number(x) => digits.format(x),
        Piece::Value(x) => digits.format(x),
    };
    write_bytes(writer, words.as_bytes())
}
