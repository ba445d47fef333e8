ghost use Rattle.std.specs.Prelude.{◌≡◌, ◌++◌};
ghost use Rattle.std.specs.List.{flat_map};
ghost use Rattle.plinq_lines.specs.OpWords.{formula_words, op_words, further_op, part_words};
ghost use Rattle.plinq_lines.specs.AnswerText.{line};
ghost use Rattle.plinq_lines.specs.Written.{Writes};

use crate::piece::Piece;
use crate::pieces::write_pieces;
use crate::write_fault::WriteFault;
use plinq_lambda::Formula;
use plinq_ops::{Argument, Op};
use plinq_words::Named;
use std::io::Write;

/// Writes a line of this name and of operators in order, or `none`.
pub(crate) fn write_part<W: Write>(
    writer: &mut W,
    name: &str,
    ops: &[Op<Formula>],
) -> Result<(), WriteFault>
    ensures { Writes (W.contents writer.old) (W.contents writer.new) result (line (name.now ++ part_words ops.now)) }
{
    let Some((first, further)) = ops.split_first() else {
        return write_pieces(writer, &[Piece::Text(name), Piece::Text("none\n")]);
    };
    write_op(writer, name, first)?;
    write_further_ops(writer, further)
}

/// Writes the operators after the first of a line, and its line feed.
fn write_further_ops<W: Write>(writer: &mut W, further: &[Op<Formula>]) -> Result<(), WriteFault>
    ensures { Writes (W.contents writer.old) (W.contents writer.new) result (line (flat_map further_op further.now)) }
{
    let mut rest = further;
    while let Some((op, following)) = rest.split_first() {
        write_op(writer, ", ", op)?;
        rest = following;
    }
    write_pieces(writer, &[Piece::Text("\n")])
}

/// Writes an operator, and before it this text.
fn write_op<W: Write>(writer: &mut W, before: &str, op: &Op<Formula>) -> Result<(), WriteFault>
    ensures { Writes (W.contents writer.old) (W.contents writer.new) result (before.now ++ op_words op.now) }
{
    let name = op.name();
    match op.argument() {
        Argument::Nothing => write_pieces(writer, &[Piece::Text(before), Piece::Text(name)]),
        Argument::Number(n) => write_pieces(
            writer,
            &[
                Piece::Text(before),
                Piece::Text(name),
                Piece::Text(" "),
                Piece::Number(n),
            ],
        ),
        Argument::Formula(f) => write_call(writer, before, name, f),
    }
}

fn write_call<'a, W: Write>(
    writer: &mut W,
    before: &'a str,
    name: &'a str,
    f: Formula,
) -> Result<(), WriteFault>
    ensures { Writes (W.contents writer.old) (W.contents writer.new) result (before.now ++ (name.now ++ formula_words f)) }
{
    let formula = f.name();
    match f.number() {
        None => write_pieces(
            writer,
            &[
                Piece::Text(before),
                Piece::Text(name),
                Piece::Text(" "),
                Piece::Text(formula),
            ],
        ),
        Some(c) => write_pieces(
            writer,
            &[
                Piece::Text(before),
                Piece::Text(name),
                Piece::Text(" "),
                Piece::Text(formula),
                Piece::Text(" "),
                Piece::Number(c),
            ],
        ),
    }
}
