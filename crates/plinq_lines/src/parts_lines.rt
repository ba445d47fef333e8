ghost use Rattle.std.specs.Prelude.{◌≡◌, ◌++◌};
ghost use Rattle.std.specs.List.{flat_map};
ghost use Rattle.plinq_keyed.specs.Keys.{element_lists};
ghost use Rattle.plinq_lines.specs.AnswerText.{line, ending_words};
ghost use Rattle.plinq_lines.specs.PartsText.{truth, properties_line, element_words, part_line, part_lines};
ghost use Rattle.plinq_lines.specs.Written.{Writes};

use crate::ending_lines::write_ending;
use crate::piece::Piece;
use crate::pieces::write_pieces;
use crate::write_fault::WriteFault;
use plinq_keyed::{KeyProperties, Keyed};
use plinq_source::Ending;
use std::io::Write;

/// Writes a partitioner's key properties, its partitions, and how the source ended. Takes no memory.
///
/// ```text
/// properties true true true
/// 0: 0=5 1=6
/// 1: 2=7 3=8 4=9
/// end
/// ```
///
/// # Errors
///
/// [`WriteFault`] if the writer fails, or takes none of the bytes that it is given. What it took until then is a
/// beginning of these lines.
pub fn write_parts<W: Write>(
    writer: &mut W,
    properties: KeyProperties,
    partitions: &[Vec<Keyed<i64>>],
    ending: Ending,
) -> Result<(), WriteFault>
    ensures { Writes (W.contents writer.old) (W.contents writer.new) result
        (properties_line properties ++ (part_lines 0 (element_lists partitions.now) ++ line (ending_words ending))) }
{
    write_properties(writer, properties)?;
    write_partitions(writer, partitions)?;
    write_ending(writer, ending)
}

fn write_properties<W: Write>(writer: &mut W, properties: KeyProperties) -> Result<(), WriteFault>
    ensures { Writes (W.contents writer.old) (W.contents writer.new) result (properties_line properties) }
{
    write_pieces(
        writer,
        &[
            Piece::Text("properties"),
            Piece::Text(truth(properties.in_each)),
            Piece::Text(truth(properties.across)),
            Piece::Text(truth(properties.normalized)),
            Piece::Text("\n"),
        ],
    )
}

fn truth(value: bool) -> &'static str
    ensures { result.now ≡ truth value }
{
    if value { " true" } else { " false" }
}

/// Writes partitions, a line each.
fn write_partitions<W: Write>(
    writer: &mut W,
    partitions: &[Vec<Keyed<i64>>],
) -> Result<(), WriteFault>
    ensures { Writes (W.contents writer.old) (W.contents writer.new) result (part_lines 0 (element_lists partitions.now)) }
{
    let mut number = 0;
    let mut rest = partitions;
    while let Some((part, following)) = rest.split_first() {
        write_partition(writer, number, part.as_slice())?;
        number += 1;
        rest = following;
    }
    Ok(())
}

fn write_partition<W: Write>(
    writer: &mut W,
    number: u64,
    elements: &[Keyed<i64>],
) -> Result<(), WriteFault>
    ensures { Writes (W.contents writer.old) (W.contents writer.new) result (part_line number elements.now) }
{
    write_pieces(writer, &[Piece::Count(number), Piece::Text(":")])?;
    write_elements(writer, elements)
}

/// Writes the elements of a line, and its line feed.
fn write_elements<W: Write>(writer: &mut W, elements: &[Keyed<i64>]) -> Result<(), WriteFault>
    ensures { Writes (W.contents writer.old) (W.contents writer.new) result (line (flat_map element_words elements.now)) }
{
    let mut rest = elements;
    while let Some((element, following)) = rest.split_first() {
        write_element(writer, *element)?;
        rest = following;
    }
    write_pieces(writer, &[Piece::Text("\n")])
}

fn write_element<W: Write>(writer: &mut W, element: Keyed<i64>) -> Result<(), WriteFault>
    ensures { Writes (W.contents writer.old) (W.contents writer.new) result (element_words element) }
{
    write_pieces(
        writer,
        &[
            Piece::Text(" "),
            Piece::Count(element.key),
            Piece::Text("="),
            Piece::Number(element.value),
        ],
    )
}
