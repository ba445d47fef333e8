ghost use Rattle.std.specs.Prelude.{◌≡◌, ◌≤◌, ◌<◌, ◌++◌, ◌∷◌, [], Some, length, drop};
ghost use Rattle.std.specs.List.{flat_map};
ghost use Rattle.plinq_ops.specs.Batches.{full_batches};
ghost use Rattle.plinq_lines.specs.AnswerText.{line, further_number, batch_line};
ghost use Rattle.plinq_lines.specs.Written.{Writes};

use crate::bytes::write_bytes;
use crate::piece::Piece;
use crate::pieces::write_pieces;
use crate::placing::{
    place_further_numbers, place_line, place_lines, place_number, place_single_lines,
};
use crate::write_fault::WriteFault;
use std::io::Write;

/// How many numbers are placed at once: as many as stand in a batch of the default merge option.
const MOST_PLACED: usize = 16;

/// The room of a number's decimal, of at most 20 bytes, with a space or a line feed.
const NUMBER_ROOM: usize = 21;

const NUMBERS_ROOM: usize = 336;

/// How many numbers are placed at once if batches follow one another.
const MOST_NUMBERS: usize = 128;

/// The room that so many take, of which each may end a line.
pub(crate) const LINES_ROOM: usize = 2816;

const LINE_ROOM: usize = 337;

/// Writes one batch as a line of decimals, with a space between two. Takes no memory.
///
/// A batch of at most 16 numbers is written by one call of the writer, if that takes it whole.
///
/// ```text
/// write_batch(&mut out, &[4, -2, 5])?; // 4 -2 5
/// ```
///
/// # Errors
///
/// [`WriteFault`] if the writer fails, or takes none of the bytes that it is given. What it took until then is a
/// beginning of the line.
pub fn write_batch<W: Write>(writer: &mut W, batch: &[i64]) -> Result<(), WriteFault>
    ensures { Writes (W.contents writer.old) (W.contents writer.new) result (batch_line batch.now) }
{
    if batch.len() > MOST_PLACED {
        return write_long_batch(writer, batch);
    }
    match batch {
        [x] => write_only_number(writer, *x),
        _ => write_short_batch(writer, batch),
    }
}

/// Writes one batch as [`write_batch`] does, by way of `text`. What that holds is of no account before and after.
///
/// # Errors
///
/// [`WriteFault`] as for [`write_batch`].
pub(crate) fn write_batch_by<W: Write>(
    writer: &mut W,
    batch: &[i64],
    text: &mut [u8; LINES_ROOM],
) -> Result<(), WriteFault>
    ensures { Writes (W.contents writer.old) (W.contents writer.new) result (batch_line batch.now) }
{
    if batch.len() > MOST_PLACED {
        return write_long_batch(writer, batch);
    }
    let start = place_line(batch, text, LINES_ROOM);
    write_from(writer, text, start)
}

fn write_only_number<W: Write>(writer: &mut W, x: i64) -> Result<(), WriteFault>
    ensures { Writes (W.contents writer.old) (W.contents writer.new) result (batch_line (x ∷ [])) }
{
    let mut text = [b'\n'; NUMBER_ROOM];
    let start = place_number(x, &mut text, NUMBER_ROOM - 1);
    write_bytes(writer, &text[start..])
}

fn write_short_batch<W: Write>(writer: &mut W, batch: &[i64]) -> Result<(), WriteFault>
    requires { length batch.now ≤ 16 }
    ensures { Writes (W.contents writer.old) (W.contents writer.new) result (batch_line batch.now) }
{
    let mut text = [0; LINE_ROOM];
    let start = place_line(batch, &mut text, LINE_ROOM);
    write_bytes(writer, &text[start..])
}

fn write_long_batch<W: Write>(writer: &mut W, batch: &[i64]) -> Result<(), WriteFault>
    ensures { Writes (W.contents writer.old) (W.contents writer.new) result (batch_line batch.now) }
{
    let Some((first, further)) = batch.split_first() else {
        return write_bytes(writer, b"\n");
    };
    write_pieces(writer, &[Piece::Number(*first)])?;
    write_further_numbers(writer, further)
}

/// Writes the numbers after the first of a line, and its line feed.
fn write_further_numbers<W: Write>(writer: &mut W, further: &[i64]) -> Result<(), WriteFault>
    ensures { Writes (W.contents writer.old) (W.contents writer.new) result (line (flat_map further_number further.now)) }
{
    let mut rest = further;
    while !rest.is_empty() {
        let (numbers, following) = rest.split_at(MOST_PLACED.min(rest.len()));
        write_few_numbers(writer, numbers)?;
        rest = following;
    }
    write_bytes(writer, b"\n")
}

fn write_few_numbers<W: Write>(writer: &mut W, numbers: &[i64]) -> Result<(), WriteFault>
    requires { length numbers.now ≤ 16 }
    ensures { Writes (W.contents writer.old) (W.contents writer.new) result (flat_map further_number numbers.now) }
{
    let mut text = [0; NUMBERS_ROOM];
    let start = place_further_numbers(numbers, &mut text, NUMBERS_ROOM);
    write_bytes(writer, &text[start..])
}

/// Writes the full batches of one size that these numbers make, each as its line. What `text` holds is of no account before and
/// after.
///
/// # Errors
///
/// [`WriteFault`] as for [`write_batch`]: what was taken until then is a beginning of these lines.
pub(crate) fn write_batches_by<W: Write>(
    writer: &mut W,
    size: usize,
    numbers: &[i64],
    text: &mut [u8; LINES_ROOM],
) -> Result<(), WriteFault>
    requires { 0 < size }
    ensures { Writes (W.contents writer.old) (W.contents writer.new) result (flat_map batch_line (full_batches (Some size) [] numbers.now)) }
{
    if size > MOST_NUMBERS {
        return write_long_batches(writer, size, numbers);
    }
    let at_once = MOST_NUMBERS - MOST_NUMBERS % size;
    let mut rest = numbers;
    while rest.len() > at_once {
        let (few, following) = rest.split_at(at_once);
        write_few_batches(writer, size, few, text)?;
        rest = following;
    }
    write_few_batches(writer, size, rest, text)
}

fn write_few_batches<W: Write>(
    writer: &mut W,
    size: usize,
    numbers: &[i64],
    text: &mut [u8; LINES_ROOM],
) -> Result<(), WriteFault>
    requires some { 0 < size }
    requires few { length numbers.now ≤ 128 }
    ensures { Writes (W.contents writer.old) (W.contents writer.new) result (flat_map batch_line (full_batches (Some size) [] numbers.now)) }
{
    if size == 1 {
        let start = place_single_lines(numbers, text, LINES_ROOM);
        return write_from(writer, text, start);
    }
    let (whole, _) = numbers.split_at(numbers.len() - numbers.len() % size);
    let start = place_lines(size, whole, text, LINES_ROOM);
    write_from(writer, text, start)
}

fn write_long_batches<W: Write>(
    writer: &mut W,
    size: usize,
    numbers: &[i64],
) -> Result<(), WriteFault>
    requires { 0 < size }
    ensures { Writes (W.contents writer.old) (W.contents writer.new) result (flat_map batch_line (full_batches (Some size) [] numbers.now)) }
{
    let mut rest = numbers;
    while rest.len() >= size {
        let (batch, following) = rest.split_at(size);
        write_long_batch(writer, batch)?;
        rest = following;
    }
    Ok(())
}

fn write_from<W: Write>(writer: &mut W, text: &[u8], start: usize) -> Result<(), WriteFault>
    requires { start ≤ length text.now }
    ensures { Writes (W.contents writer.old) (W.contents writer.new) result (drop start text.now) }
{
    let (_, bytes) = text.split_at(start);
    write_bytes(writer, bytes)
}
