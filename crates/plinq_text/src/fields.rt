ghost use Rattle.std.specs.Prelude.{◌≡◌, ◌≤◌, ◌+◌, ◌==◌, ◌++◌, Some, IfOk, take, drop, length};
ghost use Rattle.std.specs.List.{prefix_len};
ghost use Rattle.plinq_text.specs.Fields.{after_blanks, field_between, field_of, fields, fields_of, from_column, from_field, from_word};
ghost use Rattle.plinq_text.specs.Fields.{further, glue, is_blank, place_of, rest};
ghost use Rattle.plinq_text.specs.inner.FirstFields.{first_field};
ghost use Rattle.plinq_text.specs.inner.Outcomes.{steady_of, text_of};

use crate::line_step::{Field, Fields, Separator};
use crate::outcome::{Outcome, Spares};
use memchr::memchr;
use std::alloc::AllocError;

const NOTHING: &[u8] = b"";

/// A field of a text; an empty one if there are too few.
pub(crate) fn field(text: &[u8], which: Field) -> &[u8]
    ensures { result.now ≡ field_of which text.now }
{
    field_between(text, which.separator, which.index)
}

fn field_between(text: &[u8], separator: Separator, index: u64) -> &[u8]
    ensures { result.now ≡ field_between separator index text.now }
{
    first_field(from_field(text, separator, index), separator)
}

/// The field that stands first in a text that begins with one.
fn first_field(text: &[u8], separator: Separator) -> &[u8]
    ensures { result.now ≡ first_field separator text.now }
{
    match separator {
        Separator::Blanks => &text[..word_len(text)],
        Separator::Byte(byte) => part_at(text, byte).before,
    }
}

/// A text from a field on; nothing if there are too few.
fn from_field(text: &[u8], separator: Separator, index: u64) -> &[u8]
    ensures { result.now ≡ from_field separator index text.now }
{
    match separator {
        Separator::Blanks => from_word(text, index),
        Separator::Byte(byte) => from_column(text, byte, index),
    }
}

/// The fields that are selected. One alone is a part of the text, and so is all from one on.
pub(crate) fn select<'t>(
    text: &'t [u8],
    which: &Fields,
    spares: &mut Spares,
) -> Result<Outcome<'t>, AllocError>
    ensures text { IfOk result (λ outcome. text_of outcome ≡ Some (fields_of which.now text.now)) }
    ensures steady { IfOk result (λ outcome. steady_of outcome ≡ Some (Some (fields_of which.now text.now))) }
{
    let separator = which.separator;
    match which.indexes.as_slice() {
        [] => Ok(Outcome::Text(match which.rest {
            Some(index) => from_field(text, separator, index),
            None => NOTHING,
        })),
        [index] if which.rest.is_none() => Ok(Outcome::Text(field_between(
            text, separator, *index,
        ))),
        [index, further @ ..] => {
            let mut made = spares.take();
            made.extend_from_slice(field_between(text, separator, *index))?;
            put_further(text, separator, further, &mut made)?;
            put_rest(text, separator, which.rest, &mut made)?;
            Ok(Outcome::Made(made))
        }
    }
}

/// Appends further fields, each after what stands between two. One that comes after the last is looked for from there on.
fn put_further(
    text: &[u8],
    separator: Separator,
    indexes: &[u64],
    out: &mut Vec<u8>,
) -> Result<(), AllocError>
    ensures { IfOk result (λ _. out.new.items ≡ out.old.items ++ further separator (fields separator indexes.now text.now)) }
{
    let mut last = 0;
    let mut from = from_field(text, separator, 0);
    for index in indexes {
        from = go_on(text, separator, last, from, *index);
        last = *index;
        out.push(glue(separator))?;
        out.extend_from_slice(first_field(from, separator))?;
    }
    Ok(())
}

/// A text from a field on, of which it is known what it is from the last one on.
fn go_on<'t>(
    text: &'t [u8],
    separator: Separator,
    last: u64,
    from: &'t [u8],
    index: u64,
) -> &'t [u8]
    requires { from.now ≡ from_field separator last text.now }
    ensures { result.now ≡ from_field separator index text.now }
{
    if index < last {
        return from_field(text, separator, index);
    }
    from_field(from, separator, index - last)
}

/// Appends the text from a field on, after what stands between two, if that is asked for.
fn put_rest(
    text: &[u8],
    separator: Separator,
    index: Option<u64>,
    out: &mut Vec<u8>,
) -> Result<(), AllocError>
    ensures { IfOk result (λ _. out.new.items ≡ out.old.items ++ further separator (rest separator index text.now)) }
{
    let Some(index) = index else {
        return Ok(());
    };
    out.push(glue(separator))?;
    out.extend_from_slice(from_field(text, separator, index))
}

fn glue(separator: Separator) -> u8
    ensures { result ≡ glue separator }
{
    match separator {
        Separator::Blanks | Separator::Byte(b'\n') => b' ',
        Separator::Byte(byte) => byte,
    }
}

fn from_column(text: &[u8], byte: u8, index: u64) -> &[u8]
    ensures { result.now ≡ from_column byte index text.now }
{
    let mut rest = text;
    for _column in 0..index {
        if rest.is_empty() {
            return rest;
        }
        rest = part_at(rest, byte).after;
    }
    rest
}

fn from_word(text: &[u8], index: u64) -> &[u8]
    ensures { result.now ≡ from_word index text.now }
{
    let mut rest = text;
    for _word in 0..index {
        if rest.is_empty() {
            return rest;
        }
        let at = skip_blanks(rest);
        rest = &at[word_len(at)..];
    }
    skip_blanks(rest)
}

/// A text in two parts.
#[derive(Clone, Copy)]
pub struct Parts<'t> {
    /// What stands before the first separator; all of it if there is none.
    pub before: &'t [u8],
    /// What comes after it.
    pub after: &'t [u8],
}

/// A text, parted at the first byte of this value.
pub fn part_at(text: &[u8], byte: u8) -> Parts<'_>
    ensures before { result.before.now ≡ take (place_of (λ b. b == byte) text.now) text.now }
    ensures after { result.after.now ≡ drop (place_of (λ b. b == byte) text.now + 1) text.now }
{
    match memchr(byte, text) {
        Some(end) => Parts {
            before: &text[..end],
            after: &text[end + 1..],
        },
        None => Parts {
            before: text,
            after: NOTHING,
        },
    }
}

pub(crate) fn skip_blanks(text: &[u8]) -> &[u8]
    ensures { result.now ≡ after_blanks text.now }
{
    &text[blanks(text)..]
}

/// How many blanks stand in front.
fn blanks(text: &[u8]) -> usize
    ensures value { result ≡ prefix_len is_blank text.now }
    ensures within { result ≤ length text.now }
{
    for (i, byte) in text.iter().enumerate() {
        if !is_blank(*byte) {
            return i;
        }
    }
    text.len()
}

/// How many bytes stand before the first blank.
pub(crate) fn word_len(text: &[u8]) -> usize
    ensures value { result ≡ place_of is_blank text.now }
    ensures within { result ≤ length text.now }
{
    for (i, byte) in text.iter().enumerate() {
        if is_blank(*byte) {
            return i;
        }
    }
    text.len()
}

fn is_blank(byte: u8) -> bool
    ensures { result ≡ is_blank byte }
{
    byte == b' ' || byte == b'\t' || byte == b'\r'
}
