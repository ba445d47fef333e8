ghost use Rattle.std.specs.Prelude.{◌≡◌, [], ◌∷◌, ◌<◌, length, ◌++◌, IfOk, MatchOption};
ghost use Rattle.plinq_text.specs.Lines.{Line, lines_of};

use memchr::memchr;
use std::alloc::AllocError;

const LINE_FEED: &[u8] = b"\n";

const NOTHING: &[u8] = b"";

/// A line of a text.
#[derive(Clone, Copy)]
pub struct LineAt<'t> {
    /// Its text.
    pub text: &'t [u8],
    /// The line feed that ends it, or nothing.
    pub end: &'t [u8],
    /// What comes after it.
    pub rest: &'t [u8],
}

/// The first line of a text, unless the text is empty.
pub fn first_line(text: &[u8]) -> Option<LineAt<'_>>
    ensures { MatchOption result (lines_of text.now ≡ [])
        (λ l. (lines_of text.now ≡ record { text = l.text.now; end = l.end.now } ∷ lines_of l.rest.now) × (length l.rest.now < length text.now)) }
{
    match memchr(b'\n', text) {
        Some(end) => Some(LineAt {
            text: &text[..end],
            end: LINE_FEED,
            rest: &text[end + 1..],
        }),
        None if text.is_empty() => None,
        None => Some(LineAt {
            text,
            end: NOTHING,
            rest: NOTHING,
        }),
    }
}

/// How many lines a text has.
pub fn line_count(text: &[u8]) -> usize
    ensures { result ≡ length (lines_of text.now) }
{
    let mut rest = text;
    let mut count = 0;
    while let Some(line) = first_line(rest) {
        count += 1;
        rest = line.rest;
    }
    count
}

/// Appends the text of a line and what ends it.
pub(crate) fn put_line(text: &[u8], end: &[u8], out: &mut Vec<u8>) -> Result<(), AllocError>
    ensures { IfOk result (λ _. out.new.items ≡ out.old.items ++ (text.now ++ end.now)) }
{
    out.extend_from_slice(text)?;
    out.extend_from_slice(end)
}
