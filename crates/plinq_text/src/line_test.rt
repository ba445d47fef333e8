ghost use Rattle.std.specs.Prelude.{◌≡◌};
ghost use Rattle.plinq_text.specs.Steps.{compares, passes, subject};
ghost use Rattle.plinq_text.specs.StepPatterns.{pattern_for, pattern_of};

use crate::fields::field;
use crate::line_step::Field;
use crate::number::{Number, number_of};
use crate::pattern::Searcher;
use memchr::memmem;

/// A test of a line's text, byte by byte.
#[derive(Debug, Drop)]
pub struct LineTest {
    /// What is looked at: a field of the text, or all of it.
    pub field: Option<Field>,
    /// How that is compared.
    pub kind: TestKind,
    /// What it is compared with.
    pub text: String,
    /// Whether a line passes that doesn't compare so.
    pub negated: bool,
}

/// How bytes are compared with a text.
#[derive(Clone, Copy, Debug, PartialEq, Eq)]
pub enum TestKind {
    /// The text stands somewhere in them.
    Contains,
    /// They begin with it.
    StartsWith,
    /// They end with it.
    EndsWith,
    /// They are the text.
    Is,
    /// The text is a regular expression, with the syntax of Rust's `regex`, and matches somewhere in them.
    Matches,
    /// They are a number, as [`number_of`](crate::number_of) reads it. The text isn't looked at here and below.
    IsNumber,
    /// They are a number less than this one.
    Below(Number),
    /// They are a number greater than this one.
    Above(Number),
    /// They are this number.
    Equal(Number),
    /// They are fewer than so many bytes.
    ShorterThan(u64),
    /// They are more than so many.
    LongerThan(u64),
    /// They are so many.
    HasLength(u64),
}

/// Whether a line's text passes the test, of which `searcher` searches for the pattern if it has one.
pub(crate) fn passes(test: &LineTest, searcher: &mut Searcher<'_>, text: &[u8]) -> bool
    requires { searcher.old ≡ pattern_of test.now }
    ensures value { result ≡ passes test.now text.now }
    ensures same { searcher.new ≡ searcher.old }
{
    let looked_at = subject(test.field, text);
    let compares = compares(test.kind, test.text.as_bytes(), searcher, looked_at);
    if test.negated { !compares } else { compares }
}

/// What a test looks at.
fn subject(which: Option<Field>, text: &[u8]) -> &[u8]
    ensures { result.now ≡ subject which text.now }
{
    match which {
        Some(which) => field(text, which),
        None => text,
    }
}

fn compares(kind: TestKind, wanted: &[u8], searcher: &mut Searcher<'_>, text: &[u8]) -> bool
    requires { searcher.old ≡ pattern_for kind wanted.now }
    ensures value { result ≡ compares kind wanted.now text.now }
    ensures same { searcher.new ≡ searcher.old }
{
    match kind {
        TestKind::Contains => memmem::find(text, wanted).is_some(),
        TestKind::StartsWith => text.starts_with(wanted),
        TestKind::EndsWith => text.ends_with(wanted),
        TestKind::Is => text == wanted,
        TestKind::Matches => searcher.finds(text),
        TestKind::IsNumber => number_of(text).is_some(),
        TestKind::Below(least) => match number_of(text) {
            Some(number) => number.billionths < least.billionths,
            None => false,
        },
        TestKind::Above(most) => match number_of(text) {
            Some(number) => number.billionths > most.billionths,
            None => false,
        },
        TestKind::Equal(wanted) => match number_of(text) {
            Some(number) => number.billionths == wanted.billionths,
            None => false,
        },
        TestKind::ShorterThan(count) => (text.len() as u64) < count,
        TestKind::LongerThan(count) => text.len() as u64 > count,
        TestKind::HasLength(count) => text.len() as u64 == count,
    }
}
