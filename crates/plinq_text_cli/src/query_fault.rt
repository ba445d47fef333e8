use std::alloc::{AllocError, AllocFailed};
use thiserror::Error;

/// Why the words of a query are refused. Steps are counted from 1.
#[derive(Clone, Copy, Debug, PartialEq, Eq, Error)]
pub enum QueryFault {
    /// Memory ran out.
    #[error("out of memory")]
    Memory,
    /// A text has no end.
    #[error("a text has no closing quote")]
    OpenText,
    /// A backslash in a text stands before something else than it may.
    #[error("a backslash in a text stands before \", \\, t or r")]
    Escape,
    /// A quote stands in the midst of a word.
    #[error("a quote stands within a word: a text in quotes is a word of its own")]
    QuoteInWord,
    /// A word begins with a single quote.
    #[error("a word begins with a single quote: texts stand in double quotes")]
    SingleQuote,
    /// Nothing stands between two bars, or before the first or after the last.
    #[error("step {0} is empty")]
    NoStep(usize),
    /// A step has another name.
    #[error("step {0} is none of filter, select, take, skip, take_while, skip_while, distinct, count, sum, min, max and mean")]
    UnknownStep(usize),
    /// A filter, take_while or skip_while has no test.
    #[error("step {0} wants contains, starts_with, ends_with, is, matches or is_number, or a comparison like < or length >, with or without not before it")]
    NoTest(usize),
    /// A test has no text.
    #[error("step {0}: a text is missing, as in contains \"disk full\"")]
    NoText(usize),
    /// A comparison has no number.
    #[error("step {0}: a comparison wants a number with at most nine digits after the point, as in field 2 > 1.5")]
    NotANumber(usize),
    /// A length isn't compared with a number of bytes.
    #[error("step {0}: length is compared with a number of bytes, as in length > 80")]
    NotALength(usize),
    /// A skip_while compares numbers.
    #[error("step {0}: skip_while compares no numbers, since it has to look at one line that may be none")]
    SkipsNumbers(usize),
    /// What a test is to match is no regular expression.
    #[error("step {0}: the pattern is wrong: {1}")]
    Pattern(usize, regex::Error),
    /// A pattern is too large.
    #[error("step {0}: the pattern takes more than 10 MiB once it is compiled")]
    LargePattern(usize),
    /// A select has no field, or a field no number.
    #[error("step {0}: field wants a number from 1 on, as in select field 2")]
    NoField(usize),
    /// A range of fields has none, or too many.
    #[error("step {0}: a range of fields has its first one first, and at most 1,000")]
    FieldRange(usize),
    /// A separator isn't one byte, or is a line feed.
    #[error("step {0}: by wants a text of one byte that isn't a line feed, as by \",\" or by \"\\t\"")]
    Separator(usize),
    /// A take or a skip has no number.
    #[error("step {0}: take and skip want a number of lines")]
    NoNumber(usize),
    /// A count or a distinct doesn't say by what.
    #[error("step {0}: by wants line or a field, as in count by field 2")]
    NoKey(usize),
    /// A number and its key have different separators.
    #[error("step {0}: a number and its key have one separator")]
    TwoSeparators(usize),
    /// A step follows a count or a sum.
    #[error("step {0} follows the last step of a query: count, sum, min, max and mean end it")]
    AfterCount(usize),
    /// Something follows a whole step.
    #[error("step {0} goes on after its end: a bar parts two steps")]
    TooLong(usize),
}

impl From<AllocError> for QueryFault {
    fn from(_: AllocError) -> QueryFault {
        QueryFault::Memory
    }
}

impl<T: Drop> From<AllocFailed<T>> for QueryFault {
    fn from(_: AllocFailed<T>) -> QueryFault {
        QueryFault::Memory
    }
}
