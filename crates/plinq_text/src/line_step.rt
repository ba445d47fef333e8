use crate::line_test::LineTest;
use crate::seen::Seen;

/// A step of a query over lines.
#[derive(Debug, Drop)]
pub enum LineStep {
    /// Lets a line pass if its text passes the test (.NET's `Where`).
    Filter(LineTest),
    /// Puts fields of the text in its place (.NET's `Select`). The line feed stays.
    Select(Fields),
    /// So many lines more, and then none.
    Take(u64),
    /// All lines but so many first ones.
    Skip(u64),
    /// The lines before the first whose text fails the test.
    TakeWhile(LineTest),
    /// All lines from the first on whose text fails the test.
    SkipWhile(LineTest),
    /// The lines whose text, or fields of it, didn't come before (.NET's `Distinct` and `DistinctBy`).
    Distinct(Known),
    /// The lines before the first whose text fails the test. That one is a mistake: `Failed` is left of the step then.
    Check(LineTest),
    /// No line, since one failed its check.
    Failed,
}

/// A part of a line's text, as `cut` and awk have it.
#[derive(Clone, Copy, Debug, PartialEq, Eq)]
pub struct Field {
    /// Which field, counted from 0. A text that has too few has an empty one in its place.
    pub index: u64,
    /// What stands between two fields.
    pub separator: Separator,
}

/// Parts of a line's text, as `cut` and awk print them.
#[derive(Debug, Drop)]
pub struct Fields {
    /// Which ones, counted from 0, in the order in which they are written.
    pub indexes: Vec<u64>,
    /// From which one on the text follows as it is, counted from 0; none if it doesn't.
    pub rest: Option<u64>,
    /// What stands between two fields of the text, and is written between two of these; a space is written for blanks.
    pub separator: Separator,
}

/// What is known of the lines that came before.
#[derive(Debug, Drop)]
pub struct Known {
    /// Which fields of a line's text must be new; all of it if there are none.
    pub key: Option<Fields>,
    /// Those that came.
    pub seen: Seen,
}

/// What stands between two fields.
#[derive(Clone, Copy, Debug, PartialEq, Eq)]
pub enum Separator {
    /// Spaces, tabs and carriage returns, one or more. Those in front of the first field don't count (awk's default).
    Blanks,
    /// This byte; two of them have an empty field between them (`cut -d`).
    Byte(u8),
}
