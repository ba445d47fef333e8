use crate::query_fault::QueryFault;
use crate::tokens::{Token, tokens_of};
use plinq_tally::Told;
use plinq_text::{
    Field, Fields, Known, LineStep, LineTest, Number, Seen, Separator, TestKind, number_of,
};
use regex::Error;
use regex::bytes::Regex;
use std::alloc::Global;

/// How many fields a range of them has at most.
const MOST_FIELDS: u64 = 1_000;

/// A query over lines.
#[derive(Debug, Drop)]
pub struct LinesQuery {
    /// Its steps.
    pub steps: Vec<LineStep>,
    /// What becomes of the lines that come out of them.
    pub end: LinesEnd,
}

/// What becomes of the lines of an answer.
#[derive(Clone, Copy, Debug, PartialEq, Eq)]
pub enum LinesEnd {
    /// They are written.
    Write,
    /// Their number is written.
    Count,
    /// How often each comes is written (.NET's `CountBy`).
    CountBy,
    /// What their numbers come to is written: each line is a number and, parted by a byte, its key.
    Figures(FiguresEnd),
}

/// What is written of numbers.
#[derive(Clone, Copy, Debug, PartialEq, Eq)]
pub struct FiguresEnd {
    /// What is told of them.
    pub told: Told,
    /// What parts a number from its key.
    pub separator: u8,
    /// Whether there is a line for each key.
    pub is_by_key: bool,
}

/// Reads a query from its words: steps that are parted by bars.
///
/// ```text
/// filter [not] [field N [by TEXT]] contains|starts_with|ends_with|is|matches TEXT
/// filter [not] [field N [by TEXT]] <|<=|>|>=|=|!=|below|above|equal NUMBER
/// filter [not] [field N [by TEXT]] is_number
/// filter [not] [field N [by TEXT]] length <|<=|>|>=|=|!= N
/// select field N.. [by TEXT]
/// take N
/// skip N
/// take_while [not] [field N [by TEXT]] .. TEXT
/// skip_while [not] [field N [by TEXT]] .. TEXT
/// distinct [by line]
/// distinct by field N.. [by TEXT]
/// count
/// count by line
/// count by field N.. [by TEXT]
/// sum|min|max|mean [field N] [by field N..] [by TEXT]
/// ```
///
/// A text stands in double quotes, in which `\"`, `\\`, `\t` and `\r` are what they are in Rust. Without blanks, quotes and bars it
/// may do without. That of `matches` is a regular expression, whose backslashes are its own. Fields are counted from 1, and
/// several are written in the order in which the query names them: `1 3`, `1,3`, `2-4`. A last `3-` is the text from that one on. A
/// `not` may stand behind a field as well. A count or a sum is the last step. What is compared or added with a number must be one, which a
/// [`Check`](LineStep::Check) before the step sees to.
///
/// # Errors
///
/// The first [`QueryFault`], with the number of its step.
pub fn read_query(alloc: Global, words: &str) -> Result<LinesQuery, QueryFault> {
    let tokens = tokens_of(alloc, words)?;
    let mut query = LinesQuery {
        steps: Vec::new(alloc),
        end: LinesEnd::Write,
    };
    let mut number: usize = 1;
    let mut parts = Vec::new(alloc);
    for token in tokens {
        match token {
            Token::Bar => {
                add_step(alloc, &mut query, number, parts)?;
                number = number.saturating_add(1);
                parts = Vec::new(alloc);
            }
            Token::Word(word) => parts.push(Token::Word(word))?,
            Token::Text(text) => parts.push(Token::Text(text))?,
        }
    }
    add_step(alloc, &mut query, number, parts)?;
    Ok(query)
}

/// Adds the step of these tokens, which has this number.
fn add_step(
    alloc: Global,
    query: &mut LinesQuery,
    number: usize,
    tokens: Vec<Token>,
) -> Result<(), QueryFault> {
    // (the last token first, so that the next one is taken from the end)
    let mut parts = tokens;
    parts.reverse();
    if parts.is_empty() {
        return Err(QueryFault::NoStep(number));
    }
    if query.end != LinesEnd::Write {
        return Err(QueryFault::AfterCount(number));
    }
    if take_word(&mut parts, "count") {
        query.end = add_key(alloc, number, &mut query.steps, &mut parts)?;
    } else if let Some(told) = take_told(&mut parts) {
        query.end = add_figures(alloc, number, told, &mut query.steps, &mut parts)?;
    } else {
        let step = step_of(alloc, number, &mut query.steps, &mut parts)?;
        query.steps.push(step)?;
    }
    if parts.is_empty() {
        return Ok(());
    }
    Err(QueryFault::TooLong(number))
}

/// Adds the step that leaves of each line what is counted, if it isn't all of it.
fn add_key(
    alloc: Global,
    number: usize,
    steps: &mut Vec<LineStep>,
    parts: &mut Vec<Token>,
) -> Result<LinesEnd, QueryFault> {
    if !take_word(parts, "by") {
        steps.push(LineStep::Select(Fields {
            indexes: Vec::new(alloc),
            rest: None,
            separator: Separator::Blanks,
        }))?;
        return Ok(LinesEnd::Count);
    }
    if let Some(fields) = key_of(alloc, number, parts)? {
        steps.push(LineStep::Select(fields))?;
    }
    Ok(LinesEnd::CountBy)
}

/// What is told of numbers, if that is what comes next.
fn take_told(parts: &mut Vec<Token>) -> Option<Told> {
    if take_word(parts, "sum") {
        return Some(Told::Sum);
    }
    if take_word(parts, "min") {
        return Some(Told::Least);
    }
    if take_word(parts, "max") {
        return Some(Told::Greatest);
    }
    if take_word(parts, "mean") {
        return Some(Told::Mean);
    }
    None
}

/// Adds the steps that leave of each line its number and its key, and check that the number is one.
fn add_figures(
    alloc: Global,
    number: usize,
    told: Told,
    steps: &mut Vec<LineStep>,
    parts: &mut Vec<Token>,
) -> Result<LinesEnd, QueryFault> {
    let index = if take_word(parts, "field") {
        index_of(number, parts)?
    } else {
        0
    };
    let of_number = if is_key_next(parts) {
        Separator::Blanks
    } else {
        separator_of(number, parts)?
    };
    let mut fields = Fields {
        indexes: Vec::new(alloc),
        rest: None,
        separator: of_number,
    };
    fields.indexes.push(index)?;
    let is_by_key = take_word(parts, "by");
    if is_by_key {
        let key = fields_of(alloc, number, parts)?;
        fields.indexes.extend_from_slice(key.indexes.as_slice())?;
        fields.rest = key.rest;
        fields.separator = one_separator(number, of_number, key.separator)?;
    }
    // (what stands between two selected fields)
    let separator = match fields.separator {
        Separator::Blanks => b' ',
        Separator::Byte(byte) => byte,
    };
    steps.push(LineStep::Select(fields))?;
    let first = Field {
        index: 0,
        separator: Separator::Byte(separator),
    };
    steps.push(LineStep::Check(number_test(alloc, Some(first), TestKind::IsNumber, false)))?;
    Ok(LinesEnd::Figures(FiguresEnd {
        told,
        separator,
        is_by_key,
    }))
}

/// The separator of a number and its key: blanks, unless one of them has another, which is both's.
fn one_separator(
    number: usize,
    first: Separator,
    other: Separator,
) -> Result<Separator, QueryFault> {
    match (first, other) {
        (Separator::Blanks, _) => Ok(other),
        (_, Separator::Blanks) => Ok(first),
        _ if first == other => Ok(first),
        _ => Err(QueryFault::TwoSeparators(number)),
    }
}

/// Whether `by field` comes next.
fn is_key_next(parts: &Vec<Token>) -> bool {
    let Some((last, before)) = parts.as_slice().split_last() else {
        return false;
    };
    is_word(last, "by")
        && match before.last() {
            Some(next) => is_word(next, "field"),
            None => false,
        }
}

/// Which fields stand behind `by`; none if the whole line does.
fn key_of(
    alloc: Global,
    number: usize,
    parts: &mut Vec<Token>,
) -> Result<Option<Fields>, QueryFault> {
    if take_word(parts, "line") {
        return Ok(None);
    }
    if !has_next(parts, "field") {
        return Err(QueryFault::NoKey(number));
    }
    Ok(Some(fields_of(alloc, number, parts)?))
}

/// What a distinct looks at.
fn distinct_key(
    alloc: Global,
    number: usize,
    parts: &mut Vec<Token>,
) -> Result<Option<Fields>, QueryFault> {
    if take_word(parts, "by") {
        return key_of(alloc, number, parts);
    }
    Ok(None)
}

/// The step of these tokens. A check is added before it if it compares numbers.
fn step_of(
    alloc: Global,
    number: usize,
    steps: &mut Vec<LineStep>,
    parts: &mut Vec<Token>,
) -> Result<LineStep, QueryFault> {
    let Some(name) = next_word(parts) else {
        return Err(QueryFault::UnknownStep(number));
    };
    match name.as_str() {
        "filter" => Ok(LineStep::Filter(checked_test(alloc, number, steps, parts)?)),
        "select" => Ok(LineStep::Select(fields_of(alloc, number, parts)?)),
        "take_while" => Ok(LineStep::TakeWhile(checked_test(alloc, number, steps, parts)?)),
        "skip_while" => {
            let test = test_of(alloc, number, parts)?;
            // (lines after the first that fails are not compared, and may be anything)
            if compares_numbers(test.kind) {
                return Err(QueryFault::SkipsNumbers(number));
            }
            Ok(LineStep::SkipWhile(test))
        }
        "distinct" => Ok(LineStep::Distinct(Known {
            key: distinct_key(alloc, number, parts)?,
            seen: Seen::new(alloc),
        })),
        "take" => Ok(LineStep::Take(count_of(number, parts)?)),
        "skip" => Ok(LineStep::Skip(count_of(number, parts)?)),
        _ => Err(QueryFault::UnknownStep(number)),
    }
}

/// A test, after a check that what it compares with a number is one.
fn checked_test(
    alloc: Global,
    number: usize,
    steps: &mut Vec<LineStep>,
    parts: &mut Vec<Token>,
) -> Result<LineTest, QueryFault> {
    let test = test_of(alloc, number, parts)?;
    if compares_numbers(test.kind) {
        steps.push(LineStep::Check(number_test(alloc, test.field, TestKind::IsNumber, false)))?;
    }
    Ok(test)
}

fn compares_numbers(kind: TestKind) -> bool {
    match kind {
        TestKind::Below(_) | TestKind::Above(_) | TestKind::Equal(_) => true,
        _ => false,
    }
}

/// A test of a number or of a length, which has no text.
fn number_test(alloc: Global, field: Option<Field>, kind: TestKind, negated: bool) -> LineTest {
    LineTest {
        field,
        kind,
        text: String::new(alloc),
        negated,
    }
}

fn test_of(alloc: Global, number: usize, parts: &mut Vec<Token>) -> Result<LineTest, QueryFault> {
    let is_not = take_word(parts, "not");
    let field = if has_next(parts, "field") {
        Some(field_of(number, parts)?)
    } else {
        None
    };
    let negated = is_not || take_word(parts, "not");
    let is_length = take_word(parts, "length");
    let Some(name) = next_word(parts) else {
        return Err(QueryFault::NoTest(number));
    };
    if is_length {
        let (kind, is_other) = length_of(number, name.as_str(), parts)?;
        return Ok(number_test(alloc, field, kind, negated != is_other));
    }
    if name.as_str() == "is_number" {
        return Ok(number_test(alloc, field, TestKind::IsNumber, negated));
    }
    if is_order(name.as_str()) {
        let wanted = wanted_number(number, parts)?;
        let (kind, is_other) = order_of(name.as_str(), wanted);
        return Ok(number_test(alloc, field, kind, negated != is_other));
    }
    let Some(kind) = kind_of(name.as_str()) else {
        return Err(QueryFault::NoTest(number));
    };
    let text = if kind == TestKind::Matches {
        next_pattern(parts)
    } else {
        next_text(parts)?
    };
    let Some(text) = text else {
        return Err(QueryFault::NoText(number));
    };
    if kind == TestKind::Matches {
        check_pattern(alloc, number, text.as_str())?;
    }
    Ok(LineTest {
        field,
        kind,
        text,
        negated,
    })
}

/// Refuses a text that is no pattern.
fn check_pattern(alloc: Global, number: usize, text: &str) -> Result<(), QueryFault> {
    match Regex::new(alloc, text) {
        Ok(_) => Ok(()),
        Err(Error::OutOfMemory) => Err(QueryFault::Memory),
        Err(Error::CompiledTooBig) => Err(QueryFault::LargePattern(number)),
        Err(error) => Err(QueryFault::Pattern(number, error)),
    }
}

/// The number that a test compares with.
fn wanted_number(number: usize, parts: &mut Vec<Token>) -> Result<Number, QueryFault> {
    let Some(text) = next_text(parts)? else {
        return Err(QueryFault::NotANumber(number));
    };
    match number_of(text.as_bytes()) {
        Some(wanted) => Ok(wanted),
        None => Err(QueryFault::NotANumber(number)),
    }
}

fn is_order(name: &str) -> bool {
    match name {
        "below" | "above" | "equal" => true,
        "<" | "<=" | ">" | ">=" | "=" | "==" | "!=" => true,
        _ => false,
    }
}

/// How a comparison of this name compares with a number, and whether it passes what doesn't compare so.
fn order_of(name: &str, wanted: Number) -> (TestKind, bool) {
    match name {
        "below" | "<" => (TestKind::Below(wanted), false),
        ">=" => (TestKind::Below(wanted), true),
        "above" | ">" => (TestKind::Above(wanted), false),
        "<=" => (TestKind::Above(wanted), true),
        "!=" => (TestKind::Equal(wanted), true),
        _ => (TestKind::Equal(wanted), false),
    }
}

/// How a comparison of this name compares a length, and whether it passes what doesn't compare so.
fn length_of(
    number: usize,
    name: &str,
    parts: &mut Vec<Token>,
) -> Result<(TestKind, bool), QueryFault> {
    if !is_order(name) {
        return Err(QueryFault::NotALength(number));
    }
    let Some(count) = next_number(parts) else {
        return Err(QueryFault::NotALength(number));
    };
    Ok(match name {
        "below" | "<" => (TestKind::ShorterThan(count), false),
        ">=" => (TestKind::ShorterThan(count), true),
        "above" | ">" => (TestKind::LongerThan(count), false),
        "<=" => (TestKind::LongerThan(count), true),
        "!=" => (TestKind::HasLength(count), true),
        _ => (TestKind::HasLength(count), false),
    })
}

fn kind_of(name: &str) -> Option<TestKind> {
    match name {
        "contains" => Some(TestKind::Contains),
        "starts_with" => Some(TestKind::StartsWith),
        "ends_with" => Some(TestKind::EndsWith),
        "is" => Some(TestKind::Is),
        "matches" => Some(TestKind::Matches),
        _ => None,
    }
}

fn field_of(number: usize, parts: &mut Vec<Token>) -> Result<Field, QueryFault> {
    if !take_word(parts, "field") {
        return Err(QueryFault::NoField(number));
    }
    Ok(Field {
        index: index_of(number, parts)?,
        separator: separator_of(number, parts)?,
    })
}

/// One field or several, of which the last may be all from one on.
fn fields_of(alloc: Global, number: usize, parts: &mut Vec<Token>) -> Result<Fields, QueryFault> {
    if !take_word(parts, "field") {
        return Err(QueryFault::NoField(number));
    }
    let mut indexes = Vec::new(alloc);
    let mut rest = None;
    for _ in 0..parts.len() {
        if !has_digit(parts) {
            break;
        }
        let Some(words) = next_word(parts) else {
            break;
        };
        for word in words.as_str().split(",") {
            if rest.is_some() {
                return Err(QueryFault::NoField(number));
            }
            rest = add_fields(number, word, &mut indexes)?;
        }
    }
    if indexes.is_empty() && rest.is_none() {
        return Err(QueryFault::NoField(number));
    }
    Ok(Fields {
        indexes,
        rest,
        separator: separator_of(number, parts)?,
    })
}

/// Adds what a word like `2`, `2-4` or `3-` asks for: returns the index from which on all follows, if it does.
fn add_fields(
    number: usize,
    word: &str,
    indexes: &mut Vec<u64>,
) -> Result<Option<u64>, QueryFault> {
    let Some((first, last)) = word.split_once("-") else {
        indexes.push(index_in(number, word)?)?;
        return Ok(None);
    };
    let first = index_in(number, first)?;
    if last.is_empty() {
        return Ok(Some(first));
    }
    let last = index_in(number, last)?;
    if last < first || last - first >= MOST_FIELDS {
        return Err(QueryFault::FieldRange(number));
    }
    for index in first..last {
        indexes.push(index)?;
    }
    indexes.push(last)?;
    Ok(None)
}

/// The index of a field, whose number counts from 1.
fn index_in(number: usize, digits: &str) -> Result<u64, QueryFault> {
    match digits.parse::<u64>() {
        Err(_) | Ok(0) => Err(QueryFault::NoField(number)),
        Ok(count) => Ok(count - 1),
    }
}

fn index_of(number: usize, parts: &mut Vec<Token>) -> Result<u64, QueryFault> {
    match next_word(parts) {
        Some(word) => index_in(number, word.as_str()),
        None => Err(QueryFault::NoField(number)),
    }
}

/// What stands after a field's number: a separator, or something else.
fn separator_of(number: usize, parts: &mut Vec<Token>) -> Result<Separator, QueryFault> {
    if !take_word(parts, "by") {
        return Ok(Separator::Blanks);
    }
    let Some(text) = next_text(parts)? else {
        return Err(QueryFault::Separator(number));
    };
    match text.as_bytes() {
        [byte] if *byte != b'\n' => Ok(Separator::Byte(*byte)),
        _ => Err(QueryFault::Separator(number)),
    }
}

fn count_of(number: usize, parts: &mut Vec<Token>) -> Result<u64, QueryFault> {
    match next_number(parts) {
        Some(count) => Ok(count),
        None => Err(QueryFault::NoNumber(number)),
    }
}

fn next_number(parts: &mut Vec<Token>) -> Option<u64> {
    let word = next_word(parts)?;
    match word.as_str().parse::<u64>() {
        Ok(number) => Some(number),
        Err(_) => None,
    }
}

/// Whether this word comes next, which stays there.
fn has_next(parts: &Vec<Token>, wanted: &str) -> bool {
    match parts.last() {
        Some(token) => is_word(token, wanted),
        None => false,
    }
}

fn is_word(token: &Token, wanted: &str) -> bool {
    match token {
        Token::Word(word) => word.as_str() == wanted,
        _ => false,
    }
}

/// Takes this word if it comes next, and says whether it did.
fn take_word(parts: &mut Vec<Token>, wanted: &str) -> bool {
    let is_there = has_next(parts, wanted);
    if is_there {
        let _ = parts.pop();
    }
    is_there
}

/// Whether a word comes next that begins with a digit.
fn has_digit(parts: &Vec<Token>) -> bool {
    match parts.last() {
        Some(Token::Word(word)) => match word.as_bytes().first() {
            Some(byte) => byte.is_ascii_digit(),
            None => false,
        },
        _ => false,
    }
}

fn next_word(parts: &mut Vec<Token>) -> Option<String> {
    match parts.pop() {
        Some(Token::Word(word)) => Some(word),
        _ => None,
    }
}

/// The next text, in quotes or without.
fn next_text(parts: &mut Vec<Token>) -> Result<Option<String>, QueryFault> {
    match parts.pop() {
        Some(Token::Word(text)) => Ok(Some(text)),
        Some(Token::Text(quoted)) if quoted.is_plain => Ok(Some(quoted.text)),
        Some(Token::Text(_)) => Err(QueryFault::Escape),
        _ => Ok(None),
    }
}

/// The next pattern, whose backslashes are those of regular expressions.
fn next_pattern(parts: &mut Vec<Token>) -> Option<String> {
    match parts.pop() {
        Some(Token::Word(text)) => Some(text),
        Some(Token::Text(quoted)) => Some(quoted.raw),
        _ => None,
    }
}
