ghost use Rattle.std.specs.Prelude.{◌≡◌, ◌<◌, ◌++◌, ◌∷◌, [], IfSome, OnSome, Some, Ok, length, codes, true, false};
ghost use Rattle.json.specs.Token.{key};
ghost use Rattle.serde_json.specs.Data.{Data, Members, Num, number, object, put};
ghost use Rattle.serde_json.specs.Find.{as_i64, of_integer};
ghost use Rattle.serde_json.specs.Read.{number_of, number_from};
ghost use Rattle.serde_json.specs.View.{view, items_view, members_view};
ghost use Rattle.plinq_document.specs.inner.Apart.{Reads, ReadsItems, ReadsMembers, ReadsNumbers, EndsList, IsFresh, IsSourceOf, AreApart};
ghost use Rattle.plinq_document.specs.Document.{json_of};
ghost use Rattle.plinq_document.specs.Sources.{code_of};

use crate::doc_fault::DocFault;
use crate::plain_source::PlainSource;
use crate::plain_sources::text_source;
use fast_float::Numeral;
use json::{Reader, Scratch, Token};
use plinq_source::ListSource;
use serde_json::Value;
use serde_json::value::Map;
use std::alloc::Global;

/// How deep the value of a member may nest.
const MOST_DEPTH: usize = 126;

/// The most items of a list.
const MOST_ITEMS: usize = 1 << 40;

/// The members of a document that was read token by token. Its source stands apart if there is one.
#[derive(Drop)]
pub(crate) struct Parts {
    pub(crate) others: Map<String, Value>,
    pub(crate) source: Option<PlainSource>,
}

/// Reads a document token by token, so that no number of a list becomes a value of its own.
///
/// Only what most large documents have is read: a list or a text as the source, and texts, whole numbers and lists of these
/// elsewhere. Nothing is said of any other document, nor if memory ran out, which `lacked` says then.
pub(crate) fn parts_of(alloc: Global, bytes: &[u8], lacked: &mut bool) -> Option<Parts>
    ensures fresh { IfSome result (λ p. IsFresh p.source) }
    ensures read { IfSome result (λ p.
        (ms : Members) × (json_of bytes.now ≡ Ok (object ms)) × AreApart p.source (members_view p.others.entries) ms) }
{
    let Ok(text) = simdutf8::compat::from_utf8(bytes) else {
        return None;
    };
    let mut scratch = Scratch::new(alloc);
    let Ok(mut reader) = Reader::new(text, &mut scratch) else {
        *lacked = true;
        return None;
    };
    let Token::BeginObject = reader.next()? else {
        return None;
    };
    let parts = read_members(alloc, &mut reader, lacked)?;
    match reader.next() {
        None => Some(parts),
        Some(_) => None,
    }
}

fn read_members(alloc: Global, reader: &mut Reader<'_>, lacked: &mut bool) -> Option<Parts>
    ensures fresh { IfSome result (λ p. IsFresh p.source) }
    ensures read { IfSome result (λ p.
        (ms : Members) × ReadsMembers 126 reader.old ms reader.new × AreApart p.source (members_view p.others.entries) ms) }
{
    let mut parts = Parts {
        others: Map::new(alloc),
        source: None,
    };
    'members: while let Some(name) = reader.next_key().ok()? {
        read_member(alloc, reader, name, &mut parts, lacked)?;
    }
    Some(parts)
}

/// Reads the value of this name.
fn read_member(
    alloc: Global,
    reader: &mut Reader<'_>,
    name: &str,
    parts: &mut Parts,
    lacked: &mut bool,
) -> Option<()>
    ensures fresh { OnSome result (IsFresh parts.old.source → IsFresh parts.new.source) }
    ensures read { OnSome result ((ms : Members) → AreApart parts.old.source (members_view parts.old.others.entries) ms →
        (d : Data) × Reads 126 reader.old d reader.new
        × AreApart parts.new.source (members_view parts.new.others.entries) (put name.now d ms)) }
    ensures shorter { OnSome result (length reader.new < length reader.old) }
{
    if name == "source" {
        parts.source = Some(read_source(alloc, reader, lacked)?);
        return Some(());
    }
    let value = read_value(alloc, reader, MOST_DEPTH, lacked)?;
    let Ok(name) = String::from_str(alloc, name) else {
        *lacked = true;
        return None;
    };
    let Ok(_) = parts.others.insert(name, value) else {
        *lacked = true;
        return None;
    };
    Some(())
}

/// Reads a source that is a list, also one that refuses, or a text.
fn read_source(alloc: Global, reader: &mut Reader<'_>, lacked: &mut bool) -> Option<PlainSource>
    ensures fresh { IsFresh result }
    ensures read { IfSome result (λ s. (d : Data) × Reads 126 reader.old d reader.new × IsSourceOf s d) }
    ensures shorter { OnSome result (length reader.new < length reader.old) }
{
    let Token::BeginObject = reader.next()? else {
        return None;
    };
    let Token::Key(name) = reader.next()? else {
        return None;
    };
    read_named(alloc, reader, name, lacked)
}

/// Reads what stands after the first name of a source.
fn read_named(
    alloc: Global,
    reader: &mut Reader<'_>,
    name: &str,
    lacked: &mut bool,
) -> Option<PlainSource>
    ensures fresh { IsFresh result }
    ensures read { IfSome result (λ s.
        (ms : Members) × ReadsMembers 125 (key name.now ∷ reader.old) ms reader.new × IsSourceOf s (object ms)) }
    ensures shorter { OnSome result (length reader.new < length reader.old) }
{
    if name == "list" {
        return read_list(alloc, reader, lacked);
    }
    if name == "text" {
        return read_text(alloc, reader, lacked);
    }
    None
}

fn read_text(alloc: Global, reader: &mut Reader<'_>, lacked: &mut bool) -> Option<PlainSource>
    ensures fresh { IsFresh result }
    ensures read { IfSome result (λ s.
        (ms : Members) × ReadsMembers 125 (key (codes "text") ∷ reader.old) ms reader.new × IsSourceOf s (object ms)) }
    ensures shorter { OnSome result (length reader.new < length reader.old) }
{
    let Token::String(text) = reader.next()? else {
        return None;
    };
    let Token::EndObject = reader.next()? else {
        return None;
    };
    match text_source(alloc, text) {
        Ok(source) => Some(source),
        Err(fault) => {
            *lacked = fault == DocFault::Memory;
            None
        }
    }
}

fn read_list(alloc: Global, reader: &mut Reader<'_>, lacked: &mut bool) -> Option<PlainSource>
    ensures fresh { IsFresh result }
    ensures read { IfSome result (λ s.
        (ms : Members) × ReadsMembers 125 (key (codes "list") ∷ reader.old) ms reader.new × IsSourceOf s (object ms)) }
    ensures shorter { OnSome result (length reader.new < length reader.old) }
{
    let Token::BeginArray = reader.next()? else {
        return None;
    };
    let numbers = read_numbers(alloc, reader, lacked)?;
    if numbers.len() > MOST_ITEMS {
        return None;
    }
    match read_refusal(reader)? {
        None => Some(PlainSource::List(ListSource::new(alloc, numbers))),
        Some(code) => Some(PlainSource::List(ListSource::refusing(alloc, numbers, code))),
    }
}

/// Reads what stands after the numbers of a source: nothing, or the code with which it refuses.
fn read_refusal(reader: &mut Reader<'_>) -> Option<Option<u32>>
    ensures read { IfSome result (λ refusal. EndsList refusal reader.old reader.new) }
    ensures shorter { OnSome result (length reader.new < length reader.old) }
{
    match reader.next()? {
        Token::EndObject => Some(None),
        Token::Key(name) => read_code(reader, name),
        _ => None,
    }
}

fn read_code(reader: &mut Reader<'_>, name: &str) -> Option<Option<u32>>
    ensures read { IfSome result (λ refusal. EndsList refusal (key name.now ∷ reader.old) reader.new) }
    ensures shorter { OnSome result (length reader.new < length reader.old) }
{
    if name != "refuse" {
        return None;
    }
    let Token::Number(text) = reader.next()? else {
        return None;
    };
    let code = code_of_text(text)?;
    let Token::EndObject = reader.next()? else {
        return None;
    };
    Some(Some(code))
}

/// The code that a number's text is.
fn code_of_text(text: &str) -> Option<u32>
    ensures { IfSome result (λ code. (n : Num) × (number_of text.now ≡ Some n) × (code_of (number n) ≡ Some code)) }
{
    u32::try_from(whole_number_of(text)?).ok()
}

/// Reads the numbers of a list and the bracket that closes it.
fn read_numbers(alloc: Global, reader: &mut Reader<'_>, lacked: &mut bool) -> Option<Vec<i64>>
    ensures read { IfSome result (λ ns. ReadsNumbers 124 reader.old ns.items reader.new) }
    ensures shorter { OnSome result (length reader.new < length reader.old) }
{
    let mut numbers = Vec::new(alloc);
    'numbers: loop {
        match reader.next()? {
            Token::Number(text) => {
                add(&mut numbers, whole_number_of(text)?, lacked)?;
            }
            Token::EndArray => return Some(numbers),
            _ => return None,
        }
    }
}

/// Reads a text, a whole number, or a list of such values.
#[cycle(read)]
fn read_value(
    alloc: Global,
    reader: &mut Reader<'_>,
    depth: usize,
    lacked: &mut bool,
) -> Option<Value>
    ensures read { IfSome result (λ v. Reads depth reader.old (view v) reader.new) }
    ensures shorter { OnSome result (length reader.new < length reader.old) }
{
    match reader.next()? {
        Token::String(text) => {
            let Ok(copied) = String::from_str(alloc, text) else {
                *lacked = true;
                return None;
            };
            Some(Value::String(copied))
        }
        Token::Number(text) => Some(Value::from(whole_number_of(text)?)),
        Token::BeginArray => {
            if depth == 0 {
                return None;
            }
            Some(Value::Array(read_items(alloc, reader, depth - 1, lacked)?))
        }
        _ => None,
    }
}

#[cycle(read)]
fn read_items(
    alloc: Global,
    reader: &mut Reader<'_>,
    depth: usize,
    lacked: &mut bool,
) -> Option<Vec<Value>>
    ensures read { IfSome result (λ vs. ReadsItems depth reader.old (items_view vs.items) reader.new) }
    ensures shorter { OnSome result (length reader.new < length reader.old) }
{
    let mut found = Vec::new(alloc);
    'items: while !reader.take_end_array() {
        let item = read_value(alloc, reader, depth, lacked)?;
        add(&mut found, item, lacked)?;
    }
    Some(found)
}

fn add<T: Drop>(items: &mut Vec<T>, item: T, lacked: &mut bool) -> Option<()>
    ensures { OnSome result (items.new.items ≡ items.old.items ++ item ∷ []) }
{
    match items.push(item) {
        Ok(()) => Some(()),
        Err(_) => {
            *lacked = true;
            None
        }
    }
}

/// The whole number that a number's text is.
#[inline(always)]
fn whole_number_of(text: &str) -> Option<i64>
    ensures is { IfSome result (λ n. number_of text.now ≡ Some (of_integer n)) }
    ensures fits { IfSome result (λ n. as_i64 (of_integer n) ≡ Some n) }
{
    let bytes = text.as_bytes();
    let (first, rest) = bytes.split_first()?;
    if *first == b'-' {
        below_zero(&Numeral::scan(rest))
    } else {
        not_below_zero(&Numeral::scan(bytes))
    }
}

#[inline(always)]
fn not_below_zero(numeral: &Numeral<'_>) -> Option<i64>
    ensures is { IfSome result (λ n. number_from false numeral.now ≡ Some (of_integer n)) }
    ensures fits { IfSome result (λ n. as_i64 (of_integer n) ≡ Some n) }
{
    i64::try_from(numeral.to_u64()?).ok()
}

#[inline(always)]
fn below_zero(numeral: &Numeral<'_>) -> Option<i64>
    ensures is { IfSome result (λ n. number_from true numeral.now ≡ Some (of_integer n)) }
    ensures fits { IfSome result (λ n. as_i64 (of_integer n) ≡ Some n) }
{
    let number = numeral.to_i64(true)?;
    if number < 0 { Some(number) } else { None }
}
