ghost use Rattle.std.specs.Prelude.{◌≡◌, ◌≤◌, ◌≤ℤ◌, ◌*◌, ◌-◌, ◌^◌, pos, neg_ℤ, option_map, IfSome};
ghost use Rattle.plinq_text.specs.Numbers.{digits, magnitude, number_of, only_word, parts_number, signed_number, with_digit};

use crate::fields::{part_at, skip_blanks, word_len};

/// A number, exact to nine digits after the point.
#[derive(Clone, Copy, Debug, PartialEq, Eq)]
pub struct Number {
    /// How many billionths it is.
    pub billionths: i128,
}

/// The number that a text is, if it is one: digits, of which at most nine stand after a point. A sign may stand in front, and blanks
/// around it. What stands before the point is less than 2^64.
///
/// ```text
/// number_of(b"-1.5")   // Some(Number { billionths: -1_500_000_000 })
/// number_of(b"1e3")    // None
/// ```
pub fn number_of(text: &[u8]) -> Option<Number>
    ensures { option_map (λ n. n.billionths) result ≡ number_of text.now }
{
    let word = only_word(skip_blanks(text))?;
    let billionths = signed_number(word)?;
    Some(Number { billionths })
}

/// The first word of a text that begins with one, if blanks alone follow it.
fn only_word(text: &[u8]) -> Option<&[u8]>
    ensures { option_map (λ t. t.now) result ≡ only_word text.now }
{
    let (word, rest) = text.split_at(word_len(text));
    if skip_blanks(rest).is_empty() {
        Some(word)
    } else {
        None
    }
}

/// How many billionths a number with its sign is.
fn signed_number(text: &[u8]) -> Option<i128>
    ensures { result ≡ signed_number text.now }
{
    match text.split_first() {
        Some((b'-', rest)) => {
            let billionths = magnitude(rest)?;
            Some(-billionths)
        }
        Some((b'+', rest)) => magnitude(rest),
        _ => magnitude(text),
    }
}

/// How many billionths a number without a sign is.
fn magnitude(text: &[u8]) -> Option<i128>
    ensures value { result ≡ option_map pos (magnitude text.now) }
    ensures positive { IfSome result (λ n. pos 0 ≤ℤ n) }
{
    let parts = part_at(text, b'.');
    parts_number(parts.before, parts.after)
}

/// The same of the digits before and after its point.
fn parts_number(whole: &[u8], part: &[u8]) -> Option<i128>
    ensures value { result ≡ option_map pos (parts_number whole.now part.now) }
    ensures positive { IfSome result (λ n. pos 0 ≤ℤ n) }
{
    if part.len() > 9 || whole.is_empty() && part.is_empty() {
        return None;
    }
    let places = part.len();
    let whole = digits(whole)?;
    let part = digits(part)?;
    Some(i128::from(whole) * 1_000_000_000 + scaled(part, places))
}

/// So many digits after the point, in billionths.
fn scaled(part: u64, places: usize) -> i128
    requires { places ≤ 9 }
    ensures value { result ≡ pos (part * 10 ^ (9 - places)) }
    ensures positive { pos 0 ≤ℤ result }
    ensures small { result ≤ℤ pos (2 ^ 94) }
{
    let part = i128::from(part);
    match places {
        0 => part * 1_000_000_000,
        1 => part * 100_000_000,
        2 => part * 10_000_000,
        3 => part * 1_000_000,
        4 => part * 100_000,
        5 => part * 10_000,
        6 => part * 1_000,
        7 => part * 100,
        8 => part * 10,
        _ => part,
    }
}

/// The whole number that digits are, if it is less than 2^64.
fn digits(text: &[u8]) -> Option<u64>
    ensures { result ≡ digits 0 text.now }
{
    let mut value = 0;
    for byte in text {
        value = with_digit(value, *byte)?;
    }
    Some(value)
}

fn with_digit(value: u64, byte: u8) -> Option<u64>
    ensures { result ≡ with_digit value byte }
{
    if !byte.is_ascii_digit() {
        return None;
    }
    let tens = value.checked_mul(10)?;
    tens.checked_add(u64::from(byte - b'0'))
}
