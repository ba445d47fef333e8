ghost use Rattle.std.specs.Prelude.{◌≡◌, ◌+◌, pos, neg_ℤ, length, IfOk};
ghost use Rattle.std.specs.Result.{result_map_both};
ghost use Rattle.plinq_source.specs.Text.{token_ahead, token_value, signed_value};

use crate::digits::read_digits;

/// The code of a token that is no whole number.
const MALFORMED: u32 = 1;

/// The code of a whole number that is no `i64`.
const OUT_OF_RANGE: u32 = 2;

/// A whole number that was read.
#[derive(Clone, Copy)]
pub(crate) struct Number {
    pub(crate) value: i64,
    /// How many bytes it has.
    pub(crate) length: usize,
}

/// The number that the token at the head of a text writes, or the code with which it is refused.
pub(crate) fn read_number(text: &[u8]) -> Result<Number, u32>
    ensures value { result_map_both (λ n. n.value) (λ code. code) result ≡ token_value (token_ahead text.now) }
    ensures length { IfOk result (λ n. n.length ≡ length (token_ahead text.now)) }
{
    match text.split_first() {
        None => Err(MALFORMED),
        Some((first, digits)) => {
            if *first == b'-' {
                read_negative(digits)
            } else {
                read_positive(text)
            }
        }
    }
}

/// A number whose minus was read: counted down from 0, since the least `i64` has no positive twin.
fn read_negative(digits: &[u8]) -> Result<Number, u32>
    ensures value { result_map_both (λ n. n.value) (λ code. code) result ≡ signed_value (λ n. neg_ℤ (pos n)) (token_ahead digits.now) }
    ensures length { IfOk result (λ n. n.length ≡ length (token_ahead digits.now) + 1) }
{
    match read_digits(digits) {
        Some(d) if d.length > 0 => match 0i64.checked_sub_unsigned(d.value) {
            Some(value) => Ok(Number {
                value,
                length: d.length + 1,
            }),
            None => Err(OUT_OF_RANGE),
        },
        _ => Err(MALFORMED),
    }
}

fn read_positive(digits: &[u8]) -> Result<Number, u32>
    ensures value { result_map_both (λ n. n.value) (λ code. code) result ≡ signed_value pos (token_ahead digits.now) }
    ensures length { IfOk result (λ n. n.length ≡ length (token_ahead digits.now)) }
{
    match read_digits(digits) {
        Some(d) if d.length > 0 => match 0i64.checked_add_unsigned(d.value) {
            Some(value) => Ok(Number {
                value,
                length: d.length,
            }),
            None => Err(OUT_OF_RANGE),
        },
        _ => Err(MALFORMED),
    }
}
