ghost use Rattle.std.specs.Prelude.{◌≡◌, ◌-◌, ◌^◌, length, min, IfSome, is_some};
ghost use Rattle.std.specs.Char.{is_ascii_digit};
ghost use Rattle.std.specs.List.{list_all};
ghost use Rattle.plinq_source.specs.Text.{token_ahead, number_of};

/// Decimal digits that were read.
#[derive(Clone, Copy)]
pub(crate) struct Digits {
    /// The number that they write, or `u64::MAX` if that is less.
    pub(crate) value: u64,
    /// How many they are; there may be none.
    pub(crate) length: usize,
}

/// The digits up to the next separator; none if another byte stands among them.
pub(crate) fn read_digits(text: &[u8]) -> Option<Digits>
    ensures digits { is_some result ≡ list_all is_ascii_digit (token_ahead text.now) }
    ensures value { IfSome result (λ d. d.value ≡ min (number_of (token_ahead text.now)) (2 ^ 64 - 1)) }
    ensures length { IfSome result (λ d. d.length ≡ length (token_ahead text.now)) }
{
    let mut value: u64 = 0;
    for (n, byte) in text.iter().enumerate() {
        match *byte {
            b' ' | b'\n' => return Some(Digits { value, length: n }),
            // The number stays at the greatest once it is there; what comes after may still be malformed.
            b'0'..=b'9' => {
                let digit = (*byte - b'0') as u64;
                value = value.saturating_mul(10).saturating_add(digit);
            }
            _ => return None,
        }
    }
    Some(Digits {
        value,
        length: text.len(),
    })
}
