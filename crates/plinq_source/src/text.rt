ghost use Rattle.std.specs.Prelude.{◌≡◌, ◌≤◌, ◌^◌, vec_len, length, drop};
ghost use Rattle.plinq_source.specs.Text.{is_some_bytes, tokens, values, refusal, text_trace, token_ahead, given_at};

use crate::number::read_number;
use crate::source::Source;
use crate::step::Step;
use std::alloc::Global;

/// The whole numbers of a text, in decimal digits, parted by spaces and line feeds.
///
/// A token is a longest run of bytes other than space and line feed. A number is an optional `-` and one or more
/// ASCII digits; leading zeros are allowed, a `+` isn't. The text is read as it is asked for: each call of `next`
/// reads one token, and takes no memory.
///
/// It ends with
/// - [`Step::End`] if the text is at its end,
/// - [`Step::Refused`] with 1 at a token that is no number,
/// - [`Step::Refused`] with 2 at a number that is no `i64`.
///
/// A refusing token stays where it is, and what stands after it is never read.
///
/// ```text
/// 7 -007      7, -7, then Step::End
/// 7 x 9       7, then Step::Refused(1)
/// ```
#[derive(Drop)]
pub struct TextSource {
    text: Vec<u8>,
    at: usize,
    ghost few: { length text.items ≤ 2 ^ 40 },
    ghost within: { at ≤ length text.items },
    // What stands ahead is what is left of the whole text's meaning.
    ghost items: { drop (given_at text.items at) (values (tokens text.items)) ≡ values (tokens (drop at text.items)) },
    ghost ending: { refusal (tokens text.items) ≡ refusal (tokens (drop at text.items)) },
}

impl TextSource {
    /// The numbers of this text, of at most 2^40 bytes.
    ///
    /// `_alloc` goes unused, since the text has an allocator of its own. Takes no memory.
    pub fn new(_alloc: Global, text: Vec<u8>) -> TextSource
        requires { vec_len text ≤ 2 ^ 40 }
        ensures whole { ⟦<TextSource as Source>⟧.whole result ≡ text_trace text.items }
        ensures fresh { ⟦<TextSource as Source>⟧.given result ≡ 0 }
    {
        TextSource { text, at: 0 }
    }
}

/// How many separators stand at the head of a text.
fn count_separators(text: &[u8]) -> usize
    ensures within { result ≤ length text.now }
    ensures same { tokens (drop result text.now) ≡ tokens text.now }
    ensures ahead { is_some_bytes (token_ahead (drop result text.now)) ≡ is_some_bytes (drop result text.now) }
{
    for (n, byte) in text.iter().enumerate() {
        if *byte != b' ' && *byte != b'\n' {
            return n;
        }
    }
    text.len()
}

impl Source for TextSource {
    ghost use Rattle.plinq_source.specs.Walked.{text_whole, text_given, text_walked};

    type Item = i64;

    ghost whole = { text_whole };

    ghost given = { text_given };

    ghost few = { λ s. (text_walked s).few };

    ghost ends = { λ s. (text_walked s).ends };

    ghost within = { λ s. (text_walked s).within };

    fn next(&mut self) -> Step<i64> {
        let (_, left) = self.text.as_slice().split_at(self.at);
        let blank = count_separators(left);
        let (_, ahead) = left.split_at(blank);
        self.at += blank;
        if ahead.is_empty() {
            return Step::End;
        }
        match read_number(ahead) {
            Ok(number) => {
                self.at += number.length;
                Step::Item(number.value)
            }
            Err(code) => Step::Refused(code),
        }
    }
}
