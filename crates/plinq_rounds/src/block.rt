ghost use Rattle.std.specs.Prelude.{◌≡◌};
ghost use Rattle.plinq_rounds.specs.inner.Blocks.{part_of};

use std::marker::Model;

/// Whole lines of a text, by the places of their first byte and of the first byte after them.
#[derive(Clone, Copy, Debug, PartialEq, Eq)]
pub(crate) struct Span {
    pub(crate) start: usize,
    pub(crate) end: usize,
}

/// The bytes at this place of a text; none if it has no such place.
pub(crate) fn part(text: &[u8], span: Span) -> &[u8]
    ensures { result.now ≡ part_of text.now span }
{
    if span.start <= span.end && span.end <= text.len() {
        return &text[span.start..span.end];
    }
    b""
}

/// What was made of a block of lines. A contract sees its bytes.
#[derive(Drop)]
pub(crate) struct Block {
    pub(crate) bytes: Vec<u8>,
}

impl Model for Block {
    ghost use Rattle.std.specs.Prelude.{ℕ, List};

    ghost Value = { List ℕ };

    ghost view = { λ b. b.bytes.items };
}

impl Block {
    pub(crate) fn as_slice(&self) -> &[u8]
        ensures { result.now ≡ self.now }
    {
        self.bytes.as_slice()
    }
}
