ghost use Rattle.std.specs.Prelude.{◌≡◌, ◌-◌, ◌<◌, ◌≤◌, true, IfOk, length, take, drop};
ghost use Rattle.plinq_text.specs.Lines.{is_whole};
ghost use Rattle.plinq_rounds.specs.inner.Blocks.{IsCutFrom};

use crate::block::Span;
use memchr::memchr;
use std::alloc::{AllocError, Global};

/// Cuts a text of whole lines into blocks of whole lines, each the shortest that has this many bytes.
pub(crate) fn cut_blocks(alloc: Global, text: &[u8], size: usize) -> Result<Vec<Span>, AllocError>
    requires { is_whole text.now ≡ true }
    ensures { IfOk result (λ spans. IsCutFrom text.now 0 spans.items) }
{
    let mut spans = Vec::new(alloc);
    let mut start = 0;
    while start < text.len() {
        let end = block_end(text, start, size);
        spans.push(Span { start, end })?;
        start = end;
    }
    Ok(spans)
}

/// Where the block ends that begins here: at the end of the line in which it has this many bytes.
fn block_end(text: &[u8], start: usize, size: usize) -> usize
    requires whole { is_whole text.now ≡ true }
    requires start { start < length text.now }
    ensures longer { start < result }
    ensures within { result ≤ length text.now }
    ensures whole { is_whole (take (result - start) (drop start text.now)) ≡ true }
{
    let (_, rest) = text.split_at(start);
    if rest.len() <= size {
        return text.len();
    }
    let (_, later) = rest.split_at(size);
    match memchr(b'\n', later) {
        Some(end) => start + size + end + 1,
        None => text.len(),
    }
}
