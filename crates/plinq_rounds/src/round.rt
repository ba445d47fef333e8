ghost use Rattle.std.specs.Prelude.{◌≡◌, true, false, [], ◌∷◌, Some, None, IfOk, IfErr, flat_map, option_map};
ghost use Rattle.plinq_lines.specs.Written.{Writes};
ghost use Rattle.plinq_rounds.specs.inner.Blocks.{PassesParts, PassesSteady};
ghost use Rattle.plinq_rounds.specs.inner.Rounds.{IsEndOf};
ghost use Rattle.plinq_rounds.specs.Streams.{Passes, fails};
ghost use Rattle.plinq_text.specs.Lines.{is_whole, lines_of, written};
ghost use Rattle.plinq_text.specs.Steady.{are_steady, has_check};
ghost use Rattle.plinq_text.specs.StepPatterns.{ArePatternsOf};
ghost use Rattle.plinq_text.specs.Steps.{answer, bad_line, left};

use crate::block::Block;
use crate::lines_fault::LinesFault;
use crate::making::make_blocks;
use plinq_lines::{WriteFault, write_bytes};
use plinq_settings::Degree;
use plinq_text::{LineStep, Pattern, has_check, pass_lines, steady};
use std::alloc::{AllocError, Global};
use std::io::Write;
use std::sync::Wait;
use std::thread::Threads;
use std::time::Clock;

/// What the steps make of a round's lines.
#[derive(Drop)]
pub(crate) struct Passed {
    /// Blocks of whole lines.
    pub(crate) blocks: Vec<Block>,
    /// How many lines of the round stand before the first that fails a check, if one does.
    pub(crate) bad: Option<usize>,
}

/// Writes what the steps make of a text of whole lines, and leaves what is left of them for the lines after it.
///
/// So many workers apply the first steps, as far as they are [`steady`](plinq_text::steady). The others are applied by the caller's
/// thread; all are if a steady one changes by a line, or if a check stands behind the first that isn't. The patterns are those of
/// [`patterns`](plinq_text::patterns), and serve what is left as well.
///
/// # Errors
///
/// [`LinesFault::Check`] if a line fails a check: what the steps make of the lines before it is written then.
/// [`LinesFault::Write`] if the writer fails, which has a beginning of it then. If memory runs out, no thread can be started or
/// results are missing, nothing is written.
pub fn answer_round<R, W>(
    rt: &R,
    alloc: Global,
    workers: Degree,
    steps: &mut [LineStep],
    patterns: &[Pattern],
    text: &[u8],
    out: &mut W,
) -> Result<(), LinesFault>
where
    R: Clock + Threads + Wait + Sync,
    W: Write,
    requires patterns { ArePatternsOf steps.old patterns.now }
    requires whole { is_whole text.now ≡ true }
    ensures passes { Passes steps.old (lines_of text.now) (W.contents out.old) (W.contents out.new) result steps.new }
    ensures kept { IfOk result (λ _. ArePatternsOf steps.new patterns.now) }
{
    let passed = pass_round(rt, alloc, workers, steps, patterns, text)?;
    match write_blocks(passed.blocks.as_slice(), out) {
        Ok(()) => end_of(passed.bad),
        Err(_) => Err(LinesFault::Write),
    }
}

/// The same on the caller's thread alone, and of any text.
pub(crate) fn answer_here<W: Write>(
    alloc: Global,
    steps: &mut [LineStep],
    patterns: &[Pattern],
    text: &[u8],
    out: &mut W,
) -> Result<(), LinesFault>
    requires { ArePatternsOf steps.old patterns.now }
    ensures passes { Passes steps.old (lines_of text.now) (W.contents out.old) (W.contents out.new) result steps.new }
    ensures kept { IfOk result (λ _. ArePatternsOf steps.new patterns.now) }
{
    let mut passed = Vec::new(alloc);
    let bad = pass_lines(alloc, steps, patterns, text, &mut passed)?;
    write_bytes(out, passed.as_slice())?;
    end_of(bad)
}

/// How a round ends of which a line failed a check, or none did.
pub(crate) fn end_of(bad: Option<usize>) -> Result<(), LinesFault>
    ensures { IsEndOf bad result }
{
    match bad {
        None => Ok(()),
        Some(count) => Err(LinesFault::Check(count as u64)),
    }
}

/// What the steps make of a text of whole lines, and leaves what is left of them.
pub(crate) fn pass_round<R>(
    rt: &R,
    alloc: Global,
    workers: Degree,
    steps: &mut [LineStep],
    patterns: &[Pattern],
    text: &[u8],
) -> Result<Passed, LinesFault>
where
    R: Clock + Threads + Wait + Sync,
    requires patterns { ArePatternsOf steps.old patterns.now }
    requires whole { is_whole text.now ≡ true }
    ensures bytes { IfOk result (λ p. flat_map (λ b. b) p.blocks.items ≡ written (answer steps.old (lines_of text.now))) }
    ensures lines { IfOk result (λ p. flat_map lines_of p.blocks.items ≡ answer steps.old (lines_of text.now)) }
    ensures bad { IfOk result (λ p. p.bad ≡ bad_line steps.old (lines_of text.now)) }
    ensures left { IfOk result (λ _. steps.new ≡ left steps.old (lines_of text.now)) }
    ensures kept { IfOk result (λ _. ArePatternsOf steps.new patterns.now) }
    ensures failed { IfErr result (λ fault. fails fault ≡ false) }
{
    if let Some(blocks) = pass_steady(rt, alloc, workers, steps, patterns, text)? {
        return Ok(Passed { blocks, bad: None });
    }
    let mut passed = Vec::new(alloc);
    let bad = pass_lines(alloc, steps, patterns, text, &mut passed)?;
    let blocks = one_block(alloc, passed)?;
    Ok(Passed { blocks, bad })
}

/// The same by workers, unless one of the steps that they apply changes: then nothing has changed.
fn pass_steady<R>(
    rt: &R,
    alloc: Global,
    workers: Degree,
    steps: &mut [LineStep],
    patterns: &[Pattern],
    text: &[u8],
) -> Result<Option<Vec<Block>>, LinesFault>
where
    R: Clock + Threads + Wait + Sync,
    requires patterns { ArePatternsOf steps.old patterns.now }
    requires whole { is_whole text.now ≡ true }
    ensures made { IfOk result (λ made. PassesSteady steps.old steps.new (lines_of text.now) (option_map (λ v. v.items) made)) }
    ensures kept { IfOk result (λ _. ArePatternsOf steps.new patterns.now) }
    ensures failed { IfErr result (λ fault. fails fault ≡ false) }
{
    let count = steady(steps);
    let (_, others) = steps.split_at(count);
    if count == 0 || has_check(others) {
        return Ok(None);
    }
    let (first, later) = steps.split_at_mut(count);
    let (of_first, of_later) = patterns.split_at(count);
    pass_parts(rt, alloc, workers, first, of_first, later, of_later, text)
}

/// What two rows of steps make of a text of whole lines, of which the first are steady.
fn pass_parts<R>(
    rt: &R,
    alloc: Global,
    workers: Degree,
    first: &[LineStep],
    of_first: &[Pattern],
    later: &mut [LineStep],
    of_later: &[Pattern],
    text: &[u8],
) -> Result<Option<Vec<Block>>, LinesFault>
where
    R: Clock + Threads + Wait + Sync,
    requires patterns { ArePatternsOf first.now of_first.now }
    requires later { ArePatternsOf later.old of_later.now }
    requires whole { is_whole text.now ≡ true }
    requires steady { are_steady first.now ≡ true }
    ensures made { IfOk result (λ made. PassesParts first.now later.old later.new text.now (option_map (λ v. v.items) made)) }
    ensures kept { IfOk result (λ _. ArePatternsOf later.new of_later.now) }
    ensures failed { IfErr result (λ fault. fails fault ≡ false) }
{
    let Some(blocks) = make_blocks(rt, alloc, workers, first, of_first, text)? else {
        return Ok(None);
    };
    if later.is_empty() {
        return Ok(Some(blocks));
    }
    let passed = pass_blocks(alloc, later, of_later, blocks.as_slice())?;
    Ok(Some(one_block(alloc, passed)?))
}

fn one_block(alloc: Global, bytes: Vec<u8>) -> Result<Vec<Block>, LinesFault>
    ensures block { IfOk result (λ blocks. blocks.items ≡ bytes.items ∷ []) }
    ensures failed { IfErr result (λ fault. fails fault ≡ false) }
{
    let mut blocks = Vec::new(alloc);
    match blocks.push(Block { bytes }) {
        Ok(()) => Ok(blocks),
        Err(_) => Err(LinesFault::Memory),
    }
}

/// Writes blocks one after another.
fn write_blocks<W: Write>(blocks: &[Block], out: &mut W) -> Result<(), WriteFault>
    ensures { Writes (W.contents out.old) (W.contents out.new) result (flat_map (λ b. b) blocks.now) }
{
    for block in blocks {
        write_bytes(out, block.as_slice())?;
    }
    Ok(())
}

/// What steps make of the lines of blocks.
fn pass_blocks(
    alloc: Global,
    steps: &mut [LineStep],
    patterns: &[Pattern],
    blocks: &[Block],
) -> Result<Vec<u8>, AllocError>
    requires { ArePatternsOf steps.old patterns.now }
    ensures made { IfOk result (λ passed. passed.items ≡ written (answer steps.old (flat_map lines_of blocks.now))) }
    ensures left { IfOk result (λ _. steps.new ≡ left steps.old (flat_map lines_of blocks.now)) }
    ensures kept { IfOk result (λ _. ArePatternsOf steps.new patterns.now) }
{
    let mut passed = Vec::new(alloc);
    for block in blocks {
        pass_lines(alloc, steps, patterns, block.as_slice(), &mut passed)?;
    }
    Ok(passed)
}
