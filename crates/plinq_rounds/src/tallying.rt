ghost use Rattle.std.specs.Prelude.{◌≡◌, ◌++◌, true, false, List, ℕ, IfOk, IfErr, flat_map, length};
ghost use Rattle.std.specs.Io.KnownBytes.{Consumes, IsAtEnd};
ghost use Rattle.std.specs.Thread.{IsSync};
ghost use Rattle.std.specs.List.{fold};
ghost use Rattle.plinq_lines.specs.Written.{Writes};
ghost use Rattle.plinq_rounds.specs.inner.Rounds.{RoundEnds};
ghost use Rattle.plinq_rounds.specs.Streams.{fails};
ghost use Rattle.plinq_rounds.specs.Tallying.{TakesLines};
ghost use Rattle.plinq_tally.specs.FigureText.{figures_text};
ghost use Rattle.plinq_tally.specs.Tallies.{tally_text, total_text};
ghost use Rattle.plinq_text.specs.Lines.{is_whole, lines_of};
ghost use Rattle.plinq_text.specs.StepPatterns.{ArePatternsOf};
ghost use Rattle.plinq_text.specs.Steps.{answer, bad_line, left};

use crate::block::Block;
use crate::lines_fault::LinesFault;
use crate::read_buffer::{BESIDE_BYTES, ReadBuffer};
use crate::round::{end_of, pass_round};
use crate::stream::{behind, counted, ends_behind, flush};
use plinq_lines::write_bytes;
use plinq_settings::Degree;
use plinq_tally::{Figures, TakeLines, Tally, Told};
use plinq_text::{LineStep, Pattern, is_over, patterns};
use std::alloc::{AllocError, Global};
use std::io::{Read, Write};
use std::mem;
use std::sync::Wait;
use std::thread::{Threads, join_mut};
use std::time::Clock;

/// Takes in each line that a query's steps make of the lines of a reader's bytes, and leaves what is left of the steps. A
/// [`Tally`] counts how often each comes, [`Figures`] what the numbers of lines come to.
///
/// Each read is taken in as far as it has whole lines; if it is long, so many workers apply the first steps, and the next read comes
/// beside that. Once no line more can come out of the steps, no read begins. A last line is taken in as if it ended in a line feed.
///
/// # Errors
///
/// [`LinesFault::Check`] at the first line that fails a check, with how many lines of this reader stand before it.
/// [`LinesFault::Read`] at the first read that fails, and the others if memory runs out, no thread can be started or results are
/// missing. Some lines were taken in then.
pub fn tally_lines<R, I, T>(
    rt: &R,
    alloc: Global,
    workers: Degree,
    steps: &mut [LineStep],
    buffer: &mut ReadBuffer,
    reader: &mut I,
    taker: &mut T,
) -> Result<(), LinesFault>
where
    R: Clock + Threads + Wait + Sync,
    I: Read + Send,
    T: TakeLines,
    ensures { TakesLines (T.after) steps.old (I.remaining reader.old) taker.old taker.new result steps.new }
{
    buffer.clear();
    let Ok(patterns) = patterns(alloc, steps) else {
        return Err(LinesFault::Memory);
    };
    let mut lines = 0;
    let mut next = buffer.another(alloc);
    let mut came = None;
    for _ in 0..u64::MAX {
        if is_over(steps) {
            return Ok(());
        }
        let count = match buffer.read_unless(came, reader) {
            Ok(count) => count,
            Err(fault) => return Err(fault),
        };
        if count == 0 {
            match buffer.end_line() {
                Ok(()) => {
                    let outcome = tally_round(
                        rt,
                        alloc,
                        workers,
                        steps,
                        patterns.as_slice(),
                        buffer.as_slice(),
                        taker,
                    );
                    return ends_behind(lines, outcome);
                }
                Err(fault) => return Err(fault),
            }
        }
        let whole = buffer.whole_lines(count);
        let is_short = buffer.leaves(whole) < BESIDE_BYTES;
        if is_short && workers.number() > 1 && count >= BESIDE_BYTES {
            if let Err(fault) = next.hold(buffer.back(whole)) {
                return Err(fault);
            }
            let (read, outcome) = tally_beside(
                rt,
                alloc,
                workers,
                steps,
                patterns.as_slice(),
                buffer.front(whole),
                &mut next,
                reader,
                taker,
            );
            match outcome {
                Ok(()) => {
                    lines = counted(steps, lines, buffer.front(whole));
                    if is_over(steps) {
                        return Ok(());
                    }
                    match read {
                        Ok(count) => {
                            came = Some(count);
                            mem::swap(buffer, &mut next);
                            continue;
                        }
                        Err(fault) => return Err(fault),
                    }
                }
                Err(fault) => return Err(behind(lines, fault)),
            }
        }
        came = None;
        match tally_round(
            rt,
            alloc,
            workers,
            steps,
            patterns.as_slice(),
            buffer.front(whole),
            taker,
        ) {
            Ok(()) => {
                lines = counted(steps, lines, buffer.front(whole));
                buffer.drop_front(whole);
            }
            Err(fault) => return Err(behind(lines, fault)),
        }
    }
    Err(LinesFault::Read)
}

/// Writes a line for each text that was counted: its count, a tab, the text.
///
/// # Errors
///
/// [`LinesFault::Memory`] if there is no room for the lines, and [`LinesFault::Write`] if the writer fails, which has a beginning
/// of them then.
pub fn write_tally<W: Write>(alloc: Global, tally: &Tally, out: &mut W) -> Result<(), LinesFault>
    ensures { Writes (W.contents out.old) (W.contents out.new) result (tally_text tally.now) }
{
    let mut lines = Vec::new(alloc);
    tally.put_lines(&mut lines)?;
    write_flushed(out, lines.as_slice())
}

/// Writes the line of how many lines were counted.
///
/// # Errors
///
/// As [`write_tally`].
pub fn write_total<W: Write>(alloc: Global, tally: &Tally, out: &mut W) -> Result<(), LinesFault>
    ensures { Writes (W.contents out.old) (W.contents out.new) result (total_text tally.now) }
{
    let mut line = Vec::new(alloc);
    tally.put_total(&mut line)?;
    write_flushed(out, line.as_slice())
}

fn write_flushed<W: Write>(out: &mut W, bytes: &[u8]) -> Result<(), LinesFault>
    ensures { Writes (W.contents out.old) (W.contents out.new) result bytes.now }
{
    write_bytes(out, bytes)?;
    flush(out)
}

/// Writes a line for each key of figures: what is told of its numbers and, unless it is empty, a tab and the key.
///
/// # Errors
///
/// As [`write_tally`].
pub fn write_figures<W: Write>(
    alloc: Global,
    figures: &Figures,
    told: Told,
    out: &mut W,
) -> Result<(), LinesFault>
    ensures { Writes (W.contents out.old) (W.contents out.new) result (figures_text told figures.now.1) }
{
    let mut lines = Vec::new(alloc);
    figures.put_lines(told, &mut lines)?;
    write_flushed(out, lines.as_slice())
}

/// Takes in what the steps make of a text of whole lines while the next bytes are read, and leaves what is left of them.
fn tally_beside<R, I, T>(
    rt: &R,
    alloc: Global,
    workers: Degree,
    steps: &mut [LineStep],
    patterns: &[Pattern],
    text: &[u8],
    next: &mut ReadBuffer,
    reader: &mut I,
    taker: &mut T,
) -> (Result<usize, LinesFault>, Result<(), LinesFault>)
where
    R: Clock + Threads + Wait + Sync,
    I: Read + Send,
    T: TakeLines,
    requires patterns { ArePatternsOf steps.old patterns.now }
    requires whole { is_whole text.now ≡ true }
    ensures takes { IfOk result.1 (λ _. taker.new ≡ fold (T.after) taker.old (answer steps.old (lines_of text.now))) }
    ensures left { IfOk result.1 (λ _. steps.new ≡ left steps.old (lines_of text.now)) }
    ensures bad { RoundEnds (bad_line steps.old (lines_of text.now)) result.1 }
    ensures kept { IfOk result.1 (λ _. ArePatternsOf steps.new patterns.now) }
    ensures came { IfOk result.0 (λ n. (piece : List ℕ) × (length piece ≡ n) × (next.new ≡ next.old ++ piece)
        × Consumes (I.remaining reader.old) (I.remaining reader.new) piece) }
    ensures ended { IfOk result.0 (λ n. n ≡ 0 → IsAtEnd (I.remaining reader.new)) }
    ensures failed { IfErr result.0 (λ fault. fails fault ≡ false) }
{
    join_mut(
        rt,
        &mut || next.read(reader),
        &mut || -> Result<(), LinesFault>
            requires { IsSync R.row × ArePatternsOf steps.now patterns.now × (is_whole text.now ≡ true) }
            ensures { IfOk result (λ _. taker.exit.now ≡ fold (T.after) taker.entry.now (answer steps.entry.now (lines_of text.entry.now)))
                × IfOk result (λ _. steps.exit.now ≡ left steps.entry.now (lines_of text.entry.now))
                × RoundEnds (bad_line steps.entry.now (lines_of text.entry.now)) result
                × IfOk result (λ _. ArePatternsOf steps.exit.now patterns.entry.now) }
        { tally_round(rt, alloc, workers, steps, patterns, text, taker) },
    )
}

/// Takes in what the steps make of a text of whole lines, and leaves what is left of them.
fn tally_round<R, T>(
    rt: &R,
    alloc: Global,
    workers: Degree,
    steps: &mut [LineStep],
    patterns: &[Pattern],
    text: &[u8],
    taker: &mut T,
) -> Result<(), LinesFault>
where
    R: Clock + Threads + Wait + Sync,
    T: TakeLines,
    requires patterns { ArePatternsOf steps.old patterns.now }
    requires whole { is_whole text.now ≡ true }
    ensures takes { IfOk result (λ _. taker.new ≡ fold (T.after) taker.old (answer steps.old (lines_of text.now))) }
    ensures left { IfOk result (λ _. steps.new ≡ left steps.old (lines_of text.now)) }
    ensures bad { RoundEnds (bad_line steps.old (lines_of text.now)) result }
    ensures kept { IfOk result (λ _. ArePatternsOf steps.new patterns.now) }
{
    let passed = pass_round(rt, alloc, workers, steps, patterns, text)?;
    take_blocks(passed.blocks.as_slice(), taker)?;
    end_of(passed.bad)
}

/// Takes in the lines of blocks.
fn take_blocks<T: TakeLines>(blocks: &[Block], taker: &mut T) -> Result<(), AllocError>
    ensures { IfOk result (λ _. taker.new ≡ fold (T.after) taker.old (flat_map lines_of blocks.now)) }
{
    for block in blocks {
        taker.take_lines(block.as_slice())?;
    }
    Ok(())
}
