ghost use Rattle.std.specs.Prelude.{◌≡◌, ◌≤◌, ◌⊎◌, ◌+◌, ◌++◌, ◌%◌, true, false, List, ℕ, IfOk, IfErr, length};
ghost use Rattle.std.specs.Thread.{IsSync};
ghost use Rattle.std.specs.Io.KnownBytes.{Consumes, IsAtEnd, Keeps};
ghost use Rattle.plinq_rounds.specs.inner.Rounds.{IsFlushFailed, behind, ends_behind};
ghost use Rattle.plinq_rounds.specs.Streams.{AnswersLines, Passes, fails};
ghost use Rattle.plinq_rounds.specs.declared.lines_fault.LinesFault.TheVariants.{Write};
ghost use Rattle.plinq_text.specs.Lines.{is_whole, lines_of};
ghost use Rattle.plinq_text.specs.Steady.{has_check};
ghost use Rattle.plinq_text.specs.StepPatterns.{ArePatternsOf};

use crate::lines_fault::LinesFault;
use crate::read_buffer::{BESIDE_BYTES, ReadBuffer};
use crate::round::{answer_here, answer_round};
use plinq_settings::Degree;
use plinq_text::{LineStep, Pattern, has_check, is_over, line_count, patterns};
use std::alloc::Global;
use std::io::{Read, Write};
use std::mem;
use std::sync::Wait;
use std::thread::{Threads, join_mut};
use std::time::Clock;

/// Writes what a query's steps make of the lines of a reader's bytes, as they are read, and leaves what is left of the steps.
///
/// Each read is answered at once as far as it has whole lines, by so many workers if it is long; the next read comes beside that
/// then. Once no line more can come out of the steps, no read begins. The last line need not end in a line feed; what is made of it
/// ends in none then.
///
/// # Errors
///
/// [`LinesFault::Check`] at the first line that fails a check, with how many lines of this reader stand before it: the answer to
/// these is written. [`LinesFault::Read`] at the first read that fails, [`LinesFault::Write`] if the writer does, and the others if
/// memory runs out, no thread can be started or results are missing. What was written is the answer to whole lines, the first ones
/// of all; after a failing write it is a beginning of such an answer.
pub fn answer_lines<R, I, W>(
    rt: &R,
    alloc: Global,
    workers: Degree,
    steps: &mut [LineStep],
    buffer: &mut ReadBuffer,
    reader: &mut I,
    out: &mut W,
) -> Result<(), LinesFault>
where
    R: Clock + Threads + Wait + Sync,
    I: Read + Send,
    W: Write,
    ensures { AnswersLines steps.old (I.remaining reader.old) (W.contents out.old) (W.contents out.new) result steps.new }
{
    buffer.clear();
    let Ok(patterns) = patterns(alloc, steps) else {
        return Err(LinesFault::Memory);
    };
    let mut lines = 0;
    let mut next = buffer.another(alloc);
    let mut came = None;
    for _ in 0..u64::MAX {
        if is_over(steps) {
            return Ok(());
        }
        let count = match buffer.read_unless(came, reader) {
            Ok(count) => count,
            Err(fault) => return Err(fault),
        };
        if count == 0 {
            let outcome = answer_last(alloc, steps, patterns.as_slice(), buffer.as_slice(), out);
            return ends_behind(lines, outcome);
        }
        let whole = buffer.whole_lines(count);
        let is_short = buffer.leaves(whole) < BESIDE_BYTES;
        if is_short && workers.number() > 1 && count >= BESIDE_BYTES {
            if let Err(fault) = next.hold(buffer.back(whole)) {
                return Err(fault);
            }
            let (read, outcome) = answer_beside(
                rt,
                alloc,
                workers,
                steps,
                patterns.as_slice(),
                buffer.front(whole),
                &mut next,
                reader,
                out,
            );
            match outcome {
                Ok(()) => {
                    lines = counted(steps, lines, buffer.front(whole));
                    if is_over(steps) {
                        return Ok(());
                    }
                    match read {
                        Ok(count) => {
                            came = Some(count);
                            mem::swap(buffer, &mut next);
                            continue;
                        }
                        Err(fault) => return Err(fault),
                    }
                }
                Err(fault) => return Err(behind(lines, fault)),
            }
        }
        came = None;
        match answer_whole(
            rt,
            alloc,
            workers,
            steps,
            patterns.as_slice(),
            buffer.front(whole),
            out,
        ) {
            Ok(()) => {
                lines = counted(steps, lines, buffer.front(whole));
                buffer.drop_front(whole);
            }
            Err(fault) => return Err(behind(lines, fault)),
        }
    }
    Err(LinesFault::Read)
}

/// Answers whole lines, and flushes the writer, while the next bytes are read.
fn answer_beside<R, I, W>(
    rt: &R,
    alloc: Global,
    workers: Degree,
    steps: &mut [LineStep],
    patterns: &[Pattern],
    text: &[u8],
    next: &mut ReadBuffer,
    reader: &mut I,
    out: &mut W,
) -> (Result<usize, LinesFault>, Result<(), LinesFault>)
where
    R: Clock + Threads + Wait + Sync,
    I: Read + Send,
    W: Write,
    requires patterns { ArePatternsOf steps.old patterns.now }
    requires whole { is_whole text.now ≡ true }
    ensures passes { Passes steps.old (lines_of text.now) (W.contents out.old) (W.contents out.new) result.1 steps.new }
    ensures kept { IfOk result.1 (λ _. ArePatternsOf steps.new patterns.now) }
    ensures came { IfOk result.0 (λ n. (piece : List ℕ) × (length piece ≡ n) × (next.new ≡ next.old ++ piece)
        × Consumes (I.remaining reader.old) (I.remaining reader.new) piece) }
    ensures ended { IfOk result.0 (λ n. n ≡ 0 → IsAtEnd (I.remaining reader.new)) }
    ensures failed { IfErr result.0 (λ fault. fails fault ≡ false) }
{
    join_mut(
        rt,
        &mut || next.read(reader),
        &mut || -> Result<(), LinesFault>
            requires { IsSync R.row × ArePatternsOf steps.now patterns.now × (is_whole text.now ≡ true) }
            ensures { Passes steps.entry.now (lines_of text.entry.now) (W.contents out.entry.now) (W.contents out.exit.now) result steps.exit.now
                × IfOk result (λ _. ArePatternsOf steps.exit.now patterns.entry.now) }
        { answer_whole(rt, alloc, workers, steps, patterns, text, out) },
    )
}

/// Answers whole lines, and flushes the writer.
fn answer_whole<R, W>(
    rt: &R,
    alloc: Global,
    workers: Degree,
    steps: &mut [LineStep],
    patterns: &[Pattern],
    text: &[u8],
    out: &mut W,
) -> Result<(), LinesFault>
where
    R: Clock + Threads + Wait + Sync,
    W: Write,
    requires patterns { ArePatternsOf steps.old patterns.now }
    requires whole { is_whole text.now ≡ true }
    ensures passes { Passes steps.old (lines_of text.now) (W.contents out.old) (W.contents out.new) result steps.new }
    ensures kept { IfOk result (λ _. ArePatternsOf steps.new patterns.now) }
{
    let outcome = answer_round(rt, alloc, workers, steps, patterns, text, out);
    flushed(outcome, out)
}

/// Flushes the writer, unless something wasn't written.
fn flushed<W: Write>(outcome: Result<(), LinesFault>, out: &mut W) -> Result<(), LinesFault>
    ensures kept { Keeps (W.contents out.old) (W.contents out.new) }
    ensures same { result ≡ outcome ⊎ IsFlushFailed outcome result }
{
    match outcome {
        Ok(()) => flush(out),
        Err(LinesFault::Check(count)) => {
            flush(out)?;
            Err(LinesFault::Check(count))
        }
        Err(fault) => Err(fault),
    }
}

/// A fault of lines that stand behind so many.
pub(crate) fn behind(lines: u64, fault: LinesFault) -> LinesFault
    ensures { result ≡ behind lines fault }
{
    match fault {
        LinesFault::Check(count) => LinesFault::Check(count.wrapping_add(lines)),
        _ => fault,
    }
}

/// How lines end that stand behind so many.
pub(crate) fn ends_behind(lines: u64, outcome: Result<(), LinesFault>) -> Result<(), LinesFault>
    ensures { result ≡ ends_behind lines outcome }
{
    match outcome {
        Ok(()) => Ok(()),
        Err(fault) => Err(behind(lines, fault)),
    }
}

/// How many lines came, modulo 2^64, with those of a text. They are counted only if one may fail a check.
pub(crate) fn counted(steps: &[LineStep], lines: u64, text: &[u8]) -> u64
    ensures { has_check steps.now ≡ true → result ≡ (lines + length (lines_of text.now)) % 18446744073709551616 }
{
    if has_check(steps) {
        lines.wrapping_add(line_count(text) as u64)
    } else {
        lines
    }
}

pub(crate) fn flush<W: Write>(out: &mut W) -> Result<(), LinesFault>
    ensures kept { Keeps (W.contents out.old) (W.contents out.new) }
    ensures fault { IfErr result (λ fault. fault ≡ Write) }
{
    match out.flush() {
        Ok(()) => Ok(()),
        Err(_) => Err(LinesFault::Write),
    }
}

/// Answers what comes after the last line feed.
fn answer_last<W: Write>(
    alloc: Global,
    steps: &mut [LineStep],
    patterns: &[Pattern],
    text: &[u8],
    out: &mut W,
) -> Result<(), LinesFault>
    requires { ArePatternsOf steps.old patterns.now }
    ensures { Passes steps.old (lines_of text.now) (W.contents out.old) (W.contents out.new) result steps.new }
{
    let outcome = answer_here(alloc, steps, patterns, text, out);
    flushed(outcome, out)
}
