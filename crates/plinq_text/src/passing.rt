ghost use Rattle.std.specs.Prelude.{◌≡◌, ◌≤◌, ◌++◌, if◌then◌else◌, Some, None, length, IfOk, drop};
ghost use Rattle.std.specs.List.{prefix_len};
ghost use Rattle.plinq_text.specs.inner.Outcomes.{text_of};
ghost use Rattle.plinq_text.specs.StepPatterns.{ArePatternsOf, IsPatternOf};
ghost use Rattle.plinq_text.specs.Lines.{lines_of};
ghost use Rattle.plinq_text.specs.inner.Bad.{or_now};
ghost use Rattle.plinq_text.specs.Steady.{has_check, is_check, is_steady};
ghost use Rattle.plinq_text.specs.Steps.{after_one, answer_text, bad_line, bytes_of, does, has_failed, is_failed, is_over, left};
ghost use Rattle.plinq_text.specs.Steps.{row_after, row_does, takes_none};

use crate::fields::select;
use crate::known::is_new;
use crate::line_step::LineStep;
use crate::line_test::passes;
use crate::outcome::{Outcome, Spares, text_if};
use crate::pattern::{Pattern, Searcher, searchers};
use crate::splitting::{first_line, put_line};
use std::alloc::{AllocError, Global};

/// How many of the steps, from the first one on, are steady: they look at each line alone, or change by few lines.
pub fn steady(steps: &[LineStep]) -> usize
    ensures within { result ≤ length steps.now }
    ensures steady { result ≡ prefix_len is_steady steps.now }
{
    match steps.split_first() {
        Some((step, later)) if is_steady(step) => 1 + steady(later),
        _ => 0,
    }
}

fn is_steady(step: &LineStep) -> bool
    ensures { result ≡ is_steady step.now }
{
    match step {
        LineStep::Filter(_) | LineStep::Select(_) => true,
        LineStep::TakeWhile(_) | LineStep::SkipWhile(_) | LineStep::Check(_) => true,
        LineStep::Take(_) | LineStep::Distinct(_) | LineStep::Failed => false,
        LineStep::Skip(count) => *count == 0,
    }
}

/// Whether a line may fail a check of these steps, or did.
pub fn has_check(steps: &[LineStep]) -> bool
    ensures { result ≡ has_check steps.now }
{
    match steps.split_first() {
        Some((step, later)) => is_check(step) || has_check(later),
        None => false,
    }
}

fn is_check(step: &LineStep) -> bool
    ensures { result ≡ is_check step.now }
{
    match step {
        LineStep::Check(_) | LineStep::Failed => true,
        LineStep::Filter(_) | LineStep::Select(_) | LineStep::Take(_) | LineStep::Skip(_) => false,
        LineStep::TakeWhile(_) | LineStep::SkipWhile(_) | LineStep::Distinct(_) => false,
    }
}

fn has_failed(steps: &[LineStep]) -> bool
    ensures { result ≡ has_failed steps.now }
{
    match steps.split_first() {
        Some((step, later)) => is_failed(step) && !is_over(later) || has_failed(later),
        None => false,
    }
}

fn is_failed(step: &LineStep) -> bool
    ensures { result ≡ is_failed step.now }
{
    match step {
        LineStep::Failed => true,
        LineStep::Filter(_) | LineStep::Select(_) | LineStep::Take(_) | LineStep::Skip(_) => false,
        LineStep::TakeWhile(_) | LineStep::SkipWhile(_) | LineStep::Distinct(_) => false,
        LineStep::Check(_) => false,
    }
}

/// Whether no line more can come out of these steps: one of them is a `Take` that has nothing left to take, or a line failed a check.
pub fn is_over(steps: &[LineStep]) -> bool
    ensures { result ≡ is_over steps.now }
{
    match steps.split_first() {
        Some((step, later)) => takes_none(step) || is_over(later),
        None => false,
    }
}

fn takes_none(step: &LineStep) -> bool
    ensures { result ≡ takes_none step.now }
{
    match step {
        LineStep::Take(count) => *count == 0,
        LineStep::Filter(_) | LineStep::Select(_) | LineStep::Skip(_) => false,
        LineStep::TakeWhile(_) | LineStep::SkipWhile(_) | LineStep::Distinct(_) => false,
        LineStep::Check(_) => false,
        LineStep::Failed => true,
    }
}

/// Appends what the steps make of a text's lines, and leaves what is left of them once these lines have come. Returns how many
/// lines stand before the first that fails a check, if one does. The patterns are those of [`patterns`](crate::patterns), and
/// serve what is left as well.
///
/// # Errors
///
/// [`AllocError`] if there is no room for it.
pub fn pass_lines(
    alloc: Global,
    steps: &mut [LineStep],
    patterns: &[Pattern],
    text: &[u8],
    out: &mut Vec<u8>,
) -> Result<Option<usize>, AllocError>
    requires { ArePatternsOf steps.old patterns.now }
    ensures made { IfOk result (λ _. out.new.items ≡ out.old.items ++ answer_text steps.old text.now) }
    ensures left { IfOk result (λ _. steps.new ≡ left steps.old (lines_of text.now)) }
    ensures bad { IfOk result (λ bad. bad ≡ bad_line steps.old (lines_of text.now)) }
    ensures kept { IfOk result (λ _. ArePatternsOf steps.new patterns.now) }
{
    let mut searchers = searchers(alloc, patterns)?;
    let mut spares = Spares::new(alloc);
    pass_with(steps, searchers.as_mut_slice(), &mut spares, text, out)
}

fn pass_with(
    steps: &mut [LineStep],
    searchers: &mut [Searcher<'_>],
    spares: &mut Spares,
    text: &[u8],
    out: &mut Vec<u8>,
) -> Result<Option<usize>, AllocError>
    requires { ArePatternsOf steps.old searchers.old }
    ensures made { IfOk result (λ _. out.new.items ≡ out.old.items ++ answer_text steps.old text.now) }
    ensures left { IfOk result (λ _. steps.new ≡ left steps.old (lines_of text.now)) }
    ensures bad { IfOk result (λ bad. bad ≡ bad_line steps.old (lines_of text.now)) }
    ensures kept { IfOk result (λ _. ArePatternsOf steps.new searchers.old) }
{
    let mut rest = text;
    let mut count = 0;
    let mut bad = None;
    while let Some(line) = first_line(rest) {
        pass_line(steps, searchers, spares, 0, line.text, line.end, out)?;
        bad = first_bad(bad, count, steps);
        count += 1;
        rest = line.rest;
    }
    Ok(bad)
}

/// The number of the line that failed a check, if one did: one before, or else this one.
fn first_bad(before: Option<usize>, this: usize, steps: &[LineStep]) -> Option<usize>
    ensures { result ≡ or_now before (if has_failed steps.now then Some this else None) }
{
    if before.is_some() {
        return before;
    }
    if has_failed(steps) { Some(this) } else { None }
}

/// Appends what the steps make of one line, and leaves what is left of them. Their searchers are those from a place on.
#[tactic(auto, unfolding(crate::specs::Steps::row_does, crate::specs::Steps::row_after, crate::specs::StepPatterns::ArePatternsOf))]
fn pass_line(
    steps: &mut [LineStep],
    searchers: &mut [Searcher<'_>],
    spares: &mut Spares,
    at: usize,
    text: &[u8],
    end: &[u8],
    out: &mut Vec<u8>,
) -> Result<(), AllocError>
    requires { ArePatternsOf steps.old (drop at searchers.old) }
    ensures made { IfOk result (λ _. out.new.items ≡ out.old.items ++ bytes_of (row_does steps.old text.now) end.now) }
    ensures after { IfOk result (λ _. steps.new ≡ row_after steps.old text.now) }
    ensures same { searchers.new ≡ searchers.old }
    ensures kept { IfOk result (λ _. ArePatternsOf steps.new (drop at searchers.old)) }
{
    let Some((step, later)) = steps.split_first_mut() else {
        return put_line(text, end, out);
    };
    if at >= searchers.len() {
        return Ok(());
    }
    match pass_one(step, &mut searchers[at], spares, text)? {
        Outcome::Changes | Outcome::Gone => Ok(()),
        Outcome::Text(text) => pass_line(later, searchers, spares, at + 1, text, end, out),
        Outcome::Made(made) => {
            pass_line(later, searchers, spares, at + 1, made.as_slice(), end, out)?;
            spares.give_back(made)
        }
    }
}

/// What a step makes of the text of a line.
fn pass_one<'t>(
    step: &mut LineStep,
    searcher: &mut Searcher<'_>,
    spares: &mut Spares,
    text: &'t [u8],
) -> Result<Outcome<'t>, AllocError>
    requires { IsPatternOf step.old searcher.old }
    ensures does { IfOk result (λ outcome. text_of outcome ≡ does step.old text.now) }
    ensures after { IfOk result (λ _. step.new ≡ after_one step.old text.now) }
    ensures same { searcher.new ≡ searcher.old }
    ensures kept { IfOk result (λ _. IsPatternOf step.new searcher.old) }
{
    match step {
        LineStep::Filter(test) => Ok(text_if(passes(test, searcher, text), text)),
        LineStep::Select(which) => select(text, which, spares),
        LineStep::Take(0) => Ok(Outcome::Gone),
        LineStep::Take(count) => {
            *count -= 1;
            Ok(Outcome::Text(text))
        }
        LineStep::Skip(0) => Ok(Outcome::Text(text)),
        LineStep::Skip(count) => {
            *count -= 1;
            Ok(Outcome::Gone)
        }
        LineStep::TakeWhile(test) => {
            if passes(test, searcher, text) {
                return Ok(Outcome::Text(text));
            }
            *step = LineStep::Take(0);
            Ok(Outcome::Gone)
        }
        LineStep::SkipWhile(test) => {
            if passes(test, searcher, text) {
                return Ok(Outcome::Gone);
            }
            *step = LineStep::Skip(0);
            Ok(Outcome::Text(text))
        }
        LineStep::Distinct(known) => Ok(text_if(is_new(known, spares, text)?, text)),
        LineStep::Check(test) => {
            if passes(test, searcher, text) {
                return Ok(Outcome::Text(text));
            }
            *step = LineStep::Failed;
            Ok(Outcome::Gone)
        }
        LineStep::Failed => Ok(Outcome::Gone),
    }
}
