ghost use Rattle.std.specs.Prelude.{◌≡◌, true, ℕ, List, All, IfOk, drop};
ghost use Rattle.plinq_text.specs.declared.line_step.LineStep.TheVariants.{Filter};
ghost use Rattle.plinq_text.specs.inner.Outcomes.{steady_of};
ghost use Rattle.plinq_text.specs.inner.Ready.{IsLineMade, IsReady, does_ready, row_ready};
ghost use Rattle.plinq_text.specs.Steady.{are_steady, is_steady, row_steady, steady_one};
ghost use Rattle.plinq_text.specs.StepPatterns.{ArePatternsOf, IsPatternOf, pattern_of};
ghost use Rattle.plinq_text.specs.Steps.{contains};

use crate::fields::select;
use crate::line_step::{Fields, LineStep};
use crate::line_test::{LineTest, TestKind, passes};
use crate::outcome::{Outcome, Spares, gone_while, text_if, text_while};
use crate::pattern::{Pattern, Searcher};
use crate::splitting::put_line;
use memchr::memmem::Finder;
use std::alloc::{AllocError, Global};

/// A step made ready for many lines: what is searched for is looked at once.
#[derive(Drop)]
pub(crate) enum ReadyStep<'q> {
    /// Lets a line pass in which these bytes stand.
    Search(Finder<'q>),
    /// Lets a line pass in which they don't.
    SearchNot(Finder<'q>),
    /// Lets a line pass by another test.
    Test(Tester<'q>),
    /// Lets lines pass while they pass this test.
    While(Tester<'q>),
    /// Leaves lines out while they pass this test.
    Until(Tester<'q>),
    /// Puts fields in the text's place.
    Parts(&'q Fields),
    /// Lets each line pass.
    Pass,
}

/// A test, and what searches for its pattern if it has one.
#[derive(Drop)]
pub(crate) struct Tester<'q> {
    pub(crate) test: &'q LineTest,
    pub(crate) searcher: Searcher<'q>,
}

/// Makes steps ready, with their patterns, for lines by which none of them changes.
pub(crate) fn ready<'q>(
    alloc: Global,
    steps: &'q [LineStep],
    patterns: &'q [Pattern],
) -> Result<Vec<ReadyStep<'q>>, AllocError>
    requires patterns { ArePatternsOf steps.now patterns.now }
    requires steady { are_steady steps.now ≡ true }
    ensures same { IfOk result (λ made. (text : List ℕ) → row_ready made.items text ≡ row_steady steps.now text) }
    ensures ready { IfOk result (λ made. All IsReady made.items) }
{
    let mut made = Vec::new(alloc);
    for i in 0..steps.len() {
        made.push(ready_step(alloc, &steps[i], &patterns[i])?)?;
    }
    Ok(made)
}

fn ready_step<'q>(
    alloc: Global,
    step: &'q LineStep,
    pattern: &'q Pattern,
) -> Result<ReadyStep<'q>, AllocError>
    requires pattern { IsPatternOf step.now pattern.now }
    requires steady { is_steady step.now ≡ true }
    ensures same { IfOk result (λ r. (text : List ℕ) → does_ready r text ≡ steady_one step.now text) }
    ensures ready { IfOk result IsReady }
{
    match step {
        LineStep::Filter(test) => ready_test(alloc, test, pattern),
        LineStep::Select(which) => Ok(ReadyStep::Parts(which)),
        LineStep::Skip(0) => Ok(ReadyStep::Pass),
        LineStep::TakeWhile(test) | LineStep::Check(test) => {
            Ok(ReadyStep::While(make_tester(alloc, test, pattern)?))
        }
        LineStep::SkipWhile(test) => Ok(ReadyStep::Until(make_tester(alloc, test, pattern)?)),
        LineStep::Take(_) | LineStep::Skip(_) | LineStep::Distinct(_) | LineStep::Failed => {
            unreachable!()
        }
    }
}

fn ready_test<'q>(
    alloc: Global,
    test: &'q LineTest,
    pattern: &'q Pattern,
) -> Result<ReadyStep<'q>, AllocError>
    requires { pattern.now ≡ pattern_of test.now }
    ensures same { IfOk result (λ r. (text : List ℕ) → does_ready r text ≡ steady_one (Filter test.now) text) }
    ensures ready { IfOk result IsReady }
{
    if test.field.is_some() {
        return Ok(ReadyStep::Test(make_tester(alloc, test, pattern)?));
    }
    match test.kind {
        TestKind::Contains if test.negated => {
            Ok(ReadyStep::SearchNot(Finder::new(test.text.as_bytes())))
        }
        TestKind::Contains => Ok(ReadyStep::Search(Finder::new(test.text.as_bytes()))),
        _ => Ok(ReadyStep::Test(make_tester(alloc, test, pattern)?)),
    }
}

fn make_tester<'q>(
    alloc: Global,
    test: &'q LineTest,
    pattern: &'q Pattern,
) -> Result<Tester<'q>, AllocError>
    requires { pattern.now ≡ pattern_of test.now }
    ensures test { IfOk result (λ t. t.test.now ≡ test.now) }
    ensures ready { IfOk result (λ t. t.searcher ≡ pattern_of test.now) }
{
    Ok(Tester {
        test,
        searcher: Searcher::new(alloc, pattern)?,
    })
}

/// Appends what ready steps from a place on make of one line, and says whether each stays as it is.
#[tactic(auto, unfolding(crate::specs::inner::Ready::row_ready))]
pub(crate) fn put_through(
    steps: &mut [ReadyStep<'_>],
    spares: &mut Spares,
    at: usize,
    text: &[u8],
    end: &[u8],
    out: &mut Vec<u8>,
) -> Result<bool, AllocError>
    requires { All IsReady steps.old }
    ensures made { IfOk result (λ stay. IsLineMade (row_ready (drop at steps.old) text.now) end.now out.old.items out.new.items stay) }
    ensures same { steps.new ≡ steps.old }
{
    if at >= steps.len() {
        put_line(text, end, out)?;
        return Ok(true);
    }
    match through_one(&mut steps[at], spares, text)? {
        Outcome::Changes => Ok(false),
        Outcome::Gone => Ok(true),
        Outcome::Text(text) => put_through(steps, spares, at + 1, text, end, out),
        Outcome::Made(made) => {
            let stay = put_through(steps, spares, at + 1, made.as_slice(), end, out)?;
            spares.give_back(made)?;
            Ok(stay)
        }
    }
}

fn through_one<'t>(
    step: &mut ReadyStep<'_>,
    spares: &mut Spares,
    text: &'t [u8],
) -> Result<Outcome<'t>, AllocError>
    requires { IsReady step.old }
    ensures does { IfOk result (λ outcome. steady_of outcome ≡ does_ready step.old text.now) }
    ensures same { step.new ≡ step.old }
{
    match step {
        ReadyStep::Search(finder) => Ok(text_if(finds(finder, text), text)),
        ReadyStep::SearchNot(finder) => Ok(text_if(!finds(finder, text), text)),
        ReadyStep::Test(tester) => {
            let passes = passes(tester.test, &mut tester.searcher, text);
            Ok(text_if(passes, text))
        }
        ReadyStep::While(tester) => {
            let passes = passes(tester.test, &mut tester.searcher, text);
            Ok(text_while(passes, text))
        }
        ReadyStep::Until(tester) => {
            let passes = passes(tester.test, &mut tester.searcher, text);
            Ok(gone_while(passes))
        }
        ReadyStep::Parts(which) => select(text, which, spares),
        ReadyStep::Pass => Ok(Outcome::Text(text)),
    }
}

fn finds(finder: &Finder<'_>, text: &[u8]) -> bool
    ensures { result ≡ contains finder.now text.now }
{
    finder.find(text).is_some()
}
