ghost use Rattle.std.specs.Prelude.{◌≡◌, IfOk, IfSome, List, ℕ, Option, is_some, option_map};
ghost use Rattle.std.specs.Option.{ForSome};
ghost use Rattle.regex.specs.Bytes.{matcher_pattern, regex_source};
ghost use Rattle.plinq_text.specs.Patterns.{pattern_finds};
ghost use Rattle.plinq_text.specs.StepPatterns.{ArePatternsOf, has_pattern, pattern_of, pattern_of_step};
ghost use Rattle.plinq_text.specs.Compiled.{FindsAs, IsCompiled};

use crate::line_step::LineStep;
use crate::line_test::{LineTest, TestKind};
use regex::bytes::{Matcher, Regex};
use std::alloc::{AllocError, Global};
use std::marker::Model;

/// The pattern of a step's test, compiled, or nothing if it has none. A contract sees the text of the pattern.
#[derive(Drop)]
pub struct Pattern {
    regex: Option<Regex>,
    ghost compiled: { ∥ ForSome regex IsCompiled ∥₁ },
}

impl Model for Pattern {
    ghost Value = { Option (List ℕ) };

    ghost view = { λ p. option_map regex_source p.regex };
}

impl Pattern {
    // (an expression that is none is taken for want of memory, as `patterns` says)
    fn of_test(alloc: Global, test: &LineTest) -> Result<Pattern, AllocError>
        ensures { IfOk result (λ p. p ≡ pattern_of test.now) }
    {
        match test.kind {
            TestKind::Matches => match Regex::new(alloc, &test.text) {
                Ok(regex) => Ok(Pattern { regex: Some(regex) }),
                Err(_) => Err(AllocError),
            },
            _ => Ok(Pattern { regex: None }),
        }
    }

    fn is_some(&self) -> bool
        ensures { result ≡ is_some self.now }
    {
        self.regex.is_some()
    }

    fn of_step(alloc: Global, step: &LineStep) -> Result<Pattern, AllocError>
        ensures { IfOk result (λ p. p ≡ pattern_of_step step.now) }
    {
        match step {
            LineStep::Filter(test) => Pattern::of_test(alloc, test),
            LineStep::TakeWhile(test) => Pattern::of_test(alloc, test),
            LineStep::SkipWhile(test) => Pattern::of_test(alloc, test),
            LineStep::Check(test) => Pattern::of_test(alloc, test),
            LineStep::Select(_) | LineStep::Take(_) | LineStep::Skip(_) => {
                Ok(Pattern { regex: None })
            }
            LineStep::Distinct(_) | LineStep::Failed => Ok(Pattern { regex: None }),
        }
    }
}

/// What searches for a pattern, if there is one. A contract sees the text of the pattern.
#[derive(Drop)]
pub(crate) struct Searcher<'r> {
    pattern: &'r Pattern,
    matcher: Option<Matcher<'r>>,
    ghost has_one: { option_map (λ _. tt {0}) matcher ≡ option_map (λ _. tt {0}) pattern.now },
    ghost finds: { ∥ ForSome matcher (λ m. ForSome pattern.now (λ p. FindsAs p (matcher_pattern m))) ∥₁ },
}

impl<'r> Model for Searcher<'r> {
    ghost Value = { Option (List ℕ) };

    ghost view = { λ s. s.pattern.now };
}

impl<'r> Searcher<'r> {
    pub(crate) fn new(alloc: Global, pattern: &'r Pattern) -> Result<Searcher<'r>, AllocError>
        ensures { IfOk result (λ s. s ≡ pattern.now) }
    {
        match &pattern.regex {
            Some(regex) => Ok(Searcher {
                pattern,
                matcher: Some(regex.matcher(alloc)?),
            }),
            None => Ok(Searcher {
                pattern,
                matcher: None,
            }),
        }
    }

    /// Whether the pattern matches somewhere in a text.
    pub(crate) fn finds(&mut self, text: &[u8]) -> bool
        ensures value { IfSome self.old (λ pattern. result ≡ pattern_finds pattern text.now) }
        ensures same { self.new ≡ self.old }
    {
        let Some(matcher) = &mut self.matcher else {
            return false;
        };
        matcher.is_match(text)
    }
}

/// Whether there is a pattern among these.
pub fn has_pattern(patterns: &[Pattern]) -> bool
    ensures { result ≡ has_pattern patterns.now }
{
    match patterns.split_first() {
        Some((pattern, later)) => pattern.is_some() || has_pattern(later),
        None => false,
    }
}

/// Compiles the patterns of steps, one for each step.
///
/// # Errors
///
/// [`AllocError`] if memory runs out, and if what a test is to match is no regular expression or is too large a one. Whoever makes
/// such a test compiles it once, to see what is wrong with it.
pub fn patterns(alloc: Global, steps: &[LineStep]) -> Result<Vec<Pattern>, AllocError>
    ensures { IfOk result (λ all. ArePatternsOf steps.now all.items) }
{
    let mut all = Vec::with_capacity(alloc, steps.len())?;
    for step in steps {
        all.push(Pattern::of_step(alloc, step)?)?;
    }
    Ok(all)
}

/// What searches for these patterns.
pub(crate) fn searchers<'r>(
    alloc: Global,
    patterns: &'r [Pattern],
) -> Result<Vec<Searcher<'r>>, AllocError>
    ensures { IfOk result (λ all. all.items ≡ patterns.now) }
{
    let mut all = Vec::with_capacity(alloc, patterns.len())?;
    for pattern in patterns {
        all.push(Searcher::new(alloc, pattern)?)?;
    }
    Ok(all)
}
