ghost use Rattle.std.specs.Prelude.{◌≡◌, true, All, IfOk};
ghost use Rattle.plinq_text.specs.inner.Ready.{IsReady, row_ready};
ghost use Rattle.plinq_text.specs.Lines.{lines_of};
ghost use Rattle.plinq_text.specs.Steady.{AreMade, are_steady, made_steady, steady_lines};
ghost use Rattle.plinq_text.specs.StepPatterns.{ArePatternsOf};

use crate::line_step::LineStep;
use crate::outcome::Spares;
use crate::pattern::Pattern;
use crate::ready::{ReadyStep, put_through, ready};
use crate::splitting::first_line;
use std::alloc::{AllocError, Global};

/// Appends what steady steps make of a text's lines, and says whether each step is as it was then. If one isn't, some of it may be
/// appended. The patterns are those of [`patterns`](crate::patterns).
///
/// # Errors
///
/// [`AllocError`] if there is no room for it.
pub fn make_lines(
    alloc: Global,
    steps: &[LineStep],
    patterns: &[Pattern],
    text: &[u8],
    out: &mut Vec<u8>,
) -> Result<bool, AllocError>
    requires patterns { ArePatternsOf steps.now patterns.now }
    requires steady { are_steady steps.now ≡ true }
    ensures { IfOk result (λ stay. AreMade (steady_lines steps.now (lines_of text.now)) out.old.items out.new.items stay) }
{
    let mut ready = ready(alloc, steps, patterns)?;
    let mut spares = Spares::new(alloc);
    make_ready(ready.as_mut_slice(), &mut spares, text, out)
}

fn make_ready(
    steps: &mut [ReadyStep<'_>],
    spares: &mut Spares,
    text: &[u8],
    out: &mut Vec<u8>,
) -> Result<bool, AllocError>
    requires { All IsReady steps.old }
    ensures { IfOk result (λ stay. AreMade (made_steady (row_ready steps.old) (lines_of text.now)) out.old.items out.new.items stay) }
{
    let mut rest = text;
    while let Some(line) = first_line(rest) {
        if !put_through(steps, spares, 0, line.text, line.end, out)? {
            return Ok(false);
        }
        rest = line.rest;
    }
    Ok(true)
}
