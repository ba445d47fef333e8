ghost use Rattle.std.specs.Prelude.{◌≡◌, IfOk};
ghost use Rattle.std.specs.List.{fold};
ghost use Rattle.plinq_text.specs.Lines.{Line, lines_of};

use std::alloc::AllocError;

/// What takes the lines of texts in, one text after another.
pub trait TakeLines: Drop {
    // What it is after one line more.
    ghost after: { Self → Line → Self };

    /// Takes in the lines of a text.
    ///
    /// # Errors
    ///
    /// [`AllocError`] if memory runs out.
    fn take_lines(&mut self, text: &[u8]) -> Result<(), AllocError>
        ensures { IfOk result (λ _. self.new ≡ fold (after) self.old (lines_of text.now)) };
}
