ghost use Rattle.std.specs.Prelude.{◌≡◌, [], Some, None, if◌then◌else◌};
ghost use Rattle.plinq_text.specs.inner.Outcomes.{kept_if, steady_of, text_of};

use std::alloc::{AllocError, Global};

/// What becomes of the text of a line by a step.
#[derive(Drop)]
pub(crate) enum Outcome<'t> {
    /// The step changes by it, so that it isn't made here.
    Changes,
    /// The line doesn't pass.
    Gone,
    /// It passes, with the text or a part of it.
    Text(&'t [u8]),
    /// It passes, with a text that was made.
    Made(Vec<u8>),
}

/// The text, if the line passes.
pub(crate) fn text_if(passes: bool, text: &[u8]) -> Outcome<'_>
    ensures text { text_of result ≡ kept_if passes text.now }
    ensures steady { steady_of result ≡ Some (kept_if passes text.now) }
{
    if passes {
        Outcome::Text(text)
    } else {
        Outcome::Gone
    }
}

/// The text, if the line passes, or else the step changes.
pub(crate) fn text_while(passes: bool, text: &[u8]) -> Outcome<'_>
    ensures { steady_of result ≡ (if passes then Some (Some text.now) else None) }
{
    if passes {
        Outcome::Text(text)
    } else {
        Outcome::Changes
    }
}

/// Nothing while lines are left out, or else the step changes.
pub(crate) fn gone_while<'t>(passes: bool) -> Outcome<'t>
    ensures { steady_of result ≡ (if passes then Some None else None) }
{
    if passes {
        Outcome::Gone
    } else {
        Outcome::Changes
    }
}

/// Buffers for texts that are made. They are used again for the next line.
#[derive(Drop)]
pub(crate) struct Spares {
    alloc: Global,
    buffers: Vec<Vec<u8>>,
}

impl Spares {
    pub(crate) fn new(alloc: Global) -> Spares {
        Spares {
            alloc,
            buffers: Vec::new(alloc),
        }
    }

    /// An empty buffer.
    pub(crate) fn take(&mut self) -> Vec<u8>
        ensures { result.items ≡ [] }
    {
        match self.buffers.pop() {
            Some(mut buffer) => {
                buffer.clear();
                buffer
            }
            None => Vec::new(self.alloc),
        }
    }

    pub(crate) fn give_back(&mut self, buffer: Vec<u8>) -> Result<(), AllocError> {
        self.buffers.push(buffer)?;
        Ok(())
    }
}
