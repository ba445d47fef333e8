//! The lines of a text as a source.
ghost use Rattle.std.specs.Prelude.{◌≡◌, map, IfOk};
ghost use Rattle.std.specs.Str.Lines.{lines};
ghost use Rattle.plinq_slice.specs.Lines.{IsOfLines};

use crate::listing::list_source;
use plinq_source::{ListSource, OutOfMemory, Source};
use std::alloc::{AllocError, Global};

/// The lines of a text as a source, each without its newline (.NET's `File.ReadLines`, rayon's `par_lines`). The text is
/// borrowed; a list of its lines is made at once.
///
/// # Errors
///
/// [`OutOfMemory`] if there is no room for the list, as there is none for more than 2^40 lines.
///
/// ```text
/// let log = std::io::read_to_string(rt.alloc(), rt.stdin())?;
/// let source = lines_source(rt.alloc(), log.as_str())?;
/// ```
pub fn lines_source<'a>(alloc: Global, text: &'a str) -> Result<ListSource<&'a str>, OutOfMemory>
    ensures whole { IfOk result (λ s. IsOfLines text.now (⟦<ListSource<&'a str> as Source>⟧.whole s)) }
    ensures fresh { IfOk result (λ s. ⟦<ListSource<&'a str> as Source>⟧.given s ≡ 0) }
{
    match list_source(alloc, lines_of(alloc, text)?) {
        Ok(source) => Ok(source),
        Err(_) => Err(OutOfMemory),
    }
}

fn lines_of<'a>(alloc: Global, text: &'a str) -> Result<Vec<&'a str>, AllocError>
    ensures { IfOk result (λ list. map (λ line. line.now) list.items ≡ lines text.now) }
{
    text.lines().collect(alloc)
}
