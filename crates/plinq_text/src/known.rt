ghost use Rattle.std.specs.Prelude.{◌≡◌, not, IfOk};
ghost use Rattle.plinq_text.specs.Steps.{has, key_of, with_text_seen};

use crate::fields::select;
use crate::line_step::{Fields, Known};
use crate::outcome::{Outcome, Spares};
use std::alloc::AllocError;

/// Whether a text's key is new, which is known then.
pub(crate) fn is_new(
    known: &mut Known,
    spares: &mut Spares,
    text: &[u8],
) -> Result<bool, AllocError>
    ensures value { IfOk result (λ is_new. is_new ≡ not (has known.old.seen (key_of known.old.key text.now))) }
    ensures key { known.new.key ≡ known.old.key }
    ensures seen { IfOk result (λ _. known.new.seen ≡ with_text_seen known.old.seen (key_of known.old.key text.now)) }
{
    let Some(fields) = &known.key else {
        return known.seen.see(text);
    };
    match select(text, fields, spares)? {
        Outcome::Changes | Outcome::Gone => Ok(false),
        Outcome::Text(key) => known.seen.see(key),
        Outcome::Made(key) => {
            let is_new = known.seen.see(key.as_slice())?;
            spares.give_back(key)?;
            Ok(is_new)
        }
    }
}
