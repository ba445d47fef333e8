ghost use Rattle.std.specs.Prelude.{◌≡◌, not, [], IfOk};
ghost use Rattle.plinq_text.specs.Steps.{has, with_text_seen};

use indexmap::IndexSet;
use std::alloc::{AllocError, Global};
use std::fmt;
use std::marker::Model;

/// Texts that came, each kept once. A contract sees the list of them.
#[derive(Drop)]
pub struct Seen {
    alloc: Global,
    texts: IndexSet<Vec<u8>>,
}

impl Model for Seen {
    ghost use Rattle.std.specs.Prelude.{ℕ, List, map};

    ghost Value = { List (List ℕ) };

    ghost view = { λ s. map (λ t. t.items) s.texts.keys };
}

impl fmt::Debug for Seen {
    fn fmt<W: fmt::Write>(&self, f: &mut fmt::Formatter<W>) -> fmt::Result {
        write!(f, "Seen({})", self.texts.len())
    }
}

impl Seen {
    /// No text came yet.
    pub fn new(alloc: Global) -> Seen
        ensures { result ≡ [] }
    {
        Seen {
            alloc,
            texts: IndexSet::new(alloc),
        }
    }

    /// Keeps a text, and says whether it is new.
    pub(crate) fn see(&mut self, text: &[u8]) -> Result<bool, AllocError>
        ensures value { IfOk result (λ is_new. is_new ≡ not (has self.old text.now)) }
        ensures kept { IfOk result (λ _. self.new ≡ with_text_seen self.old text.now) }
    {
        if self.texts.contains(text) {
            return Ok(false);
        }
        let mut kept = Vec::new(self.alloc);
        kept.extend_from_slice(text)?;
        self.texts.insert(kept)?;
        Ok(true)
    }
}
