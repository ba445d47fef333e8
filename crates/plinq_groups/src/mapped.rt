ghost use Rattle.std.specs.Prelude.{◌≡◌, ℕ, List, Option};

use std::marker::Model;

/// What was made of items, and the code of the one after them that faulted, if there is one.
///
/// A contract sees the pair of the list and the code.
#[derive(Drop)]
pub struct Mapped<B> {
    pub(crate) made: Vec<B>,
    pub(crate) fault: Option<u32>,
}

impl<B> Model for Mapped<B> {
    ghost Value = { List B × Option ℕ };

    ghost view = { λ m. (m.made.items, m.fault) };
}

impl<B> Mapped<B> {
    /// What was made, in the order of the items, and the code.
    pub fn into_parts(self) -> (Vec<B>, Option<u32>)
        ensures { (result.0.items, result.1) ≡ self }
    {
        (self.made, self.fault)
    }
}
