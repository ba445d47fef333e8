ghost use Rattle.std.specs.Prelude.{◌≡◌, ◌≢◌, ⊤, [], ◌∷◌};
ghost use Rattle.plinq_collect.specs.ItemFoldings.{first_of};

use crate::visits::Visits;
use plinq_merge::Sink;
use std::marker::PhantomData;

/// Keeps the first item that comes, and refuses its batch, so that no more come.
#[derive(Drop)]
pub struct KeepFirst<T> {
    pub item: Option<T>,
}

impl<T: Copy> Sink for KeepFirst<T> {
    type Item = T;

    ghost accepts = { λ s batch s'. (batch ≡ []) × (s' ≡ s) };

    ghost refuses = { λ s batch code s'. (batch ≢ []) × (s'.item ≡ first_of batch) };

    fn batch(&mut self, items: &[T]) -> Result<(), u32> {
        match items.first() {
            Some(item) => {
                self.item = Some(*item);
                Err(0)
            }
            None => Ok(()),
        }
    }
}

/// How it is given items one by one.
pub struct First<T>(PhantomData<T>);

impl<T: Copy> Visits for First<T> {
    type Called = KeepFirst<T>;

    type Item = T;

    ghost is_called = { ⊤ };

    ghost takes = { λ s y s'. ((y ∷ []) ≡ []) × (s' ≡ s) };

    ghost refuses = { λ s y code s'. ((y ∷ []) ≢ []) × (s'.item ≡ first_of (y ∷ [])) };

    fn visit(called: &mut KeepFirst<T>, item: T) -> Result<(), u32> {
        called.item = Some(item);
        Err(0)
    }
}
