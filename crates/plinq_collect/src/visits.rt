ghost use Rattle.std.specs.Prelude.{⊤, ℕ, Result};

use std::marker::PhantomData;

/// How something is called with items.
pub(crate) trait Visits {
    /// What is called.
    type Called;

    /// What it is called with.
    type Item: Copy;

    // It may be called with any item, whatever it was called with before.
    ghost is_called: { Type 0 };

    // What it is before a call, the item, what it answers, what it is after it.
    ghost steps: { Self.Called → Self.Item → Result ⊤ ℕ → Self.Called → Type 0 };

    /// Calls it with an item.
    ///
    /// # Errors
    ///
    /// The code that it answers.
    fn visit(called: &mut Self::Called, item: Self::Item) -> Result<(), u32>
        requires { is_called }
        ensures { steps called.old item result called.new };
}

/// How a closure is called with items.
pub(crate) struct Visitor<T, F> {
    item: PhantomData<T>,
    by: PhantomData<F>,
}

impl<T: Copy, F: FnMut(T) -> Result<(), u32>> Visits for Visitor<T, F> {
    type Called = F;

    type Item = T;

    ghost is_called = { (by : F) (x : T) → F.pre by x };

    ghost steps = { λ f x r g. F.step f x r g };

    fn visit(called: &mut F, item: T) -> Result<(), u32> {
        called(item)
    }
}
