ghost use Rattle.std.specs.Prelude.{ℕ, Ok, Err, MatchResult};

use std::marker::PhantomData;

/// How something is called with what a query makes.
pub trait Visits {
    /// What is called.
    type Called;

    /// What it is called with.
    type Item: Copy;

    // It may be called with any item, whatever it was called with before.
    ghost is_called: { Type 0 };

    // What it is before a call that goes well, the item, what it is after it.
    ghost takes: { Self.Called → Self.Item → Self.Called → Type 0 };

    // The same of a call that returns a code.
    ghost refuses: { Self.Called → Self.Item → ℕ → Self.Called → Type 0 };

    /// Calls it with an item.
    ///
    /// # Errors
    ///
    /// The code that it returns.
    fn visit(called: &mut Self::Called, item: Self::Item) -> Result<(), u32>
        requires { is_called }
        ensures { MatchResult result (λ _. takes called.old item called.new) (λ code. refuses called.old item code called.new) };
}

/// How a closure is called that returns nothing.
pub struct Tells<T, F> {
    item: PhantomData<T>,
    by: PhantomData<F>,
}

impl<T: Copy, F: FnMut(T)> Visits for Tells<T, F> {
    type Called = F;

    type Item = T;

    ghost is_called = { (by : F) (x : T) → F.pre by x };

    ghost takes = { λ f x g. F.step f x tt g };

    ghost refuses = { λ _ _ _ _. ⊥ };

    fn visit(called: &mut F, item: T) -> Result<(), u32> {
        called(item);
        Ok(())
    }
}

/// How a closure is called that may return a code.
pub struct Tries<T, F> {
    item: PhantomData<T>,
    by: PhantomData<F>,
}

impl<T: Copy, F: FnMut(T) -> Result<(), u32>> Visits for Tries<T, F> {
    type Called = F;

    type Item = T;

    ghost is_called = { (by : F) (x : T) → F.pre by x };

    ghost takes = { λ f x g. F.step f x (Ok tt) g };

    ghost refuses = { λ f x code g. F.step f x (Err code) g };

    fn visit(called: &mut F, item: T) -> Result<(), u32> {
        called(item)
    }
}
