ghost use Rattle.std.specs.Prelude.{◌≡◌, ◌||◌, ℕ, Bool};

/// What is asked before each batch whether to stop (.NET's `CancellationToken`).
///
/// Once it has answered `true` it isn't asked again, and nothing more is delivered.
///
/// ```text
/// impl Cancel for Deadline<'_> {
///     fn cancelled(&mut self, _delivered: u64) -> bool { .. }   // whether its time is up
///     fn told(&self) -> bool { .. }                             // whether it has said so
/// }
/// ```
pub trait Cancel {
    // The token before a question, how many batches were delivered, the answer, the token after it.
    ghost asks: { Self → ℕ → Bool → Self → Type 0 };

    // Whether it has answered true.
    ghost has_told: { Self → Bool };

    /// Whether to stop, if so many batches were delivered.
    fn cancelled(&mut self, delivered: u64) -> bool
        ensures { asks self.old delivered result self.new };

    /// Whether it has answered `true`.
    fn told(&self) -> bool
        ensures { result ≡ has_told self.now };

    // It has answered true where it had before, or does so now.
    ghost keeps_told: { (t : Self) (n : ℕ) (answer : Bool) (t' : Self) → asks t n answer t' → has_told t' ≡ (has_told t || answer) };
}
