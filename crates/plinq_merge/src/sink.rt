ghost use Rattle.std.specs.Prelude.{◌≡◌, ℕ, ◌<◌, List, [], Some, MatchResult};
ghost use Rattle.plinq_ops.specs.Batches.{full_batches};
ghost use Rattle.plinq_merge.specs.Sending.{TakesEach, singles};

/// Where the batches of an answer go.
///
/// ```text
/// impl Sink for Lines {
///     type Item = i64;
///
///     fn batch(&mut self, items: &[i64]) -> Result<(), u32> { .. }   // Err(code) refuses the batch
/// }
/// ```
pub trait Sink {
    /// What the batches hold.
    type Item;

    // The sink before a batch that it takes, the batch, the sink after it.
    ghost accepts: { Self → List Self.Item → Self → Type 0 };

    // The sink before a batch that it refuses, the batch, the code, the sink after it.
    ghost refuses: { Self → List Self.Item → ℕ → Self → Type 0 };

    /// Takes a batch, or refuses it with a code of its own.
    ///
    /// # Errors
    ///
    /// The sink's code. A merger hands it no further batch then.
    fn batch(&mut self, items: &[Self::Item]) -> Result<(), u32>
        ensures { MatchResult result
            (λ _. accepts self.old items.now self.new)
            (λ code. refuses self.old items.now code self.new) };

    /// Takes the full batches of one size that these items make, one after another, up to the first that it refuses. Items
    /// that are left after them aren't delivered. A sink that takes many at once more quickly has its own.
    ///
    /// # Errors
    ///
    /// The sink's code for the first batch that it refuses; it was handed none of those after it.
    #[tactic(auto, using(crate::proofs::Delivered::handing))]
    fn batches_of(&mut self, size: usize, items: &[Self::Item]) -> Result<(), u32>
        requires { 0 < size }
        ensures { TakesEach accepts refuses self.old (full_batches (Some size) [] items.now) result self.new }
    {
        let mut rest = items;
        while rest.len() >= size {
            let (batch, others) = rest.split_at(size);
            self.batch(batch)?;
            rest = others;
        }
        Ok(())
    }

    /// Takes batches of one item each, one after another, up to the first that it refuses: [`Sink::batches_of`] of size 1,
    /// which is what a run calls.
    ///
    /// # Errors
    ///
    /// As [`Sink::batches_of`].
    #[tactic(auto, using(crate::proofs::Delivered::handing))]
    fn batches_of_one(&mut self, items: &[Self::Item]) -> Result<(), u32>
        ensures { TakesEach accepts refuses self.old (singles items.now) result self.new }
    {
        self.batches_of(1, items)
    }

    /// No batch is there to be delivered now, and it may take a while until the next. A sink that holds back what it
    /// took, as a buffer does, hands it on. This delivers nothing.
    fn idle(&mut self)
        ensures { self.new ≡ self.old }
    {}
}
