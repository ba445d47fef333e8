ghost use Rattle.std.specs.Prelude.{◌≡◌};
ghost use Rattle.std.specs.List.{fold};
ghost use Rattle.plinq_aggregate.specs.Folding.{Folding, IsFolding};

/// What .NET's `Aggregate` takes: a seed, how an accumulator takes in an item, how two accumulators become one, and
/// what is made of the last one.
///
/// It may be shared by threads. Parts may be folded apart, each from the seed, and their accumulators combined in the
/// order of the parts: the laws below make the result that of one thread ([`fold_sequential`](crate::fold_sequential)).
/// Nothing takes memory.
pub trait Aggregator: Sync + Drop {
    /// What is taken in.
    type Item: Copy;

    /// What has been taken in so far.
    type Acc: Send + Drop;

    /// What is answered at the end.
    type Out;

    // The four functions that the methods compute.
    ghost folding: { Self → Folding Self.Item Self.Acc Self.Out };

    /// The accumulator of no items.
    fn seed(&self) -> Self::Acc
        ensures { result ≡ (folding self.now).seed };

    /// The accumulator after one item more.
    fn update(&self, acc: Self::Acc, x: Self::Item) -> Self::Acc
        ensures { result ≡ (folding self.now).update acc x };

    /// The accumulator after the items of a block, first to last.
    ///
    /// It is `update` for each; an aggregator with a quicker loop has its own.
    #[inline(always)]
    fn update_block(&self, acc: Self::Acc, block: &[Self::Item]) -> Self::Acc
        ensures { result ≡ fold (folding self.now).update acc block.now }
    {
        let mut acc = acc;
        for item in block {
            acc = self.update(acc, *item);
        }
        acc
    }

    /// The accumulator of the items of one and then of another.
    fn combine(&self, first: Self::Acc, second: Self::Acc) -> Self::Acc
        ensures { result ≡ (folding self.now).combine first second };

    /// What is answered for an accumulator (.NET's result selector).
    fn result(&self, acc: Self::Acc) -> Self::Out
        ensures { result ≡ (folding self.now).tell acc };

    ghost lawful: { (a : Self) → IsFolding (folding a) };
}
