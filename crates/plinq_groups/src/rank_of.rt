ghost use Rattle.std.specs.Prelude.{◌≡◌};

/// By what items are compared (.NET's key selector of `MinBy` and `MaxBy`).
///
/// It may be shared by threads.
pub trait RankOf: Sync + Drop {
    /// What is compared.
    type Item: Copy + Send;

    /// What it is compared by.
    type Rank: Ord + Drop;

    // The rank of an item.
    ghost ranks: { Self → Self.Item → Self.Rank };

    /// The rank of an item; it takes no memory.
    fn rank_of(&self, x: Self::Item) -> Self::Rank
        ensures { result ≡ ranks self.now x };
}
