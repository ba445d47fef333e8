ghost use Rattle.std.specs.Prelude.{◌≡◌, ℕ};

/// An item for each key, from 0 on.
pub trait ItemAt: Send + Drop {
    /// What stands at the keys.
    type Item: Copy + Send;

    // The item of a key.
    ghost items: { Self → ℕ → Self.Item };

    /// The item of a key. Takes no memory.
    fn item_at(&self, key: u64) -> Self::Item
        ensures { result ≡ items self.now key };
}
