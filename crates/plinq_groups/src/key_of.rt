ghost use Rattle.std.specs.Prelude.{◌≡◌};

use std::hash::Hash;

/// What the key of an item is. Items whose keys are equal make a group (.NET's key selector).
///
/// It may be shared by threads.
pub trait KeyOf: Sync + Drop {
    /// What has a key.
    type Item: Copy;

    /// The key: a number, a text that is borrowed, or a pair of such.
    type Key: Eq + Hash + Send + Drop;

    // The key of an item.
    ghost keys: { Self → Self.Item → Self.Key };

    /// The key of an item; it takes no memory.
    fn key_of(&self, x: Self::Item) -> Self::Key
        ensures { result ≡ keys self.now x };
}
