ghost use Rattle.std.specs.Prelude.{◌≡◌};

/// A field of each item, which an aggregate is taken of (.NET's selector).
///
/// It may be shared by threads.
pub trait FieldOf: Sync + Drop {
    /// What has the field.
    type Item: Copy;

    /// The field, or what is computed of the item.
    type Field: Copy;

    // The field of an item.
    ghost fields: { Self → Self.Item → Self.Field };

    /// The field of an item; it takes no memory.
    fn field_of(&self, x: Self::Item) -> Self::Field
        ensures { result ≡ fields self.now x };
}
