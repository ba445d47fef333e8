ghost use Rattle.std.specs.Prelude.{◌≡◌, Bool};
ghost use Rattle.plinq_keyed.specs.declared.properties.KeyProperties.{KeyProperties};

use plinq_keyed::KeyProperties;

/// What splits keyed elements into partitions, after .NET's `OrderablePartitioner<TSource>`.
pub trait OrderablePartitioner {
    // What it promises of its partitions' keys.
    ghost promised: { Self → KeyProperties };

    // Whether it makes partitions on demand.
    ghost on_demand: { Self → Bool };

    /// What it promises of its partitions' keys. Takes no memory.
    fn properties(&self) -> KeyProperties
        ensures { result ≡ promised self.now };

    /// Whether it makes partitions on demand (`SupportsDynamicPartitions`). Takes no memory.
    fn supports_dynamic(&self) -> bool
        ensures { result ≡ on_demand self.now };
}
