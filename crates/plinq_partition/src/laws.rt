ghost use Rattle.std.specs.Prelude.{◌≡◌, List, [], ◌∷◌, true};
ghost use Rattle.plinq_source.specs.Trace.{Trace};
ghost use Rattle.plinq_keyed.specs.declared.record.Record.{Record};
ghost use Rattle.plinq_keyed.specs.History.{IsLegalHistory, handed_out};
ghost use Rattle.plinq_keyed.specs.Keys.{keys, ordered_in_each, normalized};
ghost use Rattle.plinq_partition.specs.Partitions.{KeepsPromise};
ghost use Rattle.plinq_partition.specs.PartitionRecords.{keys_rise_from};
ghost use Rattle.plinq_partition.specs.Together.{TakesAreOneHistory};

use crate::chunked::Chunked;
use crate::partitioner::OrderablePartitioner;
use plinq_source::Source;

/// The keys that a partition was given rise.
///
/// This function does nothing: it is there for the law in its contract.
pub fn keys_of_a_partition_rise<T>()
    ensures { (t : Trace T) (share : List Record) → keys_rise_from 0 share ≡ true → ordered_in_each (keys (handed_out t share) ∷ []) ≡ true }
{}

/// What all partitions together were given has the keys 0, 1, 2 and so on, each once.
///
/// This function does nothing: it is there for the law in its contract.
pub fn keys_of_all_partitions_are_normalized<T>()
    ensures { (t : Trace T) (h : List Record) → IsLegalHistory t h → normalized (keys (handed_out t h) ∷ []) ≡ true }
{}

/// What a chunked source promises of its partitions' keys, these have: the keys of each rise, and all together are 0, 1, 2
/// and so on, each once. That their records together are a legal history is what `Chunked::give_back` and `records` say.
///
/// This function does nothing: it is there for the law in its contract.
pub fn chunked_keeps_its_promise<S: Source>()
    ensures { KeepsPromise ⟦<Chunked<S> as OrderablePartitioner>⟧.promised }
{}

/// What all partitions together took is one history's chunks.
///
/// Of partitions whose records together are a legal history ([`Chunked::give_back`] says so), the chunks that `take` gave, each
/// once and in the order of their records' tickets, are that history's replies. Their elements are the first of the source,
/// under the keys 0, 1, 2 and so on. This function does nothing: it is there for the law in its contract.
pub fn takes_are_one_history<T>()
    ensures { TakesAreOneHistory T }
{}
