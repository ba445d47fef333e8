//! What several tests ask for.
ghost use Rattle.std.specs.Prelude.{◌≤◌, All, IfSome, length};
ghost use Rattle.plinq_partition.specs.Partitions.{IsPartitionOf};

use plinq_enumerator::Growth;
use plinq_keyed::{Chunk, Guarded, Record, Tail};
use plinq_partition::{Chunked, Partition, TakeFault};
use plinq_source::RangeSource;
use std::alloc::Global;
use std::sync::Wait;

/// Some numbers, and their first partition, if there is room.
pub(crate) fn range_of(
    alloc: Global,
    start: i64,
    count: u64,
    growth: Growth,
) -> Option<(Chunked<RangeSource>, Partition<RangeSource>)>
    ensures { IfSome result (λ made. IsPartitionOf made.0 made.1) }
{
    let Ok(source) = RangeSource::new(start, count) else {
        return None;
    };
    match Chunked::new(alloc, source, growth) {
        Ok(made) => Some(made),
        Err(_) => None,
    }
}

/// A call of a partition, and the chunk that it is to give: its first key, its items and its tail.
#[derive(Clone, Copy)]
pub(crate) enum Call<'a> {
    Take(u64, &'a [i64], Option<Tail>),
    Try(u64, &'a [i64], Option<Tail>),
    Stop,
}

/// Makes a call. Returns whether it gives that chunk.
pub(crate) fn answer<R: Wait>(
    rt: &R,
    chunked: &Chunked<RangeSource>,
    partition: &mut Partition<RangeSource>,
    call: Call<'_>,
) -> Result<bool, TakeFault>
    requires { IsPartitionOf chunked.now partition.old }
    ensures { IsPartitionOf chunked.now partition.new }
{
    match call {
        Call::Take(first, items, tail) => is_chunk(partition.take(rt, chunked), first, items, tail),
        Call::Try(first, items, tail) => is_chunk(partition.try_take(chunked), first, items, tail),
        Call::Stop => {
            partition.stop(rt, chunked)?;
            Ok(true)
        }
    }
}

/// Whether it is given.
pub(crate) fn gives<R: Wait>(
    rt: &R,
    chunked: &Chunked<RangeSource>,
    partition: &mut Partition<RangeSource>,
    call: Call<'_>,
) -> bool
    requires { IsPartitionOf chunked.now partition.old }
    ensures { IsPartitionOf chunked.now partition.new }
{
    matches!(answer(rt, chunked, partition, call), Ok(true))
}

/// Whether a chunk begins with this key, and has these items and this tail.
pub(crate) fn is_chunk<T: PartialEq + Drop>(
    chunk: Result<Chunk<T>, TakeFault>,
    first: u64,
    items: &[T],
    tail: Option<Tail>,
) -> Result<bool, TakeFault> {
    let chunk = chunk?;
    Ok(chunk.first == first && chunk.items.as_slice() == items && chunk.tail == tail)
}

/// Whether these are all partitions of a source, with so many records, of which the last has this ticket.
pub(crate) fn have_all(
    chunked: Chunked<RangeSource>,
    partitions: Vec<Partition<RangeSource>>,
    count: usize,
    ticket: u64,
) -> bool
    requires some { 1 ≤ length partitions.items }
    requires of { All (IsPartitionOf chunked) partitions.items }
{
    match chunked.give_back(partitions) {
        Ok(enumerator) => are_so_many(enumerator.records(), count, ticket),
        Err(_) => false,
    }
}

fn are_so_many(records: &[Record], count: usize, ticket: u64) -> bool {
    match records.last() {
        Some(last) => records.len() == count && last.ticket == ticket,
        None => false,
    }
}

/// The same of a source's only partition; nothing if there is no room for a list of it.
pub(crate) fn has_all(
    alloc: Global,
    chunked: Chunked<RangeSource>,
    partition: Partition<RangeSource>,
    count: usize,
    ticket: u64,
) -> Option<bool>
    requires { IsPartitionOf chunked partition }
{
    let mut partitions = Vec::new(alloc);
    if partitions.push(partition).is_err() {
        return None;
    }
    Some(have_all(chunked, partitions, count, ticket))
}
