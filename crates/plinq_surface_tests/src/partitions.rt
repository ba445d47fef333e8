//! The calls of a source that is handed out on demand.
ghost use Rattle.std.specs.Prelude.{◌≡◌, ◌≤◌, ◌^◌, All, length};
ghost use Rattle.plinq_partition.specs.Partitions.{IsPartitionOf};

use plinq_enumerator::{Enumerator, Growth};
use plinq_keyed::Chunk;
use plinq_partition::{Chunked, PartFault, Partition, TakeFault};
use plinq_source::Source;
use std::alloc::Global;
use std::sync::Wait;

fn made<S: Source>(
    alloc: Global,
    source: S,
    growth: Growth,
) -> Result<(Chunked<S>, Partition<S>), TakeFault>
    requires { S.given source ≡ 0 }
{
    Chunked::new(alloc, source, growth)
}

fn made_from<S: Source>(
    alloc: Global,
    source: S,
    growth: Growth,
    t: u64,
) -> Result<(Chunked<S>, Partition<S>), TakeFault>
    requires unasked { S.given source ≡ 0 }
    requires within { t ≤ 2 ^ 62 }
{
    Chunked::with_first_ticket(alloc, source, growth, t)
}

fn some<S: Source>(
    chunked: &Chunked<S>,
    partition: Partition<S>,
    n: u64,
) -> Result<Vec<Partition<S>>, (Partition<S>, PartFault)>
    requires { IsPartitionOf chunked.now partition }
{
    chunked.partitions(partition, n)
}

fn another<S: Source>(chunked: &Chunked<S>, partition: &mut Partition<S>) -> Partition<S>
    requires { IsPartitionOf chunked.now partition.old }
{
    chunked.dynamic(partition)
}

fn taken<S: Source, R: Wait>(
    partition: &mut Partition<S>,
    rt: &R,
    chunked: &Chunked<S>,
) -> Result<Chunk<S::Item>, TakeFault>
    requires { IsPartitionOf chunked.now partition.old }
{
    partition.take(rt, chunked)
}

fn tried<S: Source>(
    partition: &mut Partition<S>,
    chunked: &Chunked<S>,
) -> Result<Chunk<S::Item>, TakeFault>
    requires { IsPartitionOf chunked.now partition.old }
{
    partition.try_take(chunked)
}

fn requests<S: Source>(partition: &Partition<S>) -> u64 {
    partition.requests()
}

fn stopped<S: Source, R: Wait>(
    partition: &mut Partition<S>,
    rt: &R,
    chunked: &Chunked<S>,
) -> Result<(), TakeFault>
    requires { IsPartitionOf chunked.now partition.old }
{
    partition.stop(rt, chunked)
}

fn given_back<S: Source>(
    chunked: Chunked<S>,
    partitions: Vec<Partition<S>>,
) -> Result<Enumerator<S>, (Option<Enumerator<S>>, TakeFault)>
    requires some { 1 ≤ length partitions.items }
    requires of { All (IsPartitionOf chunked) partitions.items }
{
    chunked.give_back(partitions)
}
