//! Many threads that take from one source.
ghost use Rattle.std.specs.Prelude.{All, ◌≡◌, ◌≤◌, length, IfSome};
ghost use Rattle.plinq_partition.specs.Partitions.{IsPartitionOf};

use crate::expecting::range_of;
use plinq_enumerator::{Growth, replays};
use plinq_keyed::{Guarded, Keyed, Record, check_in_each, check_normalized};
use plinq_partition::{Chunked, Partition, TakeFault};
use plinq_source::{Ending, RangeSource};
use std::alloc::Global;
use std::sync::{Mutex, Wait};
use std::test::Fail;
use std::thread;
use std::thread::Threads;

/// What the threads do: all take until there is a tail but every fourth, which stops half way. If one is to stop the
/// source, that is the first, half way too.
#[derive(Clone, Copy)]
struct Row {
    items: u64,
    threads: u64,
    growth: Growth,
    half: u64,
    stops: bool,
}

impl Row {
    /// How many chunks the thread at that place takes at most.
    fn turns(&self, place: usize) -> u64 {
        if place % 4 == 1 || (place == 0 && self.stops) {
            self.half
        } else {
            u64::MAX
        }
    }
}

/// What each thread took.
type Lists = Mutex<Vec<Vec<Keyed<i64>>>>;

/// Takes until there is a tail, at most so often, and keeps the elements.
fn take_all<R: Wait>(
    rt: &R,
    alloc: Global,
    chunked: &Chunked<RangeSource>,
    partition: &mut Partition<RangeSource>,
    most: u64,
) -> Result<Vec<Keyed<i64>>, TakeFault>
    requires { IsPartitionOf chunked.now partition.old }
    ensures { IsPartitionOf chunked.now partition.new }
{
    let mut taken = Vec::new(alloc);
    for _turn in 0..most {
        let chunk = partition.take(rt, chunked)?;
        if !keep(&mut taken, chunk.first, &chunk.items) {
            return Err(TakeFault::Memory);
        }
        if chunk.tail.is_some() {
            return Ok(taken);
        }
    }
    Ok(taken)
}

/// Keeps some values under the keys from that one on, if there is room.
fn keep(taken: &mut Vec<Keyed<i64>>, first: u64, values: &[i64]) -> bool {
    let mut key = first;
    for value in values {
        if taken.push(Keyed { key, value: *value }).is_err() {
            return false;
        }
        key = key.wrapping_add(1);
    }
    true
}

/// What the thread at that place does; what it took goes to the lists.
fn work<R: Wait>(
    rt: &R,
    alloc: Global,
    chunked: &Chunked<RangeSource>,
    row: Row,
    lists: &Lists,
    place: usize,
    partition: &mut Partition<RangeSource>,
)
    requires { IsPartitionOf chunked.now partition.old }
    ensures { IsPartitionOf chunked.now partition.new }
{
    let taken = take_all(rt, alloc, chunked, partition, row.turns(place));
    if place == 0 && row.stops && partition.stop(rt, chunked).is_err() {
        return;
    }
    if let Ok(taken) = taken {
        let _missed = lists.lock(rt).push(taken);
    }
}

/// Each partition takes in a thread of its own.
fn work_all<R: Threads + Wait + Sync>(
    rt: &R,
    alloc: Global,
    chunked: &Chunked<RangeSource>,
    row: Row,
    lists: &Lists,
    partitions: &mut [Partition<RangeSource>],
)
    requires { All (IsPartitionOf chunked.now) partitions.old }
    ensures same { length partitions.new ≡ length partitions.old }
    ensures of { All (IsPartitionOf chunked.now) partitions.new }
{
    thread::for_each_mut(
        rt,
        partitions,
        64,
        &|place: usize, partition: &mut Partition<RangeSource>|
            requires { IsPartitionOf chunked.now partition.now }
            ensures { IsPartitionOf chunked.entry.now partition.exit.now }
        { work(rt, alloc, chunked, row, lists, place, partition) },
    );
}

/// How many items these records say were handed out.
fn count_of(records: &[Record]) -> u64 {
    let mut count: u64 = 0;
    for record in records {
        count = count.wrapping_add(record.count);
    }
    count
}

/// Whether each element's value is its own number.
fn are_own(list: &[Keyed<i64>]) -> bool {
    list.iter()
        .all(|element| i64::try_from(element.key) == Ok(element.value))
}

/// How many elements lists have.
fn items_in(lists: &[Vec<Keyed<i64>>]) -> u64 {
    let mut count: u64 = 0;
    for list in lists {
        count = count.wrapping_add(list.len() as u64);
    }
    count
}

/// Whether lists have the keys from 0 on, each once and in order in each list, each with its own number as value.
fn are_all(lists: &[Vec<Keyed<i64>>], count: u64) -> bool {
    check_in_each(lists)
        && check_normalized(lists)
        && lists.iter().all(|list| are_own(list))
        && items_in(lists) == count
}

/// Whether records replay, and nothing is lost or handed out twice.
fn is_right(row: &Row, records: &[Record], lists: &[Vec<Keyed<i64>>]) -> bool {
    let count = count_of(records);
    replays(records, row.items, Ending::End)
        && lists.len() as u64 == row.threads
        && are_all(lists, count)
        && (row.stops || count == row.items)
}

/// The partitions of a row.
fn partitions_of(
    alloc: Global,
    row: Row,
) -> Option<(Chunked<RangeSource>, Vec<Partition<RangeSource>>)>
    ensures some { IfSome result (λ made. 1 ≤ length made.1.items) }
    ensures of { IfSome result (λ made. All (IsPartitionOf made.0) made.1.items) }
{
    let (chunked, first) = range_of(alloc, 0, row.items, row.growth)?;
    match chunked.partitions(first, row.threads) {
        Ok(partitions) => {
            if partitions.is_empty() {
                return None;
            }
            Some((chunked, partitions))
        }
        Err(_) => None,
    }
}

/// Whether the threads of a row take what they should, and all is given back.
fn all_take<R: Threads + Wait + Sync>(rt: &R, alloc: Global, row: Row) -> bool {
    let Some((chunked, mut partitions)) = partitions_of(alloc, row) else {
        return false;
    };
    let lists: Lists = Mutex::new(Vec::new(alloc));
    work_all(rt, alloc, &chunked, row, &lists, &mut partitions);
    let lists = lists.into_inner();
    match chunked.give_back(partitions) {
        Ok(enumerator) => is_right(&row, enumerator.records(), &lists),
        Err(_) => false,
    }
}

#[test]
fn many_threads_take_from_a_long_source(rt: HostRuntime) -> Result<(), Fail> {
    let small = Growth::new(1, 1, 4)?;
    for threads in [2, 8, 64] {
        for growth in [Growth::ONE, small, Growth::DEFAULT] {
            for stops in [false, true] {
                let row = Row {
                    items: 100_000,
                    threads,
                    growth,
                    half: 40,
                    stops,
                };
                assert!(rt; all_take(&rt, rt.alloc(), row), "{threads} {stops}");
            }
        }
    }
    Ok(())
}
