//! Partitions on one thread: one beside another, one that is missing, lists that are given back, another type.
ghost use Rattle.std.specs.Prelude.{IfSome};
ghost use Rattle.plinq_partition.specs.Partitions.{IsPartitionOf};

use crate::expecting::{Call, gives, have_all, is_chunk, range_of};
use plinq_enumerator::Growth;
use plinq_keyed::{Guarded, Tail};
use plinq_partition::{Chunked, Partition, TakeFault};
use plinq_source::{ListSource, RangeSource};
use std::alloc::Global;
use std::sync::Wait;

fn take_in_turn<R: Wait>(rt: &R, alloc: Global) -> bool {
    let Some((chunked, mut first)) = range_of(alloc, 0, 3, Growth::DEFAULT) else {
        return false;
    };
    let mut second = chunked.dynamic(&mut first);
    let one = gives(rt, &chunked, &mut first, Call::Take(0, &[0], None));
    let two = gives(rt, &chunked, &mut second, Call::Try(1, &[1], None));
    let mut partitions = Vec::new(alloc);
    if partitions.push(first).is_err() || partitions.push(second).is_err() {
        return false;
    }
    let are_all = have_all(chunked, partitions, 2, 1);
    one && two && are_all
}

#[test]
fn two_partitions_take_in_turn(rt: HostRuntime) {
    assert!(rt; take_in_turn(&rt, rt.alloc()));
}

/// What is reported if the second of two partitions, which each took once, isn't given back. The two records come with it.
fn told_without_the_second<R: Wait>(rt: &R, alloc: Global) -> Option<TakeFault> {
    let (chunked, mut first) = range_of(alloc, 0, 4, Growth::DEFAULT)?;
    let mut second = chunked.dynamic(&mut first);
    let one = gives(rt, &chunked, &mut first, Call::Take(0, &[0], None));
    let two = gives(rt, &chunked, &mut second, Call::Take(1, &[1], None));
    drop(second);
    let mut partitions = Vec::new(alloc);
    if partitions.push(first).is_err() {
        return None;
    }
    let Err((enumerator, fault)) = chunked.give_back(partitions) else {
        return None;
    };
    let records = match enumerator {
        Some(enumerator) => enumerator.records().len(),
        None => 0,
    };
    if one && two && records == 2 {
        Some(fault)
    } else {
        None
    }
}

#[test]
fn the_second_of_two_is_dropped(rt: HostRuntime) {
    let told = told_without_the_second(&rt, rt.alloc());
    assert!(rt; matches!(told, Some(TakeFault::Incomplete { have: 1, all: 2 })));
}

/// Lends a list to a partition's next chunk.
fn lend(chunked: &Chunked<RangeSource>, partition: &mut Partition<RangeSource>, list: Vec<i64>)
    requires { IsPartitionOf chunked.now partition.old }
    ensures { IsPartitionOf chunked.now partition.new }
{
    partition.reuse(list);
}

/// Whether a call that was lent a list of so many sevens gives what it is to give.
fn gives_with<R: Wait>(
    rt: &R,
    alloc: Global,
    chunked: &Chunked<RangeSource>,
    partition: &mut Partition<RangeSource>,
    sevens: usize,
    call: Call<'_>,
) -> bool
    requires { IsPartitionOf chunked.now partition.old }
    ensures { IsPartitionOf chunked.now partition.new }
{
    let Ok(list) = vec![in alloc; 7; sevens] else {
        return false;
    };
    lend(chunked, partition, list);
    gives(rt, chunked, partition, call)
}

/// Whether a chunk of one item takes the room of a list of three, and the next one takes its.
fn takes_the_room<R: Wait>(
    rt: &R,
    alloc: Global,
    chunked: &Chunked<RangeSource>,
    partition: &mut Partition<RangeSource>,
) -> bool
    requires { IsPartitionOf chunked.now partition.old }
    ensures { IsPartitionOf chunked.now partition.new }
{
    let Ok(list) = vec![in alloc; 7, 8, 9] else {
        return false;
    };
    lend(chunked, partition, list);
    let Ok(chunk) = partition.take(rt, chunked) else {
        return false;
    };
    let is_first = chunk.items.as_slice() == [0].as_slice() && chunk.items.capacity() == 3;
    lend(chunked, partition, chunk.items);
    gives(rt, chunked, partition, Call::Try(1, &[1], None)) && is_first
}

fn takes_rooms<R: Wait>(rt: &R, alloc: Global) -> bool {
    let Some((chunked, mut partition)) = range_of(alloc, 0, 2, Growth::ONE) else {
        return false;
    };
    let (ended, closed) = (Some(Tail::Ended), Some(Tail::Closed));
    takes_the_room(rt, alloc, &chunked, &mut partition)
        && gives_with(
            rt,
            alloc,
            &chunked,
            &mut partition,
            1,
            Call::Take(2, &[], ended),
        )
        && gives_with(rt, alloc, &chunked, &mut partition, 1, Call::Stop)
        && gives(rt, &chunked, &mut partition, Call::Take(2, &[], closed))
}

#[test]
fn a_chunk_takes_the_room_of_a_list_that_was_given_back(rt: HostRuntime) {
    assert!(rt; takes_rooms(&rt, rt.alloc()));
}

fn grows<R: Wait>(rt: &R, alloc: Global) -> bool {
    let Ok(growth) = Growth::new(2, 1, 2) else {
        return false;
    };
    let Some((chunked, mut partition)) = range_of(alloc, 0, 5, growth) else {
        return false;
    };
    gives_with(
        rt,
        alloc,
        &chunked,
        &mut partition,
        1,
        Call::Take(0, &[0, 1], None),
    )
}

#[test]
fn a_list_that_is_too_small_grows(rt: HostRuntime) {
    assert!(rt; grows(&rt, rt.alloc()));
}

/// A list of truths that refuses after them, and its first partition.
fn truths(alloc: Global) -> Option<(Chunked<ListSource<bool>>, Partition<ListSource<bool>>)>
    ensures { IfSome result (λ made. IsPartitionOf made.0 made.1) }
{
    let Ok(growth) = Growth::new(2, 1, 2) else {
        return None;
    };
    let Ok(truths) = vec![in alloc; true, false, false] else {
        return None;
    };
    match Chunked::new(alloc, ListSource::refusing(alloc, truths, 7), growth) {
        Ok(made) => Some(made),
        Err(_) => None,
    }
}

/// Whether they are handed out.
fn are_handed_out<R: Wait>(rt: &R, alloc: Global) -> bool {
    let Some((chunked, mut partition)) = truths(alloc) else {
        return false;
    };
    let one = is_chunk(partition.take(rt, &chunked), 0, &[true, false], None);
    let refused = Some(Tail::Refused(7));
    let two = is_chunk(partition.try_take(&chunked), 2, &[false], refused);
    matches!((one, two), (Ok(true), Ok(true)))
}

/// Another item type, and a source that refuses.
#[test]
fn a_list_of_truths_is_handed_out(rt: HostRuntime) {
    assert!(rt; are_handed_out(&rt, rt.alloc()));
}
