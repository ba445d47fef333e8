//! What is reported to a partition if it is given nothing.
ghost use Rattle.std.specs.Prelude.{◌≡◌, ◌≤◌, ◌^◌, All, length, IfSome};
ghost use Rattle.plinq_partition.specs.Partitions.{IsPartitionOf};

use crate::expecting::{Call, answer, gives, has_all, have_all, range_of};
use plinq_enumerator::Growth;
use plinq_keyed::Tail;
use plinq_partition::{Chunked, Partition, TakeFault};
use plinq_source::RangeSource;
use plinq_testing::says;
use std::alloc::Global;
use std::sync::Wait;

/// What stands for a call that isn't answered as it should be.
const WRONG: u64 = 9;

/// Makes a call, and once more if the first is refused for lack of memory. Returns how many were refused.
fn refusals<R: Wait>(
    rt: &R,
    chunked: &Chunked<RangeSource>,
    partition: &mut Partition<RangeSource>,
    call: Call<'_>,
) -> u64
    requires { IsPartitionOf chunked.now partition.old }
    ensures { IsPartitionOf chunked.now partition.new }
{
    match answer(rt, chunked, partition, call) {
        Ok(true) => 0,
        Err(TakeFault::Memory) => {
            if gives(rt, chunked, partition, call) {
                1
            } else {
                WRONG
            }
        }
        _ => WRONG,
    }
}

/// Two partitions, at the second attempt if the first is refused.
fn two_at_last(
    chunked: &Chunked<RangeSource>,
    partition: Partition<RangeSource>,
) -> Option<Vec<Partition<RangeSource>>>
    requires { IsPartitionOf chunked.now partition }
    ensures count { IfSome result (λ made. length made.items ≡ 2) }
    ensures of { IfSome result (λ made. All (IsPartitionOf chunked.now) made.items) }
{
    let partition = match chunked.partitions(partition, 2) {
        Ok(partitions) => return Some(partitions),
        Err((partition, _)) => partition,
    };
    match chunked.partitions(partition, 2) {
        Ok(partitions) => Some(partitions),
        Err(_) => None,
    }
}

/// Three numbers, at the second attempt if the first is refused.
fn three_at_last(alloc: Global) -> Option<(Chunked<RangeSource>, Partition<RangeSource>)>
    ensures { IfSome result (λ made. IsPartitionOf made.0 made.1) }
{
    match range_of(alloc, 0, 3, Growth::DEFAULT) {
        Some(made) => Some(made),
        None => range_of(alloc, 0, 3, Growth::DEFAULT),
    }
}

/// Whether of calls of two partitions one at most is refused, and uses up a ticket then.
fn change_nothing<R: Wait>(rt: &R, alloc: Global) -> bool {
    let Some((chunked, mut first)) = three_at_last(alloc) else {
        return false;
    };
    let taken = refusals(rt, &chunked, &mut first, Call::Take(0, &[0], None));
    let Some(mut partitions) = two_at_last(&chunked, first) else {
        return false;
    };
    let second = &mut partitions[1];
    let tried = refusals(rt, &chunked, second, Call::Try(1, &[1], None));
    let stopped = refusals(rt, &chunked, second, Call::Stop);
    let refused = taken.wrapping_add(tried).wrapping_add(stopped);
    let are_all = have_all(chunked, partitions, 3, refused.wrapping_add(2));
    refused <= 1 && are_all
}

/// Each call is refused once at most, changes nothing then but that a ticket is gone, and returns the next time. Run with
/// each allocation failing in turn.
#[test]
fn a_refused_allocation_changes_nothing(rt: HostRuntime) {
    assert!(rt; change_nothing(&rt, rt.alloc()));
}

/// Whether a refused first chunk uses up a ticket, if there is room for all else.
fn uses_up_a_ticket<R: Wait>(rt: &R, alloc: Global) -> bool {
    let Some((chunked, mut partition)) = range_of(alloc, 5, 2, Growth::DEFAULT) else {
        return true;
    };
    let refused = refusals(rt, &chunked, &mut partition, Call::Try(0, &[5], None));
    let requests = partition.requests();
    match has_all(alloc, chunked, partition, 1, refused) {
        Some(is_all) => requests == 1 && is_all,
        None => requests == 1 && refused <= 1,
    }
}

/// A first chunk is refused for lack of room for its items, or for its record. Run with each allocation failing in turn.
#[test]
fn a_refused_first_chunk_uses_up_a_ticket(rt: HostRuntime) {
    assert!(rt; uses_up_a_ticket(&rt, rt.alloc()));
}

/// Stops a source of which nothing was taken; if that is refused, nothing is closed, and the next call closes it.
fn stops<R: Wait>(
    rt: &R,
    chunked: &Chunked<RangeSource>,
    partition: &mut Partition<RangeSource>,
) -> bool
    requires { IsPartitionOf chunked.now partition.old }
    ensures { IsPartitionOf chunked.now partition.new }
{
    match answer(rt, chunked, partition, Call::Stop) {
        Ok(is_stopped) => is_stopped,
        Err(fault) => {
            matches!(fault, TakeFault::Memory)
                && gives(rt, chunked, partition, Call::Try(0, &[5], None))
                && gives(rt, chunked, partition, Call::Stop)
        }
    }
}

/// Whether a stop closes the source, or nothing if it is refused, if there is room for the lock and an empty chunk.
fn closes<R: Wait>(rt: &R, alloc: Global) -> bool {
    let Some((chunked, mut partition)) = range_of(alloc, 5, 2, Growth::DEFAULT) else {
        return true;
    };
    let is_stopped = stops(rt, &chunked, &mut partition);
    match partition.try_take(&chunked) {
        Ok(chunk) => is_stopped && chunk.items.is_empty() && chunk.tail == Some(Tail::Closed),
        Err(_) => is_stopped,
    }
}

/// A first `stop` is refused, or not. Run with each allocation failing in turn.
#[test]
fn a_refused_stop_closes_nothing(rt: HostRuntime) {
    assert!(rt; closes(&rt, rt.alloc()));
}

/// The numbers 1, 2 and 3, under tickets from that one on.
fn with_first_ticket(
    alloc: Global,
    ticket: u64,
) -> Option<(Chunked<RangeSource>, Partition<RangeSource>)>
    requires { ticket ≤ 2 ^ 62 }
    ensures { IfSome result (λ made. IsPartitionOf made.0 made.1) }
{
    let Ok(source) = RangeSource::new(1, 3) else {
        return None;
    };
    match Chunked::with_first_ticket(alloc, source, Growth::ONE, ticket) {
        Ok(made) => Some(made),
        Err(_) => None,
    }
}

/// Whether each call is told that no ticket is left.
fn is_spent<R: Wait>(
    rt: &R,
    chunked: &Chunked<RangeSource>,
    partition: &mut Partition<RangeSource>,
) -> bool
    requires { IsPartitionOf chunked.now partition.old }
    ensures { IsPartitionOf chunked.now partition.new }
{
    let tried = answer(rt, chunked, partition, Call::Try(0, &[], None));
    let taken = answer(rt, chunked, partition, Call::Take(0, &[], None));
    let stopped = answer(rt, chunked, partition, Call::Stop);
    let is_spent = |told: Result<bool, TakeFault>| matches!(told, Err(TakeFault::Spent));
    is_spent(tried) && is_spent(taken) && is_spent(stopped)
}

/// The last ticket of each lock.
const LAST: u64 = 4_611_686_018_427_387_903;

/// Whether the last two tickets are given to two calls, and then none.
fn are_the_last<R: Wait>(rt: &R, alloc: Global) -> bool {
    let Some((chunked, mut partition)) = with_first_ticket(alloc, LAST - 1) else {
        return false;
    };
    let first = gives(rt, &chunked, &mut partition, Call::Try(0, &[1], None));
    let second = gives(rt, &chunked, &mut partition, Call::Try(1, &[2], None));
    let is_over = is_spent(rt, &chunked, &mut partition);
    let are_all = has_all(alloc, chunked, partition, 2, LAST);
    first && second && is_over && are_all == Some(true)
}

/// Whether none is given above the last.
fn is_over<R: Wait>(rt: &R, alloc: Global) -> bool {
    match with_first_ticket(alloc, LAST + 1) {
        Some((chunked, mut partition)) => is_spent(rt, &chunked, &mut partition),
        None => false,
    }
}

#[test]
fn the_last_ticket_is_taken_once(rt: HostRuntime) {
    assert!(rt; are_the_last(&rt, rt.alloc()) && is_over(&rt, rt.alloc()));
}

/// How many attempts to take from a source whose last two tickets are left were refused: that to make it as well.
fn refused_at_last<R: Wait>(rt: &R, alloc: Global) -> u64 {
    let (made, before) = match with_first_ticket(alloc, LAST - 1) {
        Some(made) => (Some(made), 0),
        None => (with_first_ticket(alloc, LAST - 1), 1),
    };
    match made {
        Some((chunked, mut partition)) => {
            refusals(rt, &chunked, &mut partition, Call::Try(0, &[1], None)).wrapping_add(before)
        }
        None => WRONG,
    }
}

/// Of the last two tickets a refused chunk uses up the first. Run with each allocation failing in turn.
#[test]
fn a_refused_start_at_a_ticket_is_memory(rt: HostRuntime) {
    assert!(rt; refused_at_last(&rt, rt.alloc()) <= 1);
}

#[test]
fn faults_in_words_of_a_partition(rt: HostRuntime) {
    for (fault, text) in [
        (TakeFault::Memory, "out of memory"),
        (TakeFault::Spent, "tickets spent"),
        (
            TakeFault::Busy {
                served: 3,
                drawn: 5,
            },
            "busy, 3 served of 5 drawn",
        ),
        (
            TakeFault::Incomplete { have: 1, all: 2 },
            "incomplete, 1 records of 2",
        ),
        (TakeFault::Away, "away"),
    ] {
        assert!(rt; says(rt.alloc(), &fault, text), "{text}");
    }
}
