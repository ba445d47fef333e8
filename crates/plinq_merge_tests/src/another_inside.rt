//! A partition that tries while another one is inside.
ghost use Rattle.std.specs.Prelude.{All, ◌≡◌, IfSome, length};
ghost use Rattle.plinq_partition.specs.Partitions.{IsPartitionOf};

use crate::expecting::is_chunk;
use plinq_enumerator::Growth;
use plinq_partition::{Chunked, Partition, TakeFault};
use plinq_source::{RangeSource, Source};
use plinq_testing::{Inside, KeepsInside, waits_for};
use std::alloc::Global;
use std::sync::Wait;
use std::sync::atomic::{AtomicBool, AtomicU64, Ordering};
use std::thread;
use std::thread::Threads;

/// What two threads tell one another, and whether one has waited for too long or was answered otherwise than it should be.
#[derive(Drop)]
struct Signals {
    inside: Inside,
    /// 1 once the first may leave.
    may_leave: AtomicU64,
    is_wrong: AtomicBool,
}

impl Signals {
    fn new() -> Signals {
        Signals {
            inside: Inside::new(),
            may_leave: AtomicU64::new(0),
            is_wrong: AtomicBool::new(false),
        }
    }

    fn expect(&self, is_right: bool) {
        if !is_right {
            self.is_wrong.store(true, Ordering::SeqCst);
        }
    }

    /// Whether nothing was wrong.
    fn are_right(&self) -> bool {
        !self.inside.gave_up() && !self.is_wrong.load(Ordering::SeqCst)
    }
}

/// The first takes, and is kept inside; the second tries meanwhile, and lets it leave.
fn take_or_try<S: Source<Item = i64>, R: Wait>(
    rt: &R,
    chunked: &Chunked<S>,
    signals: &Signals,
    place: usize,
    partition: &mut Partition<S>,
)
    requires { IsPartitionOf chunked.now partition.old }
    ensures { IsPartitionOf chunked.now partition.new }
{
    if place == 0 {
        let told = is_chunk(partition.take(rt, chunked), 0, &[0], None);
        signals.expect(matches!(told, Ok(true)));
        return;
    }
    signals.expect(waits_for(&signals.inside.came, 1));
    let told = partition.try_take(chunked);
    signals.expect(matches!(
        told,
        Err(TakeFault::Busy {
            served: 0,
            drawn: 1
        })
    ));
    signals.may_leave.store(1, Ordering::SeqCst);
}

/// Each in a thread of its own.
fn take_and_try<S: Source<Item = i64>, R: Threads + Wait + Sync>(
    rt: &R,
    chunked: &Chunked<S>,
    signals: &Signals,
    partitions: &mut [Partition<S>],
)
    requires { All (IsPartitionOf chunked.now) partitions.old }
    ensures same { length partitions.new ≡ length partitions.old }
    ensures of { All (IsPartitionOf chunked.now) partitions.new }
{
    thread::for_each_mut(
        rt,
        partitions,
        2,
        &|place: usize, partition: &mut Partition<S>|
            requires { IsPartitionOf chunked.now partition.now }
            ensures { IsPartitionOf chunked.entry.now partition.exit.now }
        { take_or_try(rt, chunked, signals, place, partition) },
    );
}

/// A range that keeps the first one inside until the second says that it may leave.
type Keeping<'a> = KeepsInside<'a, RangeSource>;

/// Such a source, and two partitions of it.
fn made<'a>(
    alloc: Global,
    signals: &'a Signals,
) -> Option<(Chunked<Keeping<'a>>, Vec<Partition<Keeping<'a>>>)>
    ensures count { IfSome result (λ made. length made.1.items ≡ 2) }
    ensures of { IfSome result (λ made. All (IsPartitionOf made.0) made.1.items) }
{
    let Ok(range) = RangeSource::new(0, 3) else {
        return None;
    };
    let source = KeepsInside {
        source: range,
        late: 0,
        word: &signals.may_leave,
        inside: &signals.inside,
    };
    let Ok((chunked, first)) = Chunked::new(alloc, source, Growth::ONE) else {
        return None;
    };
    match chunked.partitions(first, 2) {
        Ok(partitions) => Some((chunked, partitions)),
        Err(_) => None,
    }
}

/// Whether the second is told that the first is inside, and takes after it.
fn takes_after_it<S: Source<Item = i64>, R: Threads + Wait + Sync>(
    rt: &R,
    chunked: &Chunked<S>,
    signals: &Signals,
    partitions: &mut [Partition<S>],
) -> bool
    requires count { length partitions.old ≡ 2 }
    requires of { All (IsPartitionOf chunked.now) partitions.old }
{
    take_and_try(rt, chunked, signals, partitions);
    let told = is_chunk(partitions[1].try_take(chunked), 1, &[1], None);
    matches!(told, Ok(true)) && signals.are_right()
}

/// The same of a source that keeps the first inside.
fn is_told<R: Threads + Wait + Sync>(rt: &R, alloc: Global) -> bool {
    let signals = Signals::new();
    let Some((chunked, mut partitions)) = made(alloc, &signals) else {
        return false;
    };
    takes_after_it(rt, &chunked, &signals, &mut partitions)
}

#[test]
fn another_one_is_inside(rt: HostRuntime) {
    assert!(rt; is_told(&rt, rt.alloc()));
}
