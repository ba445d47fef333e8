//! Groups, distinct items and orders.
ghost use Rattle.std.specs.Prelude.{◌≡◌, int_rem, pos};

use plinq_aggregate::{Count, Sum};
use plinq_groups::{Collect, First};
use plinq_query::from;
use plinq_slice::SliceSource;
use plinq_testing::WORKERS;
use std::alloc::Global;
use std::sync::Wait;
use std::test::*;
use std::thread::Threads;
use std::time::Clock;

const NUMBERS: [i64; 10] = [5, 4, 1, 3, 9, 8, 6, 7, 2, 0];

/// The remainders of `numbers.GroupBy(n => n % 5)` in their order, of each how many items there are and the last of them, and the
/// sum of those of the remainder 4.
fn by_remainder<R: Clock + Threads + Wait + Sync>(
    rt: &R,
    alloc: Global,
    workers: u64,
) -> Option<(Vec<(i64, u64, Option<i64>)>, Option<i128>)> {
    let groups = from(SliceSource::new(&NUMBERS).ok()?)
        .as_parallel()
        .with_degree(workers)
        .select(
            |n: i64| -> (i64, i64)
                ensures { result ≡ (int_rem n (pos 5), n) }
            { (n % 5, n) },
        )
        .group_by(rt, alloc, Collect::new())
        .ok()?;
    let sums = from(SliceSource::new(&NUMBERS).ok()?)
        .as_parallel()
        .with_degree(workers)
        .select(
            |n: i64| -> (i64, i64)
                ensures { result ≡ (int_rem n (pos 5), n) }
            { (n % 5, n) },
        )
        .group_by(rt, alloc, Sum)
        .ok()?;
    let mut found = Vec::new(alloc);
    for (remainder, items) in groups.into_map() {
        let items = items.as_slice();
        found
            .push((remainder, items.len() as u64, items.last().copied()))
            .ok()?;
    }
    Some((found, sums.as_map().get(&4).copied()))
}

/// `new[] { 2, 2, 3, 5, 5 }.Distinct()`, and how often each is there (`CountBy`).
fn distinct<R: Clock + Threads + Wait + Sync>(
    rt: &R,
    alloc: Global,
    workers: u64,
) -> Option<(Vec<i64>, Vec<(i64, u64)>)> {
    let factors = [2i64, 2, 3, 5, 5];
    let items = from(SliceSource::new(&factors).ok()?)
        .as_parallel()
        .with_degree(workers)
        .select(
            |n: i64| -> (i64, ())
                ensures { result ≡ (n, tt) }
            { (n, ()) },
        )
        .group_by(rt, alloc, First::new())
        .ok()?;
    let counts = from(SliceSource::new(&factors).ok()?)
        .as_parallel()
        .with_degree(workers)
        .select(
            |n: i64| -> (i64, i64)
                ensures { result ≡ (n, n) }
            { (n, n) },
        )
        .group_by(rt, alloc, Count)
        .ok()?;
    let mut found = Vec::new(alloc);
    for (item, _) in items.into_map() {
        found.push(item).ok()?;
    }
    let mut counted = Vec::new(alloc);
    for each in counts.into_map() {
        counted.push(each).ok()?;
    }
    Some((found, counted))
}

/// `numbers.OrderByDescending(n => n % 5).Take(3)`
fn three_of_the_greatest<R: Clock + Threads + Wait + Sync>(
    rt: &R,
    alloc: Global,
    workers: u64,
) -> Option<Vec<(i64, i64)>> {
    from(SliceSource::new(&NUMBERS).ok()?)
        .as_parallel()
        .with_degree(workers)
        .select(
            |n: i64| -> (i64, i64)
                ensures { result ≡ (int_rem n (pos 5), n) }
            { (n % 5, n) },
        )
        .top(rt, alloc, 3)
        .ok()
}

#[test]
fn groups_are_as_on_the_page(rt: HostRuntime) {
    let remainders = [
        (0i64, 2u64, Some(0i64)),
        (4, 2, Some(9)),
        (1, 2, Some(6)),
        (3, 2, Some(8)),
        (2, 2, Some(2)),
    ];
    for workers in WORKERS {
        match by_remainder(&rt, rt.alloc(), workers) {
            Some((found, sum)) => {
                assert!(&rt; found.as_slice() == remainders.as_slice() && sum == Some(13));
            }
            None => panic!(rt; "no groups"),
        }
        match distinct(&rt, rt.alloc(), workers) {
            Some((items, counts)) => {
                assert!(&rt; items.as_slice() == [2, 3, 5].as_slice());
                assert!(&rt; counts.as_slice() == [(2, 2), (3, 1), (5, 2)].as_slice());
            }
            None => panic!(rt; "no groups"),
        }
        let greatest = three_of_the_greatest(&rt, rt.alloc(), workers);
        assert!(&rt;
            greatest.is_some_and(|it| it.as_slice() == [(4, 4), (4, 9), (3, 3)].as_slice())
        );
    }
}
