//! Sets and joins, of two lists.
ghost use Rattle.std.specs.Prelude.{◌≡◌, nat_eq, not};
ghost use Rattle.std.specs.List.{list_any};
ghost use Rattle.std.specs.Ordering.{int_eq};
ghost use Rattle.indexmap.specs.IndexMap.{get_by};

use indexmap::IndexMap;
use plinq_groups::{First, Last};
use plinq_query::from;
use plinq_slice::SliceSource;
use plinq_testing::WORKERS;
use std::alloc::Global;
use std::sync::Wait;
use std::test::*;
use std::thread::Threads;
use std::time::Clock;

const FIRST: [i64; 7] = [0, 2, 4, 5, 6, 8, 9];

const SECOND: [i64; 5] = [1, 3, 5, 7, 8];

/// `first.Except(second)`, whose items are distinct as they are.
fn except<R: Clock + Threads + Wait + Sync>(
    rt: &R,
    alloc: Global,
    second: &[i64],
    workers: u64,
) -> Option<Vec<i64>> {
    from(SliceSource::new(&FIRST).ok()?)
        .as_parallel()
        .with_degree(workers)
        .filter(
            |n: i64| -> bool
                ensures { result ≡ not (list_any (λ y. int_eq y n) second.entry.now) }
            { !second.contains(&n) },
        )
        .to_vec(rt, alloc)
        .ok()
}

/// `first.Intersect(second)`, by its distinct items.
fn intersect<R: Clock + Threads + Wait + Sync>(
    rt: &R,
    alloc: Global,
    second: &[i64],
    workers: u64,
) -> Option<Vec<i64>> {
    let both = from(SliceSource::new(&FIRST).ok()?)
        .as_parallel()
        .with_degree(workers)
        .filter(
            |n: i64| -> bool
                ensures { result ≡ list_any (λ y. int_eq y n) second.entry.now }
            { second.contains(&n) },
        )
        .select(
            |n: i64| -> (i64, ())
                ensures { result ≡ (n, tt) }
            { (n, ()) },
        )
        .group_by(rt, alloc, First::new())
        .ok()?;
    let mut found = Vec::new(alloc);
    for (item, _) in both.into_map() {
        found.push(item).ok()?;
    }
    Some(found)
}

/// `orders.LeftJoin(customers, o => o.Item1, c => c.Item1, (o, c) => ..)`: each order with its customer's letter, if there is one.
fn left_join<R: Clock + Threads + Wait + Sync>(
    rt: &R,
    alloc: Global,
    orders: &[(u64, i64)],
    letters: &IndexMap<u64, Option<u8>>,
    workers: u64,
) -> Option<Vec<(i64, Option<Option<u8>>)>> {
    from(SliceSource::new(orders).ok()?)
        .as_parallel()
        .with_degree(workers)
        .select(
            |o: (u64, i64)| -> (i64, Option<Option<u8>>)
                ensures { result ≡ (o.1, get_by (λ k. nat_eq k o.0) letters.entry.now) }
            { (o.1, letters.get(&o.0).copied()) },
        )
        .to_vec(rt, alloc)
        .ok()
}

#[test]
fn a_join_keeps_the_order_of_the_outer_side(rt: HostRuntime) {
    let customers = [(3u64, b'a'), (5, b'b'), (9, b'c')];
    let orders = [(5u64, 100i64), (4, 200), (3, 300), (5, 400)];
    let joined = [
        (100, Some(Some(b'b'))),
        (200, None),
        (300, Some(Some(b'a'))),
        (400, Some(Some(b'b'))),
    ];
    let Ok(source) = SliceSource::new(&customers) else {
        panic!(rt; "no source");
    };
    let letters = from(source)
        .select(
            |c: (u64, u8)| -> (u64, u8)
                ensures { result ≡ c }
            { c },
        )
        .group_by(rt.alloc(), Last::new());
    let Ok(letters) = letters else {
        panic!(rt; "no groups");
    };
    for workers in WORKERS {
        let found = left_join(&rt, rt.alloc(), &orders, letters.as_map(), workers);
        assert!(&rt; found.is_some_and(|it| it.as_slice() == joined.as_slice()));
    }
}

#[test]
fn sets_are_as_on_the_page(rt: HostRuntime) {
    for workers in WORKERS {
        let left = except(&rt, rt.alloc(), &SECOND, workers);
        assert!(&rt; left.is_some_and(|it| it.as_slice() == [0, 2, 4, 6, 9].as_slice()));
        let both = intersect(&rt, rt.alloc(), &SECOND, workers);
        assert!(&rt; both.is_some_and(|it| it.as_slice() == [5, 8].as_slice()));
    }
}
