//! Filters, positions, searches and aggregates.
ghost use Rattle.std.specs.Prelude.{◌≡◌, int_le, int_lt, int_rem, length, ◌*◌, nat_lt, pos};
ghost use Rattle.std.specs.Ordering.{int_eq};

use plinq_aggregate::{Count, Max, Min, Sum};
use plinq_groups::{Both, Last, Only, Single};
use plinq_query::{QueryFault, from};
use plinq_slice::SliceSource;
use plinq_testing::WORKERS;
use std::alloc::Global;
use std::sync::Wait;
use std::test::*;
use std::thread::Threads;
use std::time::Clock;

const NUMBERS: [i64; 10] = [5, 4, 1, 3, 9, 8, 6, 7, 2, 0];

const DIGITS: [&str; 10] = [
    "zero", "one", "two", "three", "four", "five", "six", "seven", "eight", "nine",
];

/// `numbers.Where(n => n < 5)`
fn below_five<R: Clock + Threads + Wait + Sync>(
    rt: &R,
    alloc: Global,
    workers: u64,
) -> Option<Vec<i64>> {
    from(SliceSource::new(&NUMBERS).ok()?)
        .as_parallel()
        .with_degree(workers)
        .filter(
            |n: i64| -> bool
                ensures { result ≡ int_lt n (pos 5) }
            { n < 5 },
        )
        .to_vec(rt, alloc)
        .ok()
}

/// `digits.Where((digit, index) => digit.Length < index)`
fn shorter_than_their_position<'a, R: Clock + Threads + Wait + Sync>(
    rt: &R,
    alloc: Global,
    digits: &[&'a str],
    workers: u64,
) -> Option<Vec<(u64, &'a str)>> {
    from(SliceSource::new(digits).ok()?)
        .as_parallel()
        .with_degree(workers)
        .index()
        .filter(
            |p: (u64, &str)| -> bool
                ensures { result ≡ nat_lt (length p.entry.1.now) p.entry.0 }
            { (p.1.len() as u64) < p.0 },
        )
        .to_vec(rt, alloc)
        .ok()
}

/// `numbers.TakeWhile((n, index) => n >= index)`
fn up_to_their_position<R: Clock + Threads + Wait + Sync>(
    rt: &R,
    alloc: Global,
    workers: u64,
) -> Option<Vec<(u64, i64)>> {
    from(SliceSource::new(&NUMBERS).ok()?)
        .as_parallel()
        .with_degree(workers)
        .index()
        .take_while(
            |p: (u64, i64)| -> bool
                ensures { result ≡ int_le (pos p.0) p.1 }
            { i128::from(p.0) <= i128::from(p.1) },
        )
        .to_vec(rt, alloc)
        .ok()
}

/// `numbers.Where(n => n > 5).ElementAt(1)`, `numbers.Any(n => n > 9)`, `numbers.All(n => n < 10)`,
/// `numbers.Count(n => n % 2 == 1)`
fn questions<R: Clock + Threads + Wait + Sync>(
    rt: &R,
    alloc: Global,
    workers: u64,
) -> Option<(Option<i64>, bool, bool, u64)> {
    let second = from(SliceSource::new(&NUMBERS).ok()?)
        .as_parallel()
        .with_degree(workers)
        .filter(
            |n: i64| -> bool
                ensures { result ≡ int_lt (pos 5) n }
            { n > 5 },
        )
        .element_at(rt, alloc, 1)
        .ok()?;
    let any = from(SliceSource::new(&NUMBERS).ok()?)
        .as_parallel()
        .with_degree(workers)
        .any(
            rt,
            alloc,
            |n: i64| -> bool
                ensures { result ≡ int_lt (pos 9) n }
            { n > 9 },
        )
        .ok()?;
    let all = from(SliceSource::new(&NUMBERS).ok()?)
        .as_parallel()
        .with_degree(workers)
        .all(
            rt,
            alloc,
            |n: i64| -> bool
                ensures { result ≡ int_lt n (pos 10) }
            { n < 10 },
        )
        .ok()?;
    let odd = from(SliceSource::new(&NUMBERS).ok()?)
        .as_parallel()
        .with_degree(workers)
        .filter(
            |n: i64| -> bool
                ensures { result ≡ int_eq (int_rem n (pos 2)) (pos 1) }
            { n % 2 == 1 },
        )
        .count(rt, alloc)
        .ok()?;
    Some((second, any, all, odd))
}

/// `numbers.Sum()` beside `numbers.Count()`, which `Average()` divides, `Min()` beside `Max()`, `Last()`, and `Single(n => n > 8)`.
fn aggregates<R: Clock + Threads + Wait + Sync>(
    rt: &R,
    alloc: Global,
    workers: u64,
) -> Result<
    (
        (i128, u64),
        (Option<i64>, Option<i64>),
        Option<i64>,
        Only<i64>,
    ),
    QueryFault,
> {
    let numbers = || match SliceSource::new(&NUMBERS) {
        Ok(source) => Ok(source),
        Err(_) => Err(QueryFault::Degree),
    };
    let sum = from(numbers()?)
        .as_parallel()
        .with_degree(workers)
        .aggregate(
            rt,
            alloc,
            Both {
                first: Sum,
                second: Count,
            },
        )?;
    let least = from(numbers()?)
        .as_parallel()
        .with_degree(workers)
        .aggregate(
            rt,
            alloc,
            Both {
                first: Min,
                second: Max,
            },
        )?;
    let last = from(numbers()?)
        .as_parallel()
        .with_degree(workers)
        .aggregate(rt, alloc, Last::new())?;
    let only = from(numbers()?)
        .as_parallel()
        .with_degree(workers)
        .filter(
            |n: i64| -> bool
                ensures { result ≡ int_lt (pos 8) n }
            { n > 8 },
        )
        .take(2)
        .aggregate(rt, alloc, Single::new())?;
    Ok((sum, least, last, only))
}

/// `a.Zip(b, (x, y) => x * y).Sum()`
fn product<R: Clock + Threads + Wait + Sync>(rt: &R, alloc: Global, workers: u64) -> Option<i128> {
    let (a, b) = ([0u8, 2, 4, 5, 6], [1u8, 3, 5, 7, 8]);
    from(SliceSource::new(&a).ok()?)
        .as_parallel()
        .with_degree(workers)
        .zip(&b)
        .select(
            |p: (u8, u8)| -> i64
                ensures { result ≡ pos (p.0 * p.1) }
            { i64::from(u16::from(p.0) * u16::from(p.1)) },
        )
        .aggregate(rt, alloc, Sum)
        .ok()
}

#[test]
fn filters_and_positions_are_as_on_the_page(rt: HostRuntime) {
    let late = [
        (5u64, "five"),
        (6, "six"),
        (7, "seven"),
        (8, "eight"),
        (9, "nine"),
    ];
    for workers in WORKERS {
        let below = below_five(&rt, rt.alloc(), workers);
        assert!(&rt; below.is_some_and(|it| it.as_slice() == [4, 1, 3, 2, 0].as_slice()));
        let short = shorter_than_their_position(&rt, rt.alloc(), &DIGITS, workers);
        assert!(&rt; short.is_some_and(|it| it.as_slice() == late.as_slice()));
        let up_to = up_to_their_position(&rt, rt.alloc(), workers);
        assert!(&rt; up_to.is_some_and(|it| it.as_slice() == [(0, 5), (1, 4)].as_slice()));
    }
}

#[test]
fn questions_and_aggregates_are_as_on_the_page(rt: HostRuntime) {
    for workers in WORKERS {
        assert!(&rt; questions(&rt, rt.alloc(), workers) == Some((Some(8), false, true, 5)));
        let found = aggregates(&rt, rt.alloc(), workers);
        assert!(&rt; found == Ok(((45, 10), (Some(0), Some(9)), Some(0), Only::One(9))));
        assert!(&rt; product(&rt, rt.alloc(), workers) == Some(109));
    }
}
