//! Groups by threads beside those of a plain loop.
ghost use Rattle.std.specs.Prelude.{◌≡◌, IfSome};

use crate::keys::{Masked, MaskedToCollide};
use plinq_enumerator::Growth;
use plinq_groups::{Collect, GroupBy, Groups, Items, KeyOf};
use plinq_lambda::Formula;
use plinq_ops::{Built, Query};
use plinq_run::{OpenGate, aggregate};
use plinq_source::{ListSource, Source};
use std::alloc::Global;
use std::process::Abort;
use std::sync::Wait;
use std::test::*;
use std::thread::Threads;
use std::time::Clock;

/// How numbers are asked for.
#[derive(Clone, Copy)]
struct Setting {
    workers: u64,
    growth: Growth,
    is_ordered: bool,
    /// So many the source has.
    count: u8,
    /// So many are left of them.
    left: u8,
}

/// What stands before the first number.
const START: u64 = 20_261_126;

/// What comes next, by chance.
fn next(state: u64) -> u64 {
    state
        .wrapping_mul(6_364_136_223_846_793_005)
        .wrapping_add(1_442_695_040_888_963_407)
}

fn number(state: u64) -> i64 {
    (state >> 33) as i64
}

fn source_of(alloc: Global, count: u8) -> Option<ListSource<i64>>
    ensures { IfSome result (λ source. ⟦<ListSource<i64> as Source>⟧.given source ≡ 0) }
{
    let mut numbers = Vec::new(alloc);
    let mut state = START;
    for _ in 0..count {
        state = next(state);
        if numbers.push(number(state)).is_err() {
            return None;
        }
    }
    if numbers.len() > 1_000 {
        return None;
    }
    Some(ListSource::new(alloc, numbers))
}

fn with_workers(query: Query<Formula>, workers: u64) -> Built<Formula> {
    query.with_degree(workers)?.select(Formula::Add(0))
}

/// Those that are not left are dropped after the merge.
fn query_of(alloc: Global, setting: &Setting) -> Built<Formula> {
    if !setting.is_ordered {
        return with_workers(Query::new(alloc), setting.workers);
    }
    let query = with_workers(Query::new(alloc).as_ordered()?, setting.workers)?;
    if setting.left < setting.count {
        query.take(i64::from(setting.left))
    } else {
        Ok(query)
    }
}

fn groups_of<F: KeyOf<Item = i64>, R: Clock + Threads + Wait + Sync>(
    rt: &R,
    alloc: Global,
    setting: &Setting,
    key: F,
) -> Option<Groups<F::Key, Items<i64>>> {
    let Ok(query) = query_of(alloc, setting) else {
        return None;
    };
    let source = source_of(alloc, setting.count)?;
    let by = GroupBy {
        key,
        each: Collect::new(),
    };
    let growth = setting.growth;
    aggregate(rt, alloc, &query, source, growth, &OpenGate, &by).ok()
}

/// Which of the numbers have a key: how many, their sum, where the first stands, and whether they are these in this order.
#[derive(Clone, Copy)]
struct OfKey {
    count: usize,
    sum: i64,
    first: u8,
    are_in_order: bool,
}

fn of_key<F: KeyOf<Item = i64>>(left: u8, key: &F, own: &F::Key, items: &[i64]) -> OfKey {
    let mut told = OfKey {
        count: 0,
        sum: 0,
        first: left,
        are_in_order: true,
    };
    let mut state = START;
    for at in 0..left {
        state = next(state);
        let number = number(state);
        if key.key_of(number) == *own {
            told.are_in_order = told.are_in_order && items.get(told.count) == Some(&number);
            told.count = told.count.wrapping_add(1);
            told.sum = told.sum.wrapping_add(number);
            told.first = told.first.min(at);
        }
    }
    told
}

fn sum_of(items: &[i64]) -> i64 {
    let mut sum = 0i64;
    for item in items {
        sum = sum.wrapping_add(*item);
    }
    sum
}

/// Whether groups are those of the numbers: each has all numbers of its key, and each number is in one. If they are ordered,
/// the items of each are in order, and so are the groups by their first items.
fn are_groups_of<F: KeyOf<Item = i64>>(
    groups: &Groups<F::Key, Items<i64>>,
    setting: &Setting,
    key: &F,
) -> bool {
    let map = groups.as_map();
    let mut count: usize = 0;
    let mut next: u8 = 0;
    for at in 0..map.len() {
        let Some((own, items)) = map.get_index(at) else {
            return false;
        };
        let items = items.as_slice();
        let told = of_key(setting.left, key, own, items);
        let are_all = told.count == items.len() && told.sum == sum_of(items) && told.count > 0;
        if !are_all || setting.is_ordered && !(told.are_in_order && next <= told.first) {
            return false;
        }
        count = count.wrapping_add(told.count);
        next = told.first.wrapping_add(1);
    }
    count == usize::from(setting.left)
}

fn are_grouped<F: KeyOf<Item = i64> + Copy, R: Clock + Threads + Wait + Sync>(
    rt: &R,
    alloc: Global,
    setting: &Setting,
    key: F,
) -> bool {
    match groups_of(rt, alloc, setting, key) {
        Some(groups) => are_groups_of(&groups, setting, &key),
        None => false,
    }
}

/// None and all of the numbers, in order and not, and the first of them.
const PARTS: [(u8, u8, bool); 5] = [
    (0, 0, true),
    (0, 0, false),
    (200, 200, true),
    (200, 200, false),
    (200, 77, true),
];

fn ask_each<F: KeyOf<Item = i64> + Copy, R: Clock + Threads + Wait + Sync + Abort>(
    rt: &R,
    alloc: Global,
    growth: Growth,
    key: F,
) {
    for workers in [1, 2, 8, 64] {
        for (count, left, is_ordered) in PARTS {
            let setting = Setting {
                workers,
                growth,
                is_ordered,
                count,
                left,
            };
            assert!(rt; are_grouped(rt, alloc, &setting, key));
        }
    }
}

#[test]
fn one_few_and_many_keys(rt: HostRuntime) -> Result<(), Fail> {
    for growth in [Growth::ONE, Growth::new(1, 3, 32)?] {
        for mask in [0, 3, 63, u64::MAX] {
            ask_each(&rt, rt.alloc(), growth, Masked { mask });
        }
    }
    Ok(())
}

#[test]
fn keys_that_collide(rt: HostRuntime) -> Result<(), Fail> {
    for growth in [Growth::ONE, Growth::new(1, 3, 32)?] {
        for mask in [3, 63] {
            ask_each(&rt, rt.alloc(), growth, MaskedToCollide { mask });
        }
    }
    Ok(())
}
