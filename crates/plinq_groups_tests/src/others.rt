//! Aggregates made of others, of a few pairs.
ghost use Rattle.std.specs.Prelude.{◌≡◌, pos, if◌then◌else◌, Some, Ok, Err};
ghost use Rattle.std.specs.Ordering.{int_eq};

use plinq_aggregate::{Count, GrowingAggregator, Sum};
use plinq_groups::{
    Both, By, Collect, FieldOf, First, GreatestBy, GroupBy, KeyOf, Last, LeastBy, MakeOf, MapEach,
    MapFault, Only, RankOf, Single, Top,
};
use std::alloc::{AllocError, Global};
use std::sync::atomic::{AtomicU64, Ordering};
use std::test::*;

/// The first of a pair, as a field, as a rank and as a key.
#[derive(Clone, Copy)]
struct Whose;

impl FieldOf for Whose {
    type Item = (i64, i64);

    type Field = i64;

    ghost fields = { λ _ x. x.0 };

    fn field_of(&self, x: (i64, i64)) -> i64 {
        x.0
    }
}

impl RankOf for Whose {
    type Item = (i64, i64);

    type Rank = i64;

    ghost ranks = { λ _ x. x.0 };

    fn rank_of(&self, x: (i64, i64)) -> i64 {
        x.0
    }
}

impl KeyOf for Whose {
    type Item = (i64, i64);

    type Key = i64;

    ghost keys = { λ _ x. x.0 };

    fn key_of(&self, x: (i64, i64)) -> i64 {
        x.0
    }
}

/// The aggregate of two parts, folded apart.
fn of_parts<A: GrowingAggregator>(
    alloc: Global,
    aggregator: &A,
    first: &[A::Item],
    second: &[A::Item],
) -> Result<A::Out, AllocError> {
    let one = aggregator.update_block(alloc, aggregator.seed(alloc), first)?;
    let other = aggregator.update_block(alloc, aggregator.seed(alloc), second)?;
    Ok(aggregator.result(aggregator.combine(alloc, one, other)?))
}

const ONE: [(i64, i64); 3] = [(7, 1), (2, 2), (7, 3)];

const OTHER: [(i64, i64); 3] = [(2, 4), (9, 5), (9, 6)];

fn is_sum_and_count(alloc: Global) -> bool {
    let sum = By {
        field: Whose,
        each: Both {
            first: Sum,
            second: Count,
        },
    };
    matches!(of_parts(alloc, &sum, &ONE, &OTHER), Ok((36, 6)))
}

#[test]
fn of_a_field_and_two_at_once(rt: HostRuntime) {
    assert!(rt; is_sum_and_count(rt.alloc()));
}

fn is_first_of_the_least(alloc: Global) -> bool {
    let least = LeastBy { rank: Whose };
    matches!(of_parts(alloc, &least, &ONE, &OTHER), Ok(Some((2, 2))))
}

fn is_first_of_the_greatest(alloc: Global) -> bool {
    let greatest = GreatestBy { rank: Whose };
    matches!(of_parts(alloc, &greatest, &ONE, &OTHER), Ok(Some((9, 5))))
}

#[test]
fn the_first_of_the_least_and_of_the_greatest(rt: HostRuntime) {
    assert!(rt; is_first_of_the_least(rt.alloc()));
    assert!(rt; is_first_of_the_greatest(rt.alloc()));
}

fn is_last(alloc: Global, second: &[(i64, i64)], wanted: (i64, i64)) -> bool {
    matches!(of_parts(alloc, &Last::new(), &ONE, second), Ok(Some(last)) if last == wanted)
}

#[test]
fn the_last_of_two_parts(rt: HostRuntime) {
    assert!(rt; is_last(rt.alloc(), &OTHER, (9, 6)));
    assert!(rt; is_last(rt.alloc(), &[], (7, 3)));
}

fn is_only(alloc: Global, first: &[i64], second: &[i64], wanted: Only<i64>) -> bool {
    matches!(of_parts(alloc, &Single::new(), first, second), Ok(only) if only == wanted)
}

#[test]
fn the_only_one_of_two_parts(rt: HostRuntime) {
    assert!(rt; is_only(rt.alloc(), &[], &[], Only::NoElements));
    assert!(rt; is_only(rt.alloc(), &[7], &[], Only::One(7)));
    assert!(rt; is_only(rt.alloc(), &[], &[7], Only::One(7)));
    assert!(rt; is_only(rt.alloc(), &[7], &[7], Only::MoreThanOne));
    assert!(rt; is_only(rt.alloc(), &[7, 8, 9], &[], Only::MoreThanOne));
}

fn is_top(alloc: Global) -> bool {
    let top = Top {
        rank: Whose,
        count: 3,
    };
    match of_parts(alloc, &top, &ONE, &OTHER) {
        Ok(items) => items.as_slice() == [(9, 5), (9, 6), (7, 1)].as_slice(),
        Err(_) => false,
    }
}

#[test]
fn the_greatest_first_and_of_equal_ones_the_earlier(rt: HostRuntime) {
    assert!(rt; is_top(rt.alloc()));
}

fn is_group_of_two(alloc: Global) -> bool {
    let by = GroupBy {
        key: Whose,
        each: Both {
            first: First::new(),
            second: Collect::new(),
        },
    };
    let Ok(groups) = of_parts(alloc, &by, &ONE, &OTHER) else {
        return false;
    };
    let map = groups.as_map();
    match map.get_index(1) {
        Some((key, each)) => {
            map.len() == 3
                && *key == 2
                && each.0 == Some((2, 2))
                && each.1.as_slice() == [(2, 2), (2, 4)].as_slice()
        }
        None => false,
    }
}

#[test]
fn the_first_item_of_each_key_and_all_of_them(rt: HostRuntime) {
    assert!(rt; is_group_of_two(rt.alloc()));
}

fn are_all(alloc: Global) -> bool {
    match of_parts(alloc, &Collect::new(), &ONE, &OTHER) {
        Ok(items) => items.as_slice()
            == [(7, 1), (2, 2), (7, 3), (2, 4), (9, 5), (9, 6)].as_slice(),
        Err(_) => false,
    }
}

/// Groups beside another aggregate take in their items one by one.
fn are_groups_beside_all(alloc: Global) -> bool {
    let both = Both {
        first: GroupBy {
            key: Whose,
            each: First::new(),
        },
        second: Collect::new(),
    };
    match of_parts(alloc, &both, &ONE, &OTHER) {
        Ok((groups, items)) => {
            let map = groups.as_map();
            map.len() == 3 && map.get(&9) == Some(&Some((9, 5))) && items.as_slice().len() == 6
        }
        Err(_) => false,
    }
}

#[test]
fn all_items_and_groups_beside_all(rt: HostRuntime) {
    assert!(rt; are_all(rt.alloc()));
    assert!(rt; are_groups_beside_all(rt.alloc()));
}

/// So many pairs, each of a key of its own.
fn pairs(alloc: Global, count: i64) -> Result<Vec<(i64, i64)>, AllocError> {
    let mut pairs = Vec::new(alloc);
    for n in 0..count {
        pairs.push((n, n))?;
    }
    Ok(pairs)
}

/// A block that is longer than a run's chunks.
fn are_groups_of_a_long_block(alloc: Global) -> bool {
    let Ok(pairs) = pairs(alloc, 3_000) else {
        return false;
    };
    let by = GroupBy {
        key: Whose,
        each: First::new(),
    };
    match of_parts(alloc, &by, pairs.as_slice(), &ONE) {
        Ok(groups) => {
            let map = groups.as_map();
            map.len() == 3_000
                && map.get(&2_999) == Some(&Some((2_999, 2_999)))
                && map.get(&7) == Some(&Some((7, 7)))
        }
        Err(_) => false,
    }
}

#[test]
fn groups_of_a_block_of_3000(rt: HostRuntime) {
    assert!(rt; are_groups_of_a_long_block(rt.alloc()));
}

/// The second of a pair, unless the first is 2. It counts how often it is asked.
#[derive(Drop)]
struct Counting<'a> {
    times: &'a AtomicU64,
}

impl<'a> MakeOf for Counting<'a> {
    type Item = (i64, i64);

    type Made = i64;

    ghost makes = { λ _ x. if int_eq x.0 (pos 2) then Err 5 else Ok (Some x.1) };

    fn make_of(&self, _alloc: Global, x: (i64, i64)) -> Result<Option<i64>, MapFault> {
        self.times.fetch_add(1, Ordering::SeqCst);
        if x.0 == 2 {
            return Err(MapFault::Code(5));
        }
        Ok(Some(x.1))
    }
}

/// Of each part as much is made as up to its first pair that faults.
fn stops_at_a_code(alloc: Global) -> bool {
    let times = AtomicU64::new(0);
    let map = MapEach {
        make: Counting { times: &times },
    };
    match of_parts(alloc, &map, &ONE, &OTHER) {
        Ok(mapped) => {
            let (made, code) = mapped.into_parts();
            made.as_slice() == [1].as_slice()
                && code == Some(5)
                && times.load(Ordering::SeqCst) == 3
        }
        Err(_) => false,
    }
}

#[test]
fn nothing_is_made_after_a_code(rt: HostRuntime) {
    assert!(rt; stops_at_a_code(rt.alloc()));
}
