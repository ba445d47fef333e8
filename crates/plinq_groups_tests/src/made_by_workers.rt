//! Mapped runs by threads, and folds of what is made, beside those of a plain loop.
ghost use Rattle.std.specs.Prelude.{◌≡◌, if◌then◌else◌, int_lt, Some, None, Ok, Err, IfSome};
ghost use Rattle.std.specs.Int.{cast_unsigned, w64};
ghost use Rattle.std.specs.Ordering.{int_eq};

use plinq_enumerator::Growth;
use plinq_groups::{Collect, FoldEach, MakeOf, MapEach, MapFault, Then};
use plinq_lambda::Formula;
use plinq_mapped::{run_mapped, to_vec_mapped};
use plinq_ops::{Built, MergeOption, Query};
use plinq_run::{OpenGate, RunFault, aggregate};
use plinq_source::{Ending, ListSource, Source};
use plinq_testing::Taken;
use std::alloc::{AllocError, Global};
use std::process::Abort;
use std::sync::Wait;
use std::test::*;
use std::thread::Threads;
use std::time::Clock;

/// The code of the number that faults.
const NOTHING: u32 = 5;

/// The code with which the sink refuses a batch more than it takes.
const FULL: u32 = 9;

/// The bits of each number but one, which faults.
#[derive(Clone, Copy)]
pub(crate) struct BitsOf {
    pub(crate) but: i64,
}

impl MakeOf for BitsOf {
    type Item = i64;

    type Made = u64;

    ghost makes = { λ m x. if int_eq x m.but then Err 5 else Ok (Some (cast_unsigned w64 x)) };

    fn make_of(&self, _alloc: Global, x: i64) -> Result<Option<u64>, MapFault> {
        if x == self.but {
            return Err(MapFault::Code(NOTHING));
        }
        Ok(Some(x.cast_unsigned()))
    }
}

/// Each number that isn't below the least.
#[derive(Clone, Copy)]
pub(crate) struct AtLeast {
    pub(crate) least: i64,
}

impl MakeOf for AtLeast {
    type Item = i64;

    type Made = i64;

    ghost makes = { λ m x. if int_lt x m.least then Ok None else Ok (Some x) };

    fn make_of(&self, _alloc: Global, x: i64) -> Result<Option<i64>, MapFault> {
        if x < self.least {
            return Ok(None);
        }
        Ok(Some(x))
    }
}

/// How many items these batches have, if each but the last has this size, and that no more.
pub(crate) fn count_in(batches: &[Vec<u64>], size: usize) -> Option<usize> {
    let mut count = 0usize;
    let mut wanted = 0usize;
    for batch in batches {
        if count != wanted || batch.len() > size {
            return None;
        }
        count = count.wrapping_add(batch.len());
        wanted = wanted.wrapping_add(size);
    }
    Some(count)
}

/// What they hold, one after another.
fn joined(alloc: Global, batches: &[Vec<u64>]) -> Option<Vec<u64>> {
    let mut all = Vec::new(alloc);
    for batch in batches {
        all.extend_from_slice(batch).ok()?;
    }
    Some(all)
}

/// The operators after the merge.
#[derive(Clone, Copy)]
enum After {
    Nothing,
    /// So many are taken.
    Take(u8),
    /// Five are left out, one that isn't below 147 ends the answer, and 40 are taken.
    All,
}

/// No number is as large.
const NONE: i64 = 1_000;

/// What is asked of 200 numbers from 0 to 198, of which those below 150 are kept.
#[derive(Clone, Copy)]
struct Setting {
    workers: u64,
    growth: Growth,
    option: MergeOption,
    is_ordered: bool,
    after: After,
    /// What is below this is left out.
    least: i64,
    /// This one faults, unless it is left out.
    but: i64,
}

/// The two steps on each number.
fn steps(setting: &Setting) -> Then<AtLeast, BitsOf> {
    Then {
        first: AtLeast {
            least: setting.least,
        },
        second: BitsOf { but: setting.but },
    }
}

fn with_operators(query: Query<Formula>, setting: &Setting) -> Built<Formula> {
    let query = query
        .with_degree(setting.workers)?
        .with_merge(setting.option)?
        .filter(Formula::Below(150))?;
    let after = setting.after;
    match after {
        After::Nothing => Ok(query),
        After::Take(most) => query.take(i64::from(most)),
        After::All => query.skip(5)?.take_while(Formula::Below(147))?.take(40),
    }
}

fn query_of(alloc: Global, setting: &Setting) -> Built<Formula> {
    let query = Query::new(alloc);
    if setting.is_ordered {
        return with_operators(query.as_ordered()?, setting);
    }
    with_operators(query, setting)
}

fn number(at: u16) -> i64 {
    i64::from(at.wrapping_mul(77) % 199)
}

fn source_of(alloc: Global) -> Option<ListSource<i64>>
    ensures { IfSome result (λ source. ⟦<ListSource<i64> as Source>⟧.given source ≡ 0) }
{
    let mut numbers = Vec::new(alloc);
    for at in 0..200 {
        if numbers.push(number(at)).is_err() {
            return None;
        }
    }
    if numbers.len() > 1_000 {
        return None;
    }
    Some(ListSource::new(alloc, numbers))
}

/// How many are left out at first, what ends the answer, and how many are taken.
fn limits(after: After) -> (usize, i64, usize) {
    match after {
        After::Nothing => (0, NONE, 1_000),
        After::Take(most) => (0, NONE, usize::from(most)),
        After::All => (5, 147, 40),
    }
}

/// What a plain loop makes, and how it ends.
fn by_loop(
    alloc: Global,
    after: After,
    least: i64,
    but: i64,
) -> Result<(Vec<u64>, Ending), AllocError> {
    let (mut skip, until, most) = limits(after);
    let mut count = 0usize;
    let mut made = Vec::new(alloc);
    for at in 0..200 {
        let number = number(at);
        if number >= 150 {
            continue;
        }
        if skip > 0 {
            skip -= 1;
            continue;
        }
        if number >= until || count == most {
            break;
        }
        count = count.wrapping_add(1);
        if number < least {
            continue;
        }
        if number == but {
            return Ok((made, Ending::Fault(NOTHING)));
        }
        made.push(number.cast_unsigned())?;
    }
    Ok((made, Ending::End))
}

fn size_of(option: MergeOption) -> usize {
    match option {
        MergeOption::NotBuffered => 1,
        MergeOption::Default | MergeOption::AutoBuffered => 16,
        MergeOption::FullyBuffered => 1_000,
    }
}

/// What was made, and how that ended.
#[derive(Drop)]
struct Told {
    made: Vec<u64>,
    ended: Result<Ending, RunFault>,
}

/// What a run delivers, in batches of the size that is asked for, to a sink that takes so many.
fn delivered<R: Clock + Threads + Wait + Sync>(
    rt: &R,
    alloc: Global,
    setting: &Setting,
    most: usize,
) -> Option<Told> {
    let Ok(query) = query_of(alloc, setting) else {
        return None;
    };
    let source = source_of(alloc)?;
    let bits = MapEach {
        make: steps(setting),
    };
    let mut taken = Taken::new(alloc, most);
    let growth = setting.growth;
    let ended = run_mapped(
        rt, alloc, &query, source, growth, &OpenGate, &bits, &mut taken,
    );
    count_in(&taken.batches, size_of(setting.option))?;
    let made = joined(alloc, &taken.batches)?;
    Some(Told { made, ended })
}

/// All that is made.
fn listed<R: Clock + Threads + Wait + Sync>(
    rt: &R,
    alloc: Global,
    setting: &Setting,
) -> Option<Told> {
    let Ok(query) = query_of(alloc, setting) else {
        return None;
    };
    let source = source_of(alloc)?;
    let bits = MapEach {
        make: steps(setting),
    };
    match to_vec_mapped(rt, alloc, &query, source, &bits) {
        Ok((made, ending)) => Some(Told {
            made,
            ended: Ok(ending),
        }),
        Err(_) => None,
    }
}

/// All that is made, by a fold of it.
fn folded<R: Clock + Threads + Wait + Sync>(
    rt: &R,
    alloc: Global,
    setting: &Setting,
) -> Option<Told> {
    let Ok(query) = query_of(alloc, setting) else {
        return None;
    };
    let source = source_of(alloc)?;
    let each = FoldEach {
        make: steps(setting),
        each: Collect::new(),
    };
    let growth = setting.growth;
    match aggregate(rt, alloc, &query, source, growth, &OpenGate, &each) {
        Ok((made, code)) => Some(Told {
            made: made.into_vec(),
            ended: Ok(code.map_or(Ending::End, Ending::Fault)),
        }),
        Err(_) => None,
    }
}

fn is_told(told: Option<Told>, made: &[u64], ended: Result<Ending, RunFault>) -> bool {
    match told {
        Some(told) => told.made.as_slice() == made && told.ended == ended,
        None => false,
    }
}

/// What is delivered of what is made, and in how many batches at most: nothing in none, if a fault comes before the one batch.
fn to_deliver(option: MergeOption, made: &[u64], ending: Ending) -> (&[u64], usize) {
    if option == MergeOption::FullyBuffered && ending != Ending::End {
        (&[], 0)
    } else {
        (made, 1_000)
    }
}

fn is_as_by_loop<R: Clock + Threads + Wait + Sync>(
    rt: &R,
    alloc: Global,
    setting: &Setting,
) -> bool {
    let Ok((made, ending)) = by_loop(alloc, setting.after, setting.least, setting.but) else {
        return false;
    };
    let (wanted, most) = to_deliver(setting.option, &made, ending);
    is_told(delivered(rt, alloc, setting, most), wanted, Ok(ending))
        && is_told(listed(rt, alloc, setting), &made, Ok(ending))
        && is_told(folded(rt, alloc, setting), &made, Ok(ending))
}

const OPTIONS: [MergeOption; 3] = [
    MergeOption::NotBuffered,
    MergeOption::AutoBuffered,
    MergeOption::FullyBuffered,
];

/// Nothing is as small.
const ALL: i64 = -1;

/// None faults, the second, one in the midst, the last but one; and some are left out, also one that would fault.
const CASES: [(After, i64, i64); 14] = [
    (After::Nothing, ALL, NONE),
    (After::Nothing, ALL, 77),
    (After::Nothing, ALL, 33),
    (After::Nothing, ALL, 122),
    (After::Nothing, 60, NONE),
    (After::Nothing, 60, 122),
    (After::Nothing, 60, 33),
    (After::Nothing, NONE, 33),
    (After::Take(90), ALL, NONE),
    (After::Take(90), ALL, 33),
    (After::Take(90), 60, NONE),
    (After::Take(3), ALL, 33),
    (After::All, ALL, NONE),
    (After::All, 60, 51),
];

fn ask_in_order<R: Clock + Threads + Wait + Sync + Abort>(rt: &R, alloc: Global, growth: Growth) {
    for workers in [1, 2, 8, 64] {
        for option in OPTIONS {
            for (after, least, but) in CASES {
                let setting = Setting {
                    workers,
                    growth,
                    option,
                    is_ordered: true,
                    after,
                    least,
                    but,
                };
                assert!(rt; is_as_by_loop(rt, alloc, &setting));
            }
        }
    }
}

#[test]
fn what_is_made_by_workers_and_after_the_merge(rt: HostRuntime) -> Result<(), Fail> {
    ask_in_order(&rt, rt.alloc(), Growth::ONE);
    ask_in_order(&rt, rt.alloc(), Growth::new(1, 3, 32)?);
    Ok(())
}

/// Whether a sink that takes two batches has the first 32 of what is made.
fn are_two_batches<R: Clock + Threads + Wait + Sync>(
    rt: &R,
    alloc: Global,
    workers: u64,
    after: After,
) -> bool {
    let setting = Setting {
        workers,
        growth: Growth::ONE,
        option: MergeOption::AutoBuffered,
        is_ordered: true,
        after,
        least: ALL,
        but: NONE,
    };
    let Ok((made, _)) = by_loop(alloc, after, ALL, NONE) else {
        return false;
    };
    match made.get(..32) {
        Some(first) => {
            let refused = Err(RunFault::Sink(FULL));
            is_told(delivered(rt, alloc, &setting, 2), first, refused)
        }
        None => false,
    }
}

#[test]
fn a_refused_batch_is_the_last(rt: HostRuntime) {
    for (workers, after) in [
        (1, After::Nothing),
        (8, After::Nothing),
        (8, After::Take(90)),
    ] {
        assert!(rt; are_two_batches(&rt, rt.alloc(), workers, after));
    }
}

/// Whether a query of which nothing is taken delivers no batch, and lists nothing.
fn is_nothing<R: Clock + Threads + Wait + Sync>(rt: &R, alloc: Global, setting: &Setting) -> bool {
    is_told(delivered(rt, alloc, setting, 0), &[], Ok(Ending::End))
        && is_told(listed(rt, alloc, setting), &[], Ok(Ending::End))
        && is_told(folded(rt, alloc, setting), &[], Ok(Ending::End))
}

#[test]
fn nothing_is_made_of_a_decided_query(rt: HostRuntime) {
    for workers in [1, 2, 8, 64] {
        for option in OPTIONS {
            for is_ordered in [true, false] {
                let setting = Setting {
                    workers,
                    growth: Growth::ONE,
                    option,
                    is_ordered,
                    after: After::Take(0),
                    least: ALL,
                    but: 77,
                };
                assert!(rt; is_nothing(&rt, rt.alloc(), &setting));
            }
        }
    }
}

fn count_of(items: &[u64], one: u64) -> usize {
    let mut count = 0usize;
    for it in items {
        if *it == one {
            count = count.saturating_add(1);
        }
    }
    count
}

/// Whether these are of all in any order, each no more often than there.
fn are_of_all(some: &[u64], all: &[u64]) -> bool {
    for it in some {
        if count_of(some, *it) > count_of(all, *it) {
            return false;
        }
    }
    true
}

/// Whether a query without an order has made as much as a loop in some order, or less and then a fault. What is kept back until
/// the end isn't there after one.
fn is_of_some_loop(told: Option<Told>, setting: &Setting, all: &[u64], is_kept_back: bool) -> bool {
    let Some(told) = told else {
        return false;
    };
    let made = told.made.as_slice();
    let most = limits(setting.after).2.min(all.len());
    let is_right = match told.ended {
        Ok(Ending::End) => made.len() == most && (setting.but == NONE || most < all.len()),
        Ok(Ending::Fault(code)) => {
            let is_shorter = made.len() < most && !(is_kept_back && !made.is_empty());
            is_shorter && setting.but < NONE && code == NOTHING
        }
        _ => false,
    };
    is_right && are_of_all(made, all) && count_of(made, setting.but.cast_unsigned()) == 0
}

fn is_in_some_order<R: Clock + Threads + Wait + Sync>(
    rt: &R,
    alloc: Global,
    setting: &Setting,
) -> bool {
    let Ok((all, _)) = by_loop(alloc, After::Nothing, ALL, NONE) else {
        return false;
    };
    let is_kept_back = setting.option == MergeOption::FullyBuffered;
    is_of_some_loop(listed(rt, alloc, setting), setting, &all, false)
        && is_of_some_loop(folded(rt, alloc, setting), setting, &all, false)
        && is_of_some_loop(
            delivered(rt, alloc, setting, 1_000),
            setting,
            &all,
            is_kept_back,
        )
}

fn ask_in_any_order<R: Clock + Threads + Wait + Sync + Abort>(
    rt: &R,
    alloc: Global,
    growth: Growth,
) {
    for workers in [1, 2, 8, 64] {
        for option in OPTIONS {
            for (after, but) in [
                (After::Nothing, NONE),
                (After::Nothing, 77),
                (After::Nothing, 122),
                (After::Take(90), NONE),
                (After::Take(90), 77),
            ] {
                let setting = Setting {
                    workers,
                    growth,
                    option,
                    is_ordered: false,
                    after,
                    least: ALL,
                    but,
                };
                assert!(rt; is_in_some_order(rt, alloc, &setting));
            }
        }
    }
}

#[test]
fn what_is_made_in_any_order(rt: HostRuntime) -> Result<(), Fail> {
    ask_in_any_order(&rt, rt.alloc(), Growth::ONE);
    ask_in_any_order(&rt, rt.alloc(), Growth::new(1, 3, 32)?);
    Ok(())
}
