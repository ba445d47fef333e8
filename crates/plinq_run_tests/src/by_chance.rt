//! Queries that are picked by chance, and workers that are held back by chance: what they deliver, also if a token stops
//! them, and what they aggregate. The queries are always the same ones; the order in which threads run isn't.
ghost use Rattle.std.specs.Prelude.{◌≤◌, ◌<◌};

use crate::aggregates::Last;
use crate::beside_one_thread::{Answers, Setting, ask_list, list_of};
use plinq_enumerator::Growth;
use plinq_lambda::Formula;
use plinq_ops::Op;
use plinq_run::{AggregateFault, Gate, Report, RunFault, aggregate};
use plinq_source::Ending;
use plinq_testing::{OPTIONS, query_of};
use std::alloc::Global;
use std::hint::spin_loop;
use std::sync::Wait;
use std::sync::atomic::{AtomicU64, Ordering};
use std::test::*;
use std::thread::{Threads, yield_now};

/// The number after this one, in a walk through all numbers but 0 that looks like chance (xorshift).
fn number_after(number: u64) -> u64 {
    let mixed = number ^ (number << 13);
    let mixed = mixed ^ (mixed >> 7);
    mixed ^ (mixed << 17)
}

/// A gate that holds each worker back for up to 4,095 turns, mostly for few, and has others go first now and then.
#[derive(Drop)]
struct Delays {
    number: AtomicU64,
}

impl Delays {
    fn delay(&self) {
        let number = number_after(self.number.load(Ordering::SeqCst));
        self.number.store(number, Ordering::SeqCst);
        for _turn in 0..(number >> 52) >> (number % 13) {
            spin_loop();
        }
        if number % 4 == 0 {
            yield_now();
        }
    }
}

impl Gate for Delays {
    fn before_take(&self, _: u64) {
        self.delay();
    }

    fn after_chunk(&self, _: u64, _: u64) {
        self.delay();
    }
}

/// How many workers go. A run by many takes longest, and a test has a minute, also on two cores that prove other crates: so
/// there is a test of each.
#[derive(Clone, Copy)]
enum Workers {
    One,
    Two,
    AFew,
    Many,
    TheMost,
}

/// What picks queries, sources and settings.
#[derive(Drop)]
struct Dice {
    number: u64,
}

impl Dice {
    /// A number below this one.
    fn below(&mut self, sides: u64) -> u64
        requires { 1 ≤ sides }
        ensures { result < sides }
    {
        self.number = number_after(self.number);
        (self.number >> 16) % sides
    }

    /// A number from -3 to 9.
    fn small(&mut self) -> i64 {
        self.below(13) as i64 - 3
    }

    /// Small numbers, and now and then the greatest, with which sums, products and expansions fault.
    fn items(&mut self) -> [i64; 40] {
        let mut items = [i64::MAX; 40];
        for item in &mut items {
            if self.below(16) > 0 {
                *item = self.small();
            }
        }
        items
    }

    fn formula(&mut self) -> Formula {
        let number = self.small();
        match self.below(10) {
            0 => Formula::Add(number),
            1 => Formula::Mul(number),
            2 => Formula::Mod(number),
            3 => Formula::Into(number),
            4 => Formula::Below(number),
            5 => Formula::Above(number),
            6 => Formula::Equal(number),
            7 => Formula::Repeat(number),
            8 => Formula::UpTo,
            _ => Formula::Even,
        }
    }

    fn op(&mut self) -> Op<Formula> {
        let formula = self.formula();
        match self.below(9) {
            0 | 1 => Op::Select(formula),
            2 => Op::Filter(formula),
            3 => Op::SelectMany(formula),
            4 => Op::Take(self.small()),
            5 => Op::Skip(self.small()),
            6 => Op::TakeWhile(formula),
            7 => Op::SkipWhile(formula),
            _ => Op::AsUnordered,
        }
    }

    fn workers(&mut self, many: Workers) -> u64 {
        match many {
            Workers::One => 1,
            Workers::Two => 2,
            Workers::AFew => 3 + self.below(6),
            Workers::Many => 9 + self.below(55),
            Workers::TheMost => 64,
        }
    }

    /// After how many batches a token stops a run, mostly few of them. Two of three runs have none.
    fn cancel_after(&mut self) -> Option<u64> {
        if self.below(3) > 0 {
            return None;
        }
        let most = 1 + self.below(21);
        Some(self.below(most))
    }

    fn setting(&mut self, many: Workers) -> Option<Setting> {
        Some(Setting {
            growth: Growth::new(1, 1 + self.below(3), 1 + self.below(8)).ok()?,
            option: OPTIONS[self.below(4) as usize],
            cancel_after: self.cancel_after(),
            ..Setting::by(self.workers(many))
        })
    }
}

/// A query over a list, and how it is asked.
#[derive(Drop)]
struct Asked<'a> {
    items: &'a [i64],
    code: Option<u32>,
    ops: &'a [Op<Formula>],
    setting: Setting,
}

/// Whether the last item of its answer is told, if that comes to its end.
fn is_last<R: Threads + Wait + Sync>(
    rt: &R,
    alloc: Global,
    asked: &Asked<'_>,
    gate: &Delays,
    answers: &Answers,
) -> bool {
    let growth = asked.setting.growth;
    let Some(source) = list_of(alloc, asked.items, asked.code) else {
        return false;
    };
    let Ok(query) = query_of(
        alloc,
        asked.ops,
        asked.setting.option,
        asked.setting.workers,
    ) else {
        return false;
    };
    let told = aggregate(rt, alloc, &query, source, growth, gate, &Last);
    match answers.ending {
        Ending::End => told == Ok(answers.items.last().copied()),
        ending => told == Err(AggregateFault::Ended(ending)),
    }
}

/// The number of a way in which a run ends: the end, a refusal, a fault, or before that.
fn way_of(told: &Result<Report, RunFault>) -> usize {
    match told {
        Ok(report) => match report.ending {
            Ending::End => 0,
            Ending::Refused(_) => 1,
            Ending::Fault(_) => 2,
        },
        Err(_) => 3,
    }
}

/// Asks a query of threads and of one thread, and answers in which way the run ended if both answers and the aggregate are
/// right.
fn way_if_right<R: Threads + Wait + Sync>(
    rt: &R,
    alloc: Global,
    asked: &Asked<'_>,
    gate: &Delays,
) -> Option<usize> {
    let setting = asked.setting;
    let answers = ask_list(rt, alloc, asked.items, asked.code, asked.ops, setting, gate)?;
    if answers.are_right() && is_last(rt, alloc, asked, gate, &answers) {
        return Some(way_of(&answers.told));
    }
    None
}

fn ask_any<R: Threads + Wait + Sync>(
    rt: &R,
    alloc: Global,
    dice: &mut Dice,
    many: Workers,
    gate: &Delays,
) -> Option<usize> {
    let setting = dice.setting(many)?;
    let items = dice.items();
    let ops = [dice.op(), dice.op(), dice.op(), dice.op()];
    let asked = Asked {
        items: &items[..dice.below(41) as usize],
        code: if dice.below(4) == 0 { Some(7) } else { None },
        ops: &ops[..dice.below(5) as usize],
        setting,
    };
    way_if_right(rt, alloc, &asked, gate)
}

/// In how many of so many runs each way was met, or the first run with a wrong answer.
fn ways_of<R: Threads + Wait + Sync>(
    rt: &R,
    alloc: Global,
    many: Workers,
    runs: u64,
) -> Result<[u64; 4], u64> {
    let gate = Delays {
        number: AtomicU64::new(88_172_645_463_325_252),
    };
    let mut dice = Dice {
        number: 1_181_783_497_276_652_981,
    };
    let mut ways = [0u64; 4];
    for run in 0..runs {
        let met = ask_any(rt, alloc, &mut dice, many, &gate).ok_or(run)?;
        for (way, count) in ways.iter_mut().enumerate() {
            if way == met {
                *count = count.wrapping_add(1);
            }
        }
    }
    Ok(ways)
}

/// Whether each way was met so often at least.
fn has_each(ways: &Result<[u64; 4], u64>, least: u64) -> bool {
    match ways {
        Ok(ways) => ways.iter().all(|count| *count >= least),
        Err(_) => false,
    }
}

#[test]
fn any_query_by_one_worker_has_the_answer_of_one_thread(rt: HostRuntime) {
    let ways = ways_of(&rt, rt.alloc(), Workers::One, 400);
    assert!(rt; has_each(&ways, 20), "{ways:?}");
}

#[test]
fn any_query_by_two_workers_has_the_answer_of_one_thread(rt: HostRuntime) {
    let ways = ways_of(&rt, rt.alloc(), Workers::Two, 400);
    assert!(rt; has_each(&ways, 20), "{ways:?}");
}

#[test]
fn any_query_by_a_few_workers_has_the_answer_of_one_thread(rt: HostRuntime) {
    let ways = ways_of(&rt, rt.alloc(), Workers::AFew, 800);
    assert!(rt; has_each(&ways, 40), "{ways:?}");
}

#[test]
fn any_query_by_many_workers_has_the_answer_of_one_thread(rt: HostRuntime) {
    let ways = ways_of(&rt, rt.alloc(), Workers::Many, 300);
    assert!(rt; has_each(&ways, 15), "{ways:?}");
}

#[test]
fn any_query_by_the_most_workers_has_the_answer_of_one_thread(rt: HostRuntime) {
    let ways = ways_of(&rt, rt.alloc(), Workers::TheMost, 100);
    assert!(rt; has_each(&ways, 5), "{ways:?}");
}
