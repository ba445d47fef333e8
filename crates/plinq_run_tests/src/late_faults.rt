//! Faults after the element that ends the run, which are there before that end is known.
ghost use Rattle.plinq_lambda.specs.Formula.{formula_meaning};
ghost use Rattle.plinq_lambda.specs.Short.{formula_meaning-short};

use crate::beside_one_thread::{Setting, ask_list};
use plinq_enumerator::Growth;
use plinq_lambda::{ExpandFault, Formula, Lambda};
use plinq_ops::Op;
use plinq_source::Ending;
use plinq_testing::KeepsBack;
use std::alloc::Global;
use std::sync::Wait;
use std::sync::atomic::{AtomicU64, Ordering};
use std::test::*;
use std::thread::Threads;

/// A formula that reports when it has faulted.
#[derive(Clone, Copy)]
struct Telling<'a> {
    formula: Formula,
    faulted: &'a AtomicU64,
}

impl<'a> Lambda for Telling<'a> {
    type Item = i64;

    ghost meaning = { λ t. formula_meaning t.formula };

    ghost short = { λ t x. formula_meaning-short t.formula x };

    fn map(&self, x: i64) -> Result<i64, u32> {
        let mapped = self.formula.map(x);
        if mapped.is_err() {
            self.faulted.store(1, Ordering::SeqCst);
        }
        mapped
    }

    fn test(&self, x: i64) -> Result<bool, u32> {
        self.formula.test(x)
    }

    fn expand(&self, alloc: Global, x: i64) -> Result<Vec<i64>, ExpandFault> {
        self.formula.expand(alloc, x)
    }
}

impl<'a> Telling<'a> {
    fn of(formula: Formula, faulted: &'a AtomicU64) -> Telling<'a> {
        Telling { formula, faulted }
    }
}

/// Whether these are the items of 2, 9, 3, 0, of which the second ends the run, if it waits until another worker has faulted at
/// the last. One worker alone waits for nobody.
fn are_right<R: Threads + Wait + Sync>(
    rt: &R,
    alloc: Global,
    ops: &[Op<Telling<'_>>],
    items: &[i64],
    faulted: &AtomicU64,
    setting: Setting,
) -> bool {
    let key = if setting.workers == 1 { u64::MAX } else { 1 };
    let gate = KeepsBack::at(key, faulted, 1);
    match ask_list(rt, alloc, &[2, 9, 3, 0], None, ops, setting, &gate) {
        Some(answers) => {
            answers.are_one()
                && answers.items.as_slice() == items
                && answers.ending == Ending::End
                && !gate.gave_up()
        }
        None => false,
    }
}

/// A worker sees the run end: 9 isn't below 5.
fn ends_at_a_worker<R: Threads + Wait + Sync>(rt: &R, alloc: Global, setting: Setting) -> bool {
    let faulted = AtomicU64::new(0);
    let ops = [
        Op::TakeWhile(Telling::of(Formula::Below(5), &faulted)),
        Op::Select(Telling::of(Formula::Into(6), &faulted)),
    ];
    are_right(rt, alloc, &ops, &[3], &faulted, setting)
}

/// The merger sees it end: it takes the first two that pass.
fn ends_at_the_merger<R: Threads + Wait + Sync>(rt: &R, alloc: Global, setting: Setting) -> bool {
    let faulted = AtomicU64::new(0);
    let ops = [
        Op::Filter(Telling::of(Formula::Above(-1), &faulted)),
        Op::Select(Telling::of(Formula::Into(6), &faulted)),
        Op::Take(2),
    ];
    are_right(rt, alloc, &ops, &[3, 0], &faulted, setting)
}

#[test]
fn no_run_tells_a_fault_after_its_end(rt: HostRuntime) -> Result<(), Fail> {
    for growth in [Growth::ONE, Growth::DEFAULT, Growth::new(1, 1, 4)?] {
        for workers in [1u64, 2, 8, 64] {
            let setting = Setting {
                growth,
                ..Setting::by(workers)
            };
            assert!(rt; ends_at_a_worker(&rt, rt.alloc(), setting), "{workers}");
            assert!(rt; ends_at_the_merger(&rt, rt.alloc(), setting), "{workers}");
        }
    }
    Ok(())
}
