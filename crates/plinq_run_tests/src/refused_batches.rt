//! A run whose sink refuses a batch.
use crate::beside_one_thread::{Setting, ask_range};
use plinq_enumerator::Growth;
use plinq_lambda::Formula;
use plinq_ops::Op;
use plinq_run::OpenGate;
use plinq_testing::{OPTIONS, WORKERS};
use std::alloc::Global;
use std::sync::Wait;
use std::test::*;
use std::thread::Threads;

/// Whether a run over so many numbers reports the batch that its sink refuses, and has delivered those before it.
fn is_refused<R: Threads + Wait + Sync>(
    rt: &R,
    alloc: Global,
    count: u64,
    ops: &[Op<Formula>],
    setting: Setting,
) -> bool {
    match ask_range(rt, alloc, count, ops, setting, &OpenGate) {
        Some(answers) => answers.are_refused(),
        None => false,
    }
}

#[test]
fn a_sink_that_refuses_any_batch_ends_the_run(rt: HostRuntime) {
    for refused in 0..17 {
        for workers in WORKERS {
            let setting = Setting {
                refused,
                ..Setting::by(workers)
            };
            assert!(rt;
                is_refused(&rt, rt.alloc(), 17, &[], setting),
                "{refused} of {workers}"
            );
        }
    }
}

#[test]
fn the_only_batch_is_refused(rt: HostRuntime) {
    for option in OPTIONS {
        for workers in WORKERS {
            let setting = Setting {
                growth: Growth::DEFAULT,
                option,
                refused: 0,
                ..Setting::by(workers)
            };
            assert!(rt;
                is_refused(&rt, rt.alloc(), 16, &[], setting),
                "by {workers}"
            );
        }
    }
}

#[test]
fn the_second_of_three_batches_is_refused(rt: HostRuntime) {
    let add_one = [Op::Select(Formula::Add(1))];
    for workers in WORKERS {
        let setting = Setting {
            growth: Growth::DEFAULT,
            refused: 1,
            ..Setting::by(workers)
        };
        assert!(rt;
            is_refused(&rt, rt.alloc(), 3, &add_one, setting),
            "by {workers}"
        );
    }
}
