//! Calls whose answers have a shape of their own.
use plinq_lambda::Formula;
use plinq_merge::{Cancel, CancelAfter, CancelFlag, NeverCancel};
use plinq_ops::{BuildFault, MergeOption, Plan, Query};
use std::alloc::Global;
use std::test::*;

/// Each builder call answers the query, or that with a fault.
type Called = Result<Query<Formula>, (Query<Formula>, BuildFault)>;

fn called(alloc: Global, number: u64, query: Query<Formula>) -> Called {
    match number {
        0 => query.as_ordered(),
        1 => query.as_unordered(),
        2 => query.select(Formula::Add(1)),
        3 => query.filter(Formula::Even),
        4 => query.select_many(Formula::UpTo),
        5 => query.take(3),
        6 => query.skip(3),
        7 => query.take_while(Formula::Below(9)),
        8 => query.skip_while(Formula::Below(9)),
        9 => query.with_merge(MergeOption::NotBuffered),
        10 => query.with_degree(3),
        _ => Ok(Query::new(alloc)),
    }
}

/// The option that is in force after a call.
fn merged(number: u64) -> MergeOption {
    if number == 9 {
        MergeOption::NotBuffered
    } else {
        MergeOption::AutoBuffered
    }
}

/// How many elements a batch has by it.
fn sized(option: MergeOption) -> Option<usize> {
    option.batch_size()
}

/// Whether a call answered a query with what it called for, or that without it.
fn is_right(number: u64, answer: Called) -> bool {
    match answer {
        Ok(query) => {
            let plan: Plan<'_, Formula> = query.split();
            !plan.decided
                && query.is_ordered() == (number == 0)
                && query.ops().len() <= 1
                && query.degree() == if number == 10 { 3 } else { 4 }
                && query.merge_option() == merged(number)
                && sized(query.merge_option()) == if number == 9 { Some(1) } else { Some(16) }
        }
        Err((query, fault)) => query.ops().is_empty() && fault == BuildFault::Memory,
    }
}

#[test]
fn builder_calls(rt: HostRuntime) {
    for number in 0..12u64 {
        let answer = called(rt.alloc(), number, Query::new(rt.alloc()));
        assert!(&rt; is_right(number, answer), "{number}");
    }
}

fn are_set() -> bool {
    let flag = CancelFlag::new();
    flag.cancel();
    flag.token().cancelled(0) && CancelAfter::new(3).cancelled(3) && !NeverCancel.cancelled(3)
}

#[test]
fn a_flag_is_set_and_has_tokens(rt: HostRuntime) {
    assert!(&rt; are_set());
}
