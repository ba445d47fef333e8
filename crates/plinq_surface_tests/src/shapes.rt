//! The cases of each enum and the fields of each record that a caller reads.
use plinq_keyed::{Chunk, Event, KeyProperties, Keyed, Record, Tail};
use plinq_lambda::Formula;
use plinq_merge::More;
use plinq_ops::{ChunkResult, FragEnd, Fragment, MergeOption, Op, Order, Plan};
use plinq_run::Report;
use plinq_source::{Ending, Step};
use std::test::*;

fn of_step(step: Step<i64>) -> Option<i64> {
    match step {
        Step::Item(item) => Some(item),
        Step::End => None,
        Step::Refused(code) => Some(i64::from(code)),
    }
}

fn of_ending(ending: Ending) -> u32 {
    match ending {
        Ending::End => 0,
        Ending::Refused(code) => code,
        Ending::Fault(code) => code,
    }
}

fn of_tail(tail: Tail) -> u32 {
    match tail {
        Tail::Ended => 1,
        Tail::Refused(code) => code,
        Tail::Closed => 3,
    }
}

fn of_event(event: Event) -> u64 {
    match event {
        Event::Ask(n) => n,
        Event::Close => 0,
    }
}

fn of_fragment_end(ending: FragEnd) -> u32 {
    match ending {
        FragEnd::More => 1,
        FragEnd::End => 2,
        FragEnd::Fault(code) => code,
        FragEnd::Dropped => 4,
    }
}

fn of_formula(formula: Formula) -> i64 {
    match formula {
        Formula::Add(n) | Formula::Mul(n) | Formula::Mod(n) | Formula::Into(n) => n,
        Formula::Below(n) | Formula::Above(n) | Formula::Equal(n) | Formula::Repeat(n) => n,
        Formula::Even => 0,
        Formula::UpTo => 1,
    }
}

fn of_op(op: Op<i64>) -> i64 {
    match op {
        Op::Select(it) | Op::Filter(it) | Op::SelectMany(it) => it,
        Op::TakeWhile(it) | Op::SkipWhile(it) => it,
        Op::Take(n) | Op::Skip(n) => n,
        Op::AsUnordered => 0,
    }
}

fn of_option(option: MergeOption) -> u64 {
    match option {
        MergeOption::Default => 1,
        MergeOption::NotBuffered => 2,
        MergeOption::AutoBuffered => 3,
        MergeOption::FullyBuffered => 4,
    }
}

fn of_order(order: Order) -> bool {
    match order {
        Order::ByKey => true,
        Order::ByArrival => false,
    }
}

fn of_more(more: More) -> bool {
    match more {
        More::Yes => true,
        More::No => false,
    }
}

/// What a caller reads of a chunk, of its result, of a fragment, of a plan and of a report.
fn of_chunk(chunk: Chunk<i64>) -> (u64, Vec<i64>, Option<Tail>) {
    let Chunk { first, items, tail } = chunk;
    (first, items, tail)
}

fn of_result(made: ChunkResult<i64>) -> (u64, u64, Vec<i64>, FragEnd, Option<u64>, Option<Tail>) {
    let ChunkResult {
        first,
        count,
        items,
        ending,
        stop,
        tail,
    } = made;
    (first, count, items, ending, stop, tail)
}

fn of_fragment(fragment: Fragment<i64>) -> (Vec<i64>, FragEnd) {
    let Fragment { items, ending } = fragment;
    (items, ending)
}

fn of_plan<'a>(plan: Plan<'a, Formula>) -> (&'a [Op<Formula>], &'a [Op<Formula>], Order, bool) {
    let Plan {
        worker,
        after,
        order,
        decided,
    } = plan;
    (worker, after, order, decided)
}

fn of_report(report: Report) -> (Ending, Vec<Record>) {
    let Report { ending, records } = report;
    (ending, records)
}

fn are_cases() -> bool {
    of_step(Step::Refused(7)) == Some(7)
        && of_ending(Ending::Fault(2)) == 2
        && of_tail(Tail::Refused(7)) == 7
        && of_event(Event::Ask(5)) == 5
        && of_fragment_end(FragEnd::Fault(2)) == 2
        && of_formula(Formula::Repeat(6)) == 6
        && of_op(Op::SkipWhile(4)) == 4
        && of_option(MergeOption::FullyBuffered) == 4
        && of_order(Order::ByKey)
        && !of_more(More::No)
}

/// Records, keyed elements and properties are made and copied by a caller.
fn are_copied() -> bool {
    let record = Record {
        ticket: 3,
        asked: Event::Close,
        first: 2,
        count: 0,
        tail: Some(Tail::Closed),
    };
    let keyed = Keyed {
        key: 1u64,
        value: 5i64,
    };
    let promised = KeyProperties {
        in_each: true,
        across: false,
        normalized: true,
    };
    let (again, same, also) = (record, keyed, promised);
    again.ticket == record.ticket
        && same.value == keyed.value
        && also.in_each
        && !promised.across
        && promised.normalized
}

#[test]
fn cases_and_fields(rt: HostRuntime) {
    assert!(&rt; are_cases());
    assert!(&rt; are_copied());
}
