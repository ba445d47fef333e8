//! Calls that are refused an allocation, and the same once more. Each test is run with each allocation failing in turn.
use crate::building::{ordered, with};
use plinq_keyed::Chunk;
use plinq_lambda::Formula;
use plinq_ops::{Op, Query, chunk_result, fragment, sequential};
use plinq_source::RangeSource;
use std::alloc::Global;

const OPS: [Op<Formula>; 8] = [
    Op::Select(Formula::Add(1)),
    Op::Filter(Formula::Even),
    Op::SelectMany(Formula::UpTo),
    Op::Take(5),
    Op::Skip(-1),
    Op::TakeWhile(Formula::Below(9)),
    Op::SkipWhile(Formula::Above(3)),
    Op::AsUnordered,
];

/// The query with the call of this operator, at the second attempt if the first is refused, which hands it back as it was.
/// Returns how many were refused.
fn with_at_last(query: Query<Formula>, op: Op<Formula>) -> Option<(Query<Formula>, usize)> {
    let query = match with(query, op) {
        Ok(query) => return Some((query, 0)),
        Err((query, _)) => query,
    };
    match with(query, op) {
        Ok(query) => Some((query, 1)),
        Err(_) => None,
    }
}

/// How many builder calls were refused: each of a new query, and each of one that has those before it.
fn refused_calls(alloc: Global) -> Option<usize> {
    let mut all = Query::new(alloc);
    let mut refused = 0usize;
    for op in OPS {
        let (_, first) = with_at_last(Query::new(alloc), op)?;
        let (longer, second) = with_at_last(all, op)?;
        all = longer;
        refused = refused.wrapping_add(first).wrapping_add(second);
    }
    if all.ops().len() == OPS.len() {
        Some(refused)
    } else {
        None
    }
}

#[test]
fn a_builder_call_that_is_refused_hands_the_query_back(rt: HostRuntime) {
    assert!(rt; matches!(refused_calls(rt.alloc()), Some(0 | 1)));
}

/// Asks one thread for the answer: 2 and 4, thirty times each. Returns whether that was refused.
fn is_answer_refused(alloc: Global, query: &Query<Formula>) -> bool {
    let Ok(mut source) = RangeSource::new(1, 4) else {
        return true;
    };
    match sequential(alloc, query, &mut source) {
        Ok((items, _)) => items.len() != 60,
        Err(_) => true,
    }
}

fn is_answered(alloc: Global) -> bool {
    let ops = [
        Op::Filter(Formula::Even),
        Op::SelectMany(Formula::Repeat(30)),
    ];
    let Some(query) = ordered(alloc, &ops) else {
        return true;
    };
    let first = is_answer_refused(alloc, &query);
    let second = is_answer_refused(alloc, &query);
    !first || !second
}

#[test]
fn an_answer_that_is_refused_is_given_the_next_time(rt: HostRuntime) {
    assert!(rt; is_answered(rt.alloc()));
}

/// How many results of a chunk, and of an element, are refused of two each.
fn refused_results(alloc: Global) -> usize {
    let Some(query) = ordered(alloc, &[Op::SelectMany(Formula::Repeat(9))]) else {
        return 0;
    };
    let Ok(items) = Vec::from_slice(alloc, &[3, 1]) else {
        return 0;
    };
    let plan = query.split();
    if plan.decided || items.len() != 2 {
        return 9;
    }
    let chunk = Chunk {
        first: 0,
        items,
        tail: None,
    };
    let mut refused = 0usize;
    for _turn in 0..2 {
        let told = chunk_result(alloc, &plan, &chunk, u64::MAX);
        refused = refused.wrapping_add(usize::from(told.is_err()));
        let told = fragment(alloc, plan.worker, 0, 3);
        refused = refused.wrapping_add(usize::from(told.is_err()));
    }
    refused
}

#[test]
fn a_result_that_is_refused_is_given_the_next_time(rt: HostRuntime) {
    assert!(rt; refused_results(rt.alloc()) <= 1);
}
