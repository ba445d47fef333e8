//! Answers of one thread, if there is room for them.
ghost use Rattle.std.specs.Prelude.{◌≡◌, IfSome};

use crate::building::ordered;
use plinq_lambda::Formula;
use plinq_ops::{Op, sequential};
use plinq_source::{Ending, ListSource, RangeSource, Source};
use std::alloc::Global;

/// A source of a list, which refuses after it if there is a code.
pub(crate) fn source_of(
    alloc: Global,
    list: &[i64],
    refusal: Option<u32>,
) -> Option<ListSource<i64>>
    ensures { IfSome result (λ source. ⟦<ListSource<i64> as Source>⟧.given source ≡ 0) }
{
    if list.len() > 100 {
        return None;
    }
    let Ok(list) = Vec::from_slice(alloc, list) else {
        return None;
    };
    match refusal {
        None => Some(ListSource::new(alloc, list)),
        Some(code) => Some(ListSource::refusing(alloc, list, code)),
    }
}

/// How many items one thread answers of a long range, and the last of them.
fn count_and_last(alloc: Global, op: Op<Formula>) -> Option<(usize, i64)> {
    let query = ordered(alloc, &[op])?;
    let mut source = RangeSource::new(1, 5000).ok()?;
    match sequential(alloc, &query, &mut source) {
        Ok((items, ending)) => match items.last() {
            Some(last) if ending == Ending::End => Some((items.len(), *last)),
            _ => None,
        },
        Err(_) => None,
    }
}

/// Long lists and answers take no other path than short ones.
#[test]
fn answers_of_many_items(rt: HostRuntime) {
    for (op, count, last) in [
        (Op::Select(Formula::Add(1)), 5000, 5001),
        (Op::Filter(Formula::Even), 2500, 5000),
        (Op::SelectMany(Formula::Repeat(3)), 15_000, 5000),
    ] {
        assert!(rt;
            count_and_last(rt.alloc(), op) == Some((count, last)),
            "{op:?}"
        );
    }
}

/// Whether the answer is right, if there is room for it.
fn is_right_if_any(alloc: Global) -> bool {
    let ops = [Op::SelectMany(Formula::Repeat(2)), Op::Skip(1), Op::Take(4)];
    let (Some(query), Ok(mut source)) = (ordered(alloc, &ops), RangeSource::new(3, 4)) else {
        return true;
    };
    match sequential(alloc, &query, &mut source) {
        Ok((items, ending)) => items.as_slice() == [3, 4, 4, 5].as_slice() && ending == Ending::End,
        Err(_) => true,
    }
}

/// Also if an allocation fails: run it with each allocation refused in turn.
#[test]
fn answers_or_says_that_memory_ran_out(rt: HostRuntime) {
    assert!(rt; is_right_if_any(rt.alloc()));
}
