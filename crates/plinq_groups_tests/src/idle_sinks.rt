//! What is reported to a sink of a mapped run while nothing comes.
use crate::made_by_workers::BitsOf;
use plinq_enumerator::Growth;
use plinq_groups::MapEach;
use plinq_lambda::Formula;
use plinq_mapped::run_mapped;
use plinq_merge::NeverCancel;
use plinq_ops::{Built, Query};
use plinq_source::{Ending, RangeSource};
use plinq_stopping::run_mapped_with;
use plinq_testing::{KeepsBack, Seen, Taken, Watched};
use std::alloc::Global;
use std::sync::Wait;
use std::sync::atomic::Ordering;
use std::test::*;
use std::thread::Threads;
use std::time::Clock;

/// Four numbers, by one worker, and if it is asked for an operator after the merge.
fn query_of(alloc: Global, skips: bool) -> Built<Formula> {
    let query = Query::new(alloc)
        .as_ordered()?
        .with_degree(1)?
        .filter(Formula::Below(4))?;
    if skips {
        return query.skip(0);
    }
    Ok(query)
}

/// Whether it was reported to the sink, until which the worker is held back, in a run that ended well, with a token or without one.
fn is_told<R: Clock + Threads + Wait + Sync>(
    rt: &R,
    alloc: Global,
    skips: bool,
    has_token: bool,
) -> bool {
    let (Ok(query), Ok(source)) = (query_of(alloc, skips), RangeSource::new(0, 4)) else {
        return false;
    };
    let seen = Seen::new();
    let gate = KeepsBack::at(0, &seen.rests, 1);
    let mut sink = Watched {
        sink: Taken::new(alloc, usize::MAX),
        seen: &seen,
    };
    let bits = MapEach {
        make: BitsOf { but: 9 },
    };
    let growth = Growth::DEFAULT;
    let ended = if has_token {
        let token = &mut NeverCancel;
        run_mapped_with(
            rt, alloc, &query, source, growth, &gate, &bits, token, &mut sink,
        )
    } else {
        run_mapped(rt, alloc, &query, source, growth, &gate, &bits, &mut sink)
    };
    ended == Ok(Ending::End) && !gate.gave_up() && seen.rests.load(Ordering::SeqCst) > 0
}

#[test]
fn a_sink_is_told_that_nothing_comes(rt: HostRuntime) {
    for skips in [false, true] {
        assert!(rt; is_told(&rt, rt.alloc(), skips, false));
        assert!(rt; is_told(&rt, rt.alloc(), skips, true));
    }
}
