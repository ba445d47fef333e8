use crate::offers::{merger_of, ordered, result_of};
use crate::sent_at_once::{How, deliver};
use plinq_keyed::Tail;
use plinq_lambda::Formula;
use plinq_merge::{DeliveryFault, MergeFault, Merger, More};
use plinq_ops::{MergeOption, Query};
use plinq_source::{Ending, RangeSource};
use plinq_testing::Taken;
use std::alloc::Global;

/// How many numbers these batches have, if they are those from 1 on.
fn counted(batches: &[Vec<i64>]) -> Option<i64> {
    let mut count = 0i64;
    for batch in batches {
        for item in batch.iter() {
            count = count.wrapping_add(1);
            if *item != count {
                return None;
            }
        }
    }
    Some(count)
}

/// Whether an answer fits what a merger has done before.
fn fits(answer: Result<More, MergeFault>, failed: bool) -> bool {
    match answer {
        Ok(_) | Err(MergeFault::Memory | MergeFault::Sink(1_000)) => !failed,
        Err(fault) => failed && fault == MergeFault::Failed,
    }
}

/// Whether a merger that has failed says so at its end, and one that hasn't has all of the answer. Of that the first numbers were
/// delivered in any case.
fn ends(merger: Merger<'_, Formula>, count: Option<i64>, failed: bool) -> bool {
    let is_decided = merger.decided();
    let told = merger.finish();
    if failed {
        !is_decided && told == Err(MergeFault::Failed) && count.is_some()
    } else {
        is_decided && told == Ok(Ending::End) && count == Some(4)
    }
}

/// Whether the batches delivered are the first of the answer's, and after an offer with no room the merger has failed.
fn are_merged(alloc: Global, merger: Merger<'_, Formula>) -> bool {
    let offers: [(u64, &[i64], Option<Tail>); 3] = [
        (2, &[3], None),
        (0, &[1, 2], None),
        (3, &[4], Some(Tail::Ended)),
    ];
    let mut sink = Taken::new(alloc, usize::MAX);
    let mut merger = merger;
    let mut failed = false;
    for (first, items, tail) in offers {
        let Some(offered) = result_of(alloc, first, items, tail) else {
            return counted(&sink.batches).is_some();
        };
        let answer = merger.offer(offered, &mut sink);
        if !fits(answer, failed) {
            return false;
        }
        failed = answer.is_err();
    }
    ends(merger, counted(&sink.batches), failed)
}

/// Whether a merger does so that is made at the second attempt if the first is refused.
fn merges(alloc: Global, option: MergeOption) -> bool {
    let Some(query) = ordered(alloc) else {
        return true;
    };
    match merger_of(alloc, &query, option) {
        Some(merger) => are_merged(alloc, merger),
        None => merger_of(alloc, &query, option).is_some(),
    }
}

/// Run with each allocation failing in turn.
#[test]
fn no_room_ends_a_merger_that_is_not_buffered(rt: HostRuntime) {
    assert!(rt; merges(rt.alloc(), MergeOption::NotBuffered));
}

/// Run with each allocation failing in turn.
#[test]
fn no_room_ends_a_merger_of_batches(rt: HostRuntime) {
    assert!(rt; merges(rt.alloc(), MergeOption::AutoBuffered));
}

/// Run with each allocation failing in turn.
#[test]
fn no_room_ends_a_merger_that_is_fully_buffered(rt: HostRuntime) {
    assert!(rt; merges(rt.alloc(), MergeOption::FullyBuffered));
}

/// What one thread makes of so many numbers: `Ok` says whether all were delivered in order; in a fault, for lack of room, it says so of the
/// first of them.
fn delivered(alloc: Global, how: How, query: &Query<Formula>, most: u32) -> Result<bool, bool> {
    let Ok(mut source) = RangeSource::new(1, u64::from(most)) else {
        return Ok(false);
    };
    let mut sink = Taken::new(alloc, usize::MAX);
    match deliver(alloc, how, query, &mut source, &mut sink) {
        Ok(ending) => {
            let is_all = counted(&sink.batches) == Some(i64::from(most));
            Ok(ending == Ending::End && is_all)
        }
        Err(DeliveryFault::Memory | DeliveryFault::Sink(1_000)) => {
            Err(matches!(counted(&sink.batches), Some(count) if count < i64::from(most)))
        }
        Err(_) => Ok(false),
    }
}

/// Whether all are delivered, at the second attempt if there was no room at the first.
fn delivers(alloc: Global, how: How, option: MergeOption, most: u32) -> bool {
    let Ok(query) = Query::new(alloc).with_merge(option) else {
        return true;
    };
    match delivered(alloc, how, &query, most) {
        Ok(is_right) => is_right,
        Err(is_right) => is_right && delivered(alloc, how, &query, most) == Ok(true),
    }
}

/// The batches of one thread are the first of the answer's, and all of them if the call answers its ending; if it doesn't, it
/// does the next time. Run with each allocation failing in turn.
#[test]
fn no_room_ends_a_delivery_by_one_thread(rt: HostRuntime) {
    for option in [
        MergeOption::NotBuffered,
        MergeOption::AutoBuffered,
        MergeOption::FullyBuffered,
    ] {
        assert!(rt; delivers(rt.alloc(), How::Singly, option, 40), "{option:?}");
    }
}

/// The same of two blocks.
#[test]
fn no_room_ends_a_delivery_in_blocks(rt: HostRuntime) {
    for option in [
        MergeOption::NotBuffered,
        MergeOption::AutoBuffered,
        MergeOption::FullyBuffered,
    ] {
        assert!(rt;
            delivers(rt.alloc(), How::InBlocks, option, 600),
            "{option:?}"
        );
    }
}
