//! A merger over another type than that of the program's numbers.
use crate::offers::{Same, merger_of, ordered, result_of};
use plinq_keyed::Tail;
use plinq_ops::{MergeOption, Query};
use plinq_source::Ending;
use plinq_testing::Taken;
use std::alloc::Global;

/// Whether a, b and c come in one batch.
fn are_merged(alloc: Global) -> Option<bool> {
    let query: Query<Same> = ordered(alloc)?;
    let mut merger = merger_of(alloc, &query, MergeOption::FullyBuffered)?;
    let last = result_of(alloc, 2, &['c'], Some(Tail::Ended))?;
    let first = result_of(alloc, 0, &['a', 'b'], None)?;
    let mut sink = Taken::new(alloc, usize::MAX);
    let is_last_taken = merger.offer(last, &mut sink).is_ok();
    let is_first_taken = merger.offer(first, &mut sink).is_ok();
    let is_end = merger.finish() == Ok(Ending::End);
    let is_one = match sink.batches.as_slice() {
        [batch] => batch.as_slice() == ['a', 'b', 'c'].as_slice(),
        _ => false,
    };
    Some(is_last_taken && is_first_taken && is_end && is_one)
}

#[test]
fn letters_are_merged_as_numbers_are(rt: HostRuntime) {
    assert!(rt; are_merged(rt.alloc()) == Some(true));
}
