//! An answer that one thread delivers: a batch is sent as soon as it is full, and no item is asked for before that, or 512 are asked
//! for at once.
ghost use Rattle.std.specs.Prelude.{◌≡◌};

use plinq_lambda::Formula;
use plinq_merge::{DeliveryFault, Sink, deliver_in_blocks, deliver_sequentially};
use plinq_ops::{Built, MergeOption, Op, Query};
use plinq_source::{Ending, RangeSource, Source, Step};
use plinq_testing::{Counted, Seen, Watched};
use std::alloc::Global;
use std::sync::atomic::Ordering;

fn query_of(alloc: Global, option: MergeOption, op: Op<Formula>) -> Built<Formula> {
    Query::new(alloc).with_merge(option)?.with_op(op)
}

/// How an answer is delivered.
#[derive(Clone, Copy)]
pub(crate) enum How {
    Singly,
    InBlocks,
}

/// Delivers an answer so.
pub(crate) fn deliver<K: Sink<Item = i64>>(
    alloc: Global,
    how: How,
    query: &Query<Formula>,
    source: &mut RangeSource,
    sink: &mut K,
) -> Result<Ending, DeliveryFault>
    requires { ⟦<RangeSource as Source>⟧.given source.old ≡ 0 }
{
    match how {
        How::Singly => deliver_sequentially(alloc, query, source, sink),
        How::InBlocks => deliver_in_blocks(alloc, query, source, sink),
    }
}

/// Five items of each element, which a Select leaves as it is before that.
fn later_fives(alloc: Global) -> Built<Formula> {
    Query::new(alloc)
        .with_op(Op::Select(Formula::Add(0)))?
        .with_op(Op::SelectMany(Formula::Repeat(5)))
}

/// What a source of 1, 2, 3 and so on gives next, once the sink has refused this batch.
fn next_after(alloc: Global, how: How, query: &Query<Formula>, refused: u64) -> Option<Step<i64>> {
    let mut source = RangeSource::new(1, 200_000).ok()?;
    let mut sink = Counted::refusing(refused);
    match deliver(alloc, how, query, &mut source, &mut sink) {
        Err(DeliveryFault::Sink(9)) => Some(source.next()),
        _ => None,
    }
}

/// Whether it gives these numbers next, once the sink has refused these batches.
fn are_next(alloc: Global, how: How, query: Built<Formula>, rows: &[(u64, i64)]) -> bool {
    let Ok(query) = query else {
        return false;
    };
    for (refused, next) in rows {
        match next_after(alloc, how, &query, *refused) {
            Some(Step::Item(given)) if given == *next => {}
            _ => return false,
        }
    }
    true
}

/// The same of a query with one operator.
fn are_next_of(
    alloc: Global,
    how: How,
    option: MergeOption,
    op: Op<Formula>,
    rows: &[(u64, i64)],
) -> bool {
    are_next(alloc, how, query_of(alloc, option, op), rows)
}

/// Whether a source is asked for nothing if nothing is taken.
fn asks_nothing(alloc: Global, how: How) -> bool {
    let Ok(query) = query_of(alloc, MergeOption::NotBuffered, Op::Take(0)) else {
        return false;
    };
    let Ok(mut source) = RangeSource::new(1, 200_000) else {
        return false;
    };
    let mut sink = Counted::refusing(0);
    match deliver(alloc, how, &query, &mut source, &mut sink) {
        Ok(Ending::End) => matches!(source.next(), Step::Item(1)),
        _ => false,
    }
}

#[test]
fn each_item_is_sent_at_once(rt: HostRuntime) {
    let even = Op::Filter(Formula::Even);
    let rows = [(0, 3), (4, 11)];
    assert!(rt;
        are_next_of(
            rt.alloc(),
            How::Singly,
            MergeOption::NotBuffered,
            even,
            &rows
        )
    );
}

#[test]
fn sixteen_items_are_sent_at_once(rt: HostRuntime) {
    let even = Op::Filter(Formula::Even);
    let rows = [(0, 33), (2, 97)];
    assert!(rt;
        are_next_of(
            rt.alloc(),
            How::Singly,
            MergeOption::AutoBuffered,
            even,
            &rows
        )
    );
}

/// Five items come of each element: the second batch begins with four of those of the fourth, and the third with three of the
/// seventh's.
#[test]
fn a_batch_that_was_begun_is_filled_up(rt: HostRuntime) {
    let fives = Op::SelectMany(Formula::Repeat(5));
    let rows = [(0, 5), (1, 8), (2, 11)];
    assert!(rt;
        are_next_of(
            rt.alloc(),
            How::Singly,
            MergeOption::AutoBuffered,
            fives,
            &rows
        )
    );
}

/// Half of each 512 elements pass.
#[test]
fn each_item_of_a_block_is_a_batch(rt: HostRuntime) {
    let even = Op::Filter(Formula::Even);
    let rows = [(0, 513), (255, 513), (256, 1_025)];
    assert!(rt;
        are_next_of(
            rt.alloc(),
            How::InBlocks,
            MergeOption::NotBuffered,
            even,
            &rows
        )
    );
}

/// Of 495 items the last 15 wait for those of the next block.
#[test]
fn a_batch_goes_on_in_the_next_block(rt: HostRuntime) {
    let later = Op::Skip(17);
    let rows = [(0, 513), (29, 513), (30, 1_025), (61, 1_025), (62, 1_537)];
    assert!(rt;
        are_next_of(
            rt.alloc(),
            How::InBlocks,
            MergeOption::AutoBuffered,
            later,
            &rows
        )
    );
}

#[test]
fn expansions_come_one_by_one_in_any_case(rt: HostRuntime) {
    let fives = Op::SelectMany(Formula::Repeat(5));
    let rows = [(0, 5), (1, 8), (2, 11)];
    assert!(rt;
        are_next_of(
            rt.alloc(),
            How::InBlocks,
            MergeOption::AutoBuffered,
            fives,
            &rows
        )
    );
}

#[test]
fn later_expansions_come_one_by_one_too(rt: HostRuntime) {
    let rows = [(0, 5), (1, 8), (2, 11)];
    assert!(rt; are_next(rt.alloc(), How::InBlocks, later_fives(rt.alloc()), &rows));
}

#[test]
fn a_query_that_takes_nothing_asks_for_nothing(rt: HostRuntime) {
    assert!(rt; asks_nothing(rt.alloc(), How::Singly));
    assert!(rt; asks_nothing(rt.alloc(), How::InBlocks));
}

#[test]
fn a_full_answer_is_sent_at_its_end(rt: HostRuntime) {
    let full = MergeOption::FullyBuffered;
    assert!(rt; are_next_of(rt.alloc(), How::Singly, full, Op::Take(700), &[(0, 701)]));
    assert!(rt;
        are_next_of(
            rt.alloc(),
            How::InBlocks,
            full,
            Op::Take(700),
            &[(0, 1_025)]
        )
    );
}

/// Items of which one in 10,000 passes, so that a batch of 16 takes 160,000.
fn rare(alloc: Global) -> Built<Formula> {
    Query::new(alloc)
        .with_op(Op::Select(Formula::Mod(10_000)))?
        .with_op(Op::Filter(Formula::Equal(7)))
}

/// How often a sink is told in an answer to 200,000 items.
fn count_rests(alloc: Global, how: How, query: Built<Formula>) -> Option<u64> {
    let query = query.ok()?;
    let mut source = RangeSource::new(1, 200_000).ok()?;
    let seen = Seen::new();
    let mut sink = Watched {
        sink: Counted::numbers_from(1),
        seen: &seen,
    };
    match deliver(alloc, how, &query, &mut source, &mut sink) {
        Ok(Ending::End) => Some(seen.rests.load(Ordering::SeqCst)),
        _ => None,
    }
}

/// Whether it is told so often of the numbers below this one, each a batch.
fn are_rests_below(alloc: Global, how: How, below: i64, rests: u64) -> bool {
    let op = Op::Filter(Formula::Below(below));
    count_rests(alloc, how, query_of(alloc, MergeOption::NotBuffered, op)) == Some(rests)
}

#[test]
fn a_sink_is_told_that_nothing_comes(rt: HostRuntime) {
    for how in [How::Singly, How::InBlocks] {
        assert!(rt; are_rests_below(rt.alloc(), how, 100, 24));
        assert!(rt; are_rests_below(rt.alloc(), how, 300_000, 0));
        assert!(rt; count_rests(rt.alloc(), how, rare(rt.alloc())) == Some(24));
    }
}
