//! What a run reports of the requests to its source.
use crate::beside_one_thread::{Answers, Setting, ask_list, ask_range};
use plinq_enumerator::{Growth, replays};
use plinq_keyed::{Event, Record};
use plinq_lambda::Formula;
use plinq_ops::{MergeOption, Op};
use plinq_run::{Gate, OpenGate};
use plinq_source::Ending;
use plinq_testing::{WORKERS, waits_for};
use std::alloc::Global;
use std::sync::Wait;
use std::sync::atomic::{AtomicU64, Ordering};
use std::test::*;
use std::thread::Threads;

/// What some records come to.
#[derive(Clone, Copy)]
struct Totals {
    /// How many requests closed the source.
    closes: u64,
    /// How many requests for items had a tail.
    tails: u64,
    /// How many items were handed out.
    items: u64,
}

fn tally(records: &[Record]) -> Totals {
    let mut all = Totals {
        closes: 0,
        tails: 0,
        items: 0,
    };
    for record in records {
        if record.asked == Event::Close {
            all.closes = all.closes.wrapping_add(1);
        } else if record.tail.is_some() {
            all.tails = all.tails.wrapping_add(1);
        }
        all.items = all.items.wrapping_add(record.count);
    }
    all
}

/// Chunks that grow, for so many workers.
fn by(workers: u64) -> Setting {
    Setting {
        growth: Growth::DEFAULT,
        option: MergeOption::Default,
        ..Setting::by(workers)
    }
}

/// What a run reports that gives the answer of one thread.
fn records_of(answers: Answers) -> Option<Vec<Record>> {
    if !answers.are_one() {
        return None;
    }
    let Answers { told, .. } = answers;
    match told {
        Ok(report) => Some(report.records),
        Err(_) => None,
    }
}

/// The records of a run over 1 and 2, and then a refusal.
fn records_of_a_list<R: Threads + Wait + Sync>(
    rt: &R,
    alloc: Global,
    ops: &[Op<Formula>],
    setting: Setting,
) -> Option<Vec<Record>> {
    records_of(ask_list(rt, alloc, &[1, 2], Some(7), ops, setting, &OpenGate)?)
}

/// Those of a run over so many numbers.
fn records_of_a_range<R: Threads + Wait + Sync>(
    rt: &R,
    alloc: Global,
    count: u64,
    ops: &[Op<Formula>],
    setting: Setting,
) -> Option<Vec<Record>> {
    records_of(ask_range(rt, alloc, count, ops, setting, &OpenGate)?)
}

fn are_a_history(records: &[Record]) -> bool {
    replays(records, 2, Ending::Refused(7)) && tally(records).closes == 1
}

#[test]
fn records_are_a_history_with_one_close(rt: HostRuntime) {
    for workers in WORKERS {
        let records = records_of_a_list(&rt, rt.alloc(), &[], by(workers));
        assert!(rt;
            records.is_some_and(|records| are_a_history(&records)),
            "{workers}"
        );
    }
}

#[test]
fn a_decided_query_asks_for_nothing(rt: HostRuntime) {
    let records = records_of_a_list(&rt, rt.alloc(), &[Op::Take(0)], by(2));
    assert!(rt; records.is_some_and(|records| records.is_empty()));
}

/// Whether the source was closed once, and at most as many items were handed out as workers may be ahead, each with a chunk more.
/// After the close each worker that was started asks once more, and is answered so; what it asked is reported as well.
fn are_few(records: &[Record], workers: u64) -> bool {
    let Totals {
        closes,
        tails,
        items,
    } = tally(records);
    closes == 1 && 1 <= tails && tails <= workers && items <= workers.saturating_mul(241 * 512)
}

#[test]
fn a_long_range_is_closed_long_before_its_end(rt: HostRuntime) {
    for workers in WORKERS {
        let three = [Op::Take(3)];
        let records = records_of_a_range(&rt, rt.alloc(), 1_099_511_627_776, &three, by(workers));
        assert!(rt;
            records.is_some_and(|records| are_few(&records, workers)),
            "{workers}"
        );
    }
}

/// Whether these are the sizes that were asked for, up to the source's end.
fn are_sizes(records: &[Record], sizes: &[u64]) -> bool {
    let mut left = sizes;
    for record in records {
        if let Event::Ask(size) = record.asked {
            match left.split_first() {
                Some((next, following)) if *next == size => left = following,
                _ => return false,
            }
            if record.tail.is_some() {
                break;
            }
        }
    }
    left.is_empty()
}

/// Whether a run over so many numbers asks for these sizes.
fn asks_for<R: Threads + Wait + Sync>(
    rt: &R,
    alloc: Global,
    count: u64,
    setting: Setting,
    sizes: &[u64],
) -> bool {
    match records_of_a_range(rt, alloc, count, &[], setting) {
        Some(records) => are_sizes(&records, sizes),
        None => false,
    }
}

#[test]
fn chunks_grow_as_the_run_was_told(rt: HostRuntime) {
    let grown = [1, 1, 1, 2, 2, 2, 4];
    assert!(rt; asks_for(&rt, rt.alloc(), 11, by(1), &grown));
    assert!(rt; asks_for(&rt, rt.alloc(), 3, Setting::by(1), &[1, 1, 1, 1]));
    // (a token is no reason for another growth)
    let cancel_after = Some(u64::MAX);
    let grows = Setting {
        cancel_after,
        ..by(1)
    };
    assert!(rt; asks_for(&rt, rt.alloc(), 11, grows, &grown));
    let stays = Setting {
        cancel_after,
        ..Setting::by(1)
    };
    assert!(rt; asks_for(&rt, rt.alloc(), 3, stays, &[1, 1, 1, 1]));
}

/// A gate whose clock says how many nanoseconds each chunk of the first worker takes, one after another; of those after them none. It
/// is asked once before there is a chunk. Other workers are held until the first has taken so many chunks.
#[derive(Drop)]
struct Times<'a> {
    all: &'a [u64],
    chunks: u64,
    calls: AtomicU64,
}

impl<'a> Gate for Times<'a> {
    fn before_take(&self, worker: u64) {
        if worker > 0 {
            let _has_ended = waits_for(&self.calls, self.chunks.wrapping_mul(2).wrapping_add(1));
        }
    }

    fn after_chunk(&self, _worker: u64, _first: u64) {}

    fn may_block(&self) -> bool {
        false
    }

    fn nanoseconds(&self) -> Option<u64> {
        let call = self.calls.fetch_add(1, Ordering::SeqCst);
        if call % 2 == 1 {
            return Some(7);
        }
        match self.all.get((call / 2).wrapping_sub(1) as usize) {
            Some(took) => Some(took.wrapping_add(7)),
            None => Some(7),
        }
    }
}

/// Whether the first worker of a run over so many numbers, which takes so long for its chunks, asks for these sizes.
fn asks_by_time<R: Threads + Wait + Sync>(
    rt: &R,
    alloc: Global,
    count: u64,
    ops: &[Op<Formula>],
    setting: Setting,
    times: &[u64],
    sizes: &[u64],
) -> bool {
    let gate = Times {
        all: times,
        chunks: sizes.len() as u64,
        calls: AtomicU64::new(0),
    };
    let Some(answers) = ask_range(rt, alloc, count, ops, setting, &gate) else {
        return false;
    };
    match records_of(answers) {
        Some(records) => are_sizes(&records, sizes),
        None => false,
    }
}

#[test]
fn brief_chunks_double_and_long_ones_halve(rt: HostRuntime) {
    let times = [
        24_999, 24_999, 24_999, 25_000, 100_003, 100_004, 100_004, 24_999,
    ];
    let sizes = [1, 2, 4, 8, 8, 8, 4, 2, 4];
    assert!(rt; asks_by_time(&rt, rt.alloc(), 40, &[], by(1), &times, &sizes));
    let long = [1_000_000; 5];
    assert!(rt; asks_by_time(&rt, rt.alloc(), 4, &[], by(1), &long, &[1, 1, 1, 1, 1]));
}

#[test]
fn from_32_workers_on_chunks_may_take_twice_as_long(rt: HostRuntime) {
    let times = [49_999, 49_999, 50_000, 200_003, 200_004];
    let sizes = [1, 2, 4, 4, 4, 2];
    assert!(rt; asks_by_time(&rt, rt.alloc(), 16, &[], by(32), &times, &sizes));
    let fewer = [24_999, 24_999, 25_000, 100_003, 100_004];
    assert!(rt; asks_by_time(&rt, rt.alloc(), 16, &[], by(31), &fewer, &sizes));
}

#[test]
fn a_chunk_has_at_most_an_eighth_of_what_a_worker_may_be_ahead(rt: HostRuntime) {
    let grown = [
        1, 2, 4, 8, 16, 32, 64, 128, 256, 512, 1_024, 2_048, 4_096, 8_192, 16_384, 16_384,
    ];
    assert!(rt; asks_by_time(&rt, rt.alloc(), 40_000, &[], by(1), &[], &grown));
}

#[test]
fn chunks_whose_elements_expand_grow_as_the_run_was_told(rt: HostRuntime) {
    let by_workers = [Op::SelectMany(Formula::Repeat(2))];
    let by_the_caller = [
        Op::SkipWhile(Formula::Below(0)),
        Op::SelectMany(Formula::Repeat(2)),
    ];
    let grown = [1, 1, 1, 2, 2, 2, 4, 4, 4, 8];
    assert!(rt; asks_by_time(&rt, rt.alloc(), 28, &by_workers, by(1), &[], &grown));
    assert!(rt; asks_by_time(&rt, rt.alloc(), 28, &by_the_caller, by(1), &[], &grown));
}
