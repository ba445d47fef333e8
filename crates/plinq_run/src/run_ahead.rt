//! How far workers run ahead of what is merged, and how many of them are at work at first.
ghost use Rattle.std.specs.Prelude.{◌≤◌, ◌<◌, ◌+◌, ◌*◌};

use crate::chunk_pieces::expands;
use plinq_crew::{Gate, Progress};
use plinq_ops::{Order, Plan};
use std::mem::{align_of_val, size_of_val};
use std::thread::{Threads, available_parallelism};

/// How many bytes the results take that workers may be ahead of what is merged, for each worker.
const BYTES_AHEAD: u64 = 1_048_576;

/// What the result of a chunk takes beside its items.
const RESULT_BYTES: u64 = 256;

/// How many chunks a worker may be ahead however large they are.
const LEAST_AHEAD: u64 = 4;

/// How many bytes an item takes: what an `Option` of it takes, but for the mark that this has beside it.
fn item_bytes<T: Copy>() -> u64 {
    let none: Option<T> = None;
    size_of_val(&none).saturating_sub(align_of_val(&none)) as u64
}

/// How many chunks a worker may be ahead, if the items of each take so many bytes.
fn chunks_ahead(item_bytes: u64) -> u64
    ensures least { 4 ≤ result }
    ensures within { 4 < result → result * (item_bytes + 256) ≤ 1048576 }
{
    let bytes = item_bytes.saturating_add(RESULT_BYTES);
    (BYTES_AHEAD / bytes).max(LEAST_AHEAD)
}

/// How many times as much as a chunk whose size a worker chooses it may be ahead, at least.
const CHUNKS_AHEAD: u64 = 8;

/// The most items of a chunk.
const MOST_ITEMS: u64 = 65_536;

/// How many items a chunk may have whose size a worker chooses, if an item takes so many bytes.
fn most_chosen(item_bytes: u64) -> u64
    ensures least { 1 ≤ result }
    ensures most { result ≤ 65536 }
    ensures within { 1 < result → result * item_bytes ≤ 131072 }
{
    (BYTES_AHEAD / CHUNKS_AHEAD / item_bytes.max(1))
        .min(MOST_ITEMS)
        .max(1)
}

/// How many items a chunk may have whose size a worker chooses by the gate's clock, or none if the growth says how large chunks are:
/// if there is no clock, or if an operator expands items. Few of these fill the time of a chunk, and many small chunks cost more.
pub(crate) fn most_by_clock<T: Copy, L, G: Gate>(gate: &G, plan: &Plan<'_, L>) -> Option<u64> {
    if gate.nanoseconds().is_none() || expands(plan.worker) || expands(plan.after) {
        return None;
    }
    Some(most_chosen(item_bytes::<T>()))
}

/// How many workers are at work at first: one for each core, since on a machine that does nothing else more only take cores from
/// one another. A gate that holds some back may need all of them.
fn at_first<G: Gate, R: Threads>(rt: &R, gate: &G) -> u64 {
    if gate.may_block() {
        return u64::MAX;
    }
    match available_parallelism(rt) {
        Ok(cores) => cores.get() as u64,
        Err(_) => u64::MAX,
    }
}

/// How many workers are at work at first, and how far they may be ahead of what is merged, if a chunk has so many items at
/// most: how many keys above it, and how many items of this type may be sent that aren't merged yet. By arrival each result is
/// merged at once, so there is no bound on keys.
pub(crate) fn progress_of<T: Copy, G: Gate, R: Threads>(
    rt: &R,
    gate: &G,
    order: Order,
    workers: u64,
    largest: u64,
) -> Progress {
    let at_first = at_first(rt, gate);
    let chunks = chunks_ahead(largest.saturating_mul(item_bytes::<T>()));
    let ahead = chunks.saturating_mul(largest);
    let most = ahead.saturating_mul(workers.min(at_first.saturating_add(at_first / 2)));
    match order {
        Order::ByKey => Progress::new(most, most, at_first),
        Order::ByArrival => Progress::new(u64::MAX, most, at_first),
    }
}
