//! How far workers run ahead of what is merged if an item takes 128 bytes.
ghost use Rattle.std.specs.Prelude.{⊤, Ok, Err, true};

use crate::items_ahead::taken_at_last;
use plinq_crew::Gate;
use plinq_enumerator::Growth;
use plinq_lambda::{ExpandFault, Lambda};
use plinq_merge::Sink;
use plinq_ops::{BuildFault, MergeOption, Query};
use plinq_run::run;
use plinq_source::{Ending, ListSource};
use plinq_testing::{CHUNK, unchanged};
use std::alloc::Global;
use std::sync::Wait;
use std::sync::atomic::{AtomicU64, Ordering};
use std::test::*;
use std::thread::{Threads, available_parallelism};

/// How many items there are: 390 chunks.
const ITEMS: usize = 200_000;

/// How many chunks a worker may be ahead: so many of 512 times 128 bytes and 256 more fill 1,048,576 bytes.
const CHUNKS_AHEAD: u64 = 15;

#[derive(Clone, Copy)]
struct Wide {
    numbers: [u64; 16],
}

/// A lambda that leaves each item as it is, and expands none.
#[derive(Clone, Copy)]
struct Same;

impl Lambda for Same {
    type Item = Wide;

    ghost meaning = { λ _. record { map = λ x. Ok x; test = λ _. Ok true; expand = λ _. Err 1 } };

    ghost short = { λ _ _. tt };

    fn map(&self, x: Wide) -> Result<Wide, u32> {
        Ok(x)
    }

    fn test(&self, _: Wide) -> Result<bool, u32> {
        Ok(true)
    }

    fn expand(&self, _: Global, _: Wide) -> Result<Vec<Wide>, ExpandFault> {
        Err(ExpandFault::Code(1))
    }
}

/// Counts the chunks that are taken, and holds nobody back.
#[derive(Drop)]
struct Taken {
    chunks: AtomicU64,
}

impl Gate for Taken {
    fn before_take(&self, _worker: u64) {}

    fn after_chunk(&self, _worker: u64, _first: u64) {
        self.chunks.fetch_add(1, Ordering::SeqCst);
    }

    fn may_block(&self) -> bool {
        false
    }
}

/// A sink that is held with its first batch for as long as chunks are taken.
#[derive(Drop)]
struct HeldAtFirst<'a> {
    taken: &'a AtomicU64,
    taken_by_then: u64,
    count: u64,
}

impl<'a> Sink for HeldAtFirst<'a> {
    type Item = Wide;

    ghost accepts = { λ _ _ _. ⊤ };

    ghost refuses = { λ _ _ _ _. ⊤ };

    fn batch(&mut self, items: &[Wide]) -> Result<(), u32> {
        if self.count == 0 {
            self.taken_by_then = taken_at_last(self.taken, 1);
        }
        self.count = self.count.wrapping_add(items.len() as u64);
        Ok(())
    }
}

/// How many chunks workers may be ahead, with the one that each may take more: no more workers count than half more than there
/// are cores.
fn most_ahead(workers: u64, cores: u64) -> u64 {
    let counted = workers.min(cores.saturating_add(cores / 2));
    counted.saturating_mul(CHUNKS_AHEAD).saturating_add(workers)
}

/// Whether workers wait while the first batch is held, and all items come.
fn wait<R: Threads + Wait + Sync>(
    rt: &R,
    alloc: Global,
    workers: u64,
    by_key: bool,
    growth: Growth,
) -> bool {
    let query: Result<Query<Same>, BuildFault> = unchanged(
        alloc,
        by_key,
        MergeOption::AutoBuffered,
        workers,
    );
    let (Ok(query), Ok(cores)) = (query, available_parallelism(rt)) else {
        return false;
    };
    let Ok(items) = vec![in alloc; Wide { numbers: [7; 16] }; ITEMS] else {
        return false;
    };
    let taken = Taken {
        chunks: AtomicU64::new(0),
    };
    let mut sink = HeldAtFirst {
        taken: &taken.chunks,
        taken_by_then: 0,
        count: 0,
    };
    let source = ListSource::new(alloc, items);
    let ended_well = match run(rt, alloc, &query, source, growth, &taken, &mut sink) {
        Ok(report) => report.ending == Ending::End,
        Err(_) => false,
    };
    let most = most_ahead(workers, cores.get() as u64);
    ended_well
        && sink.count == ITEMS as u64
        && 1 <= sink.taken_by_then
        && sink.taken_by_then <= most
}

#[test]
fn workers_wait_by_the_bytes_of_their_items(rt: HostRuntime) -> Result<(), Fail> {
    let growth = Growth::new(CHUNK, 1, CHUNK)?;
    for workers in [1u64, 8, 64] {
        for by_key in [true, false] {
            assert!(rt;
                wait(&rt, rt.alloc(), workers, by_key, growth),
                "{workers} {by_key}"
            );
        }
    }
    Ok(())
}
