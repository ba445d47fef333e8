ghost use Rattle.std.specs.Prelude.{◌≤◌};

/// The most items of a chunk.
const MOST: u64 = 65_536;

/// A chunk that takes less than so many nanoseconds is followed by one of twice as many items.
const BRIEF: u64 = 25_000;

/// From so many workers on a chunk may take twice as long, or they would ask more often than the lock lets them in.
const MANY_WORKERS: u64 = 32;

/// How large a worker's chunks are by a clock: how many items the next one has, and what is brief.
#[derive(Drop)]
pub(crate) struct Pace {
    size: u64,
    brief: u64,
}

impl Pace {
    /// That of a worker that has taken nothing, among so many.
    pub(crate) fn new(workers: u64) -> Pace {
        let brief = if workers < MANY_WORKERS {
            BRIEF
        } else {
            2 * BRIEF
        };
        Pace { size: 1, brief }
    }

    /// How many items the next chunk has, of which it may have so many.
    pub(crate) fn size(&self, largest: u64) -> u64
        ensures least { 1 ≤ result }
        ensures most { result ≤ 65536 }
    {
        self.size.min(largest).min(MOST).max(1)
    }

    /// Chooses the next size after a chunk of so many items, by the times when it was asked for and when its result was there.
    pub(crate) fn note(&mut self, items: u64, began: Option<u64>, ended: Option<u64>) {
        if let (Some(start), Some(end)) = (began, ended) {
            let took = end.saturating_sub(start);
            self.size = next_size(items, took, self.brief);
        }
    }
}

/// Twice as many items after a brief chunk, and half as many after one that took more than four times as long as that.
fn next_size(items: u64, took: u64, brief: u64) -> u64 {
    if took < brief {
        return items.saturating_mul(2);
    }
    if took / 4 > brief {
        return items / 2;
    }
    items
}
