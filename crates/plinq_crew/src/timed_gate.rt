use crate::gate::Gate;
use std::time::Clock;

/// A gate that lets every worker pass and has a clock, so that workers choose how large their chunks are.
///
/// A worker begins with a chunk of one item. It doubles its chunk while one takes less than 25 microseconds, 50 from 32 workers
/// on, and halves it if one took more than four times that. So chunks of cheap items grow to what the lock is worth, and those of
/// heavy items stay small. A chunk has 65,536 items at most, and no more than an eighth of what a worker may be ahead. If an
/// operator of the query expands its items, chunks are as large as the growth says.
///
/// ```text
/// let report = run(&rt, alloc, &query, source, Growth::DEFAULT, &TimedGate::new(&rt), &mut sink)?;
/// ```
#[derive(Drop)]
pub struct TimedGate<'a, C> {
    clock: Option<&'a C>,
}

impl<'a, C> TimedGate<'a, C> {
    /// One by this clock.
    pub fn new(clock: &'a C) -> TimedGate<'a, C> {
        TimedGate { clock: Some(clock) }
    }

    /// One without a clock, by which chunks are as large as the growth says.
    pub fn untimed() -> TimedGate<'a, C> {
        TimedGate { clock: None }
    }
}

impl<'a, C: Clock + Sync> Gate for TimedGate<'a, C> {
    fn before_take(&self, _worker: u64) {}

    fn after_chunk(&self, _worker: u64, _first: u64) {}

    fn may_block(&self) -> bool {
        false
    }

    fn nanoseconds(&self) -> Option<u64> {
        match self.clock {
            Some(clock) => nanoseconds_of(clock),
            None => None,
        }
    }
}

/// What a clock says, as far as it says anything.
fn nanoseconds_of<C: Clock>(clock: &C) -> Option<u64> {
    match clock.monotonic() {
        Ok(time) => u64::try_from(time.as_nanos()).ok(),
        Err(_) => None,
    }
}
