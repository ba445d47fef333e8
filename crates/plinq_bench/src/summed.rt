ghost use Rattle.std.specs.Prelude.{◌≡◌};
ghost use Rattle.std.specs.List.{fold};
ghost use Rattle.plinq_bench.specs.Spinning.{mix};

use crate::spinning::mix_all;
use plinq_merge::Sink;
use std::time::{Clock, Duration, Instant};

/// A sink that sums up what it takes, and notes when the first batch came.
#[derive(Drop)]
pub(crate) struct Summed<'a, C: Clock> {
    clock: &'a C,
    start: Instant,
    pub(crate) first: Option<Duration>,
    pub(crate) sum: u64,
}

impl<'a, C: Clock> Summed<'a, C> {
    pub(crate) fn new(clock: &'a C, start: Instant) -> Summed<'a, C> {
        Summed {
            clock,
            start,
            first: None,
            sum: 0,
        }
    }
}

impl<'a, C: Clock> Sink for Summed<'a, C> {
    type Item = i64;

    ghost accepts = { λ s batch s'. s'.sum ≡ fold mix s.sum batch };

    ghost refuses = { λ _ _ _ _. ⊥ };

    fn batch(&mut self, items: &[i64]) -> Result<(), u32> {
        if self.first.is_none() {
            self.first = self.start.elapsed(self.clock).ok();
        }
        self.sum = mix_all(self.sum, items);
        Ok(())
    }
}
