use crossbeam_utils::Backoff;
use std::cell::Cell;

/// So often a thread looks again before it sleeps.
const LOOKS: u32 = 11;

/// How often a thread that waits looks again before it sleeps.
///
/// Between two looks it spins as [`Backoff`] does, for some microseconds in all, and never yields. On a busy machine a thread
/// that yields may lose its core for milliseconds, while one that sleeps is back soon after it was woken.
#[derive(Drop)]
pub struct Patience {
    backoff: Backoff,
    looks: Cell<u32>,
}

impl Patience {
    pub fn new() -> Patience {
        Patience {
            backoff: Backoff::new(),
            looks: Cell::new(0),
        }
    }

    /// It has looked often enough.
    pub fn is_over(&self) -> bool {
        self.looks.get() >= LOOKS
    }

    /// After a look in vain.
    pub fn spin(&self) {
        self.looks.set(self.looks.get().saturating_add(1));
        self.backoff.spin();
    }

    /// What it waited for was there, or it has slept: it looks as often as at first.
    pub fn reset(&self) {
        self.looks.set(0);
        self.backoff.reset();
    }
}
