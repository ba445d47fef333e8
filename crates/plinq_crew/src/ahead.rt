use std::sync::atomic::{AtomicU64, Ordering};

/// How far workers may be ahead of what is merged: of keys, or of items.
#[derive(Drop)]
pub(crate) struct Ahead {
    most: u64,
    /// A worker that stands above this place waits.
    bound: AtomicU64,
    /// The bound when those that sleep were last woken.
    woken: AtomicU64,
}

impl Ahead {
    /// Nothing is merged yet, and a worker may be so far ahead.
    pub(crate) fn new(most: u64) -> Ahead {
        Ahead {
            most,
            bound: AtomicU64::new(most),
            woken: AtomicU64::new(most),
        }
    }

    /// All up to this place is merged, or, if it is the greatest number, nothing more is wanted. Says whether those that sleep
    /// are to be woken. They are once an eighth of what a worker may be ahead was merged since the last time, and not by each
    /// result: one that looks finds the bound as it is, and what is sent is merged, so that none sleeps on for good.
    pub(crate) fn move_to(&self, place: u64) -> bool {
        let bound = place.saturating_add(self.most);
        self.bound.store(bound, Ordering::SeqCst);
        let last = self.woken.load(Ordering::SeqCst);
        let is_far = bound == u64::MAX || bound.saturating_sub(last) >= self.most / 8;
        let wakes = is_far && bound != last;
        if wakes {
            self.woken.store(bound, Ordering::SeqCst);
        }
        wakes
    }

    /// Whether a worker at this place may go on.
    pub(crate) fn lets_on(&self, place: u64) -> bool {
        place <= self.bound.load(Ordering::SeqCst)
    }

    /// Whether all workers may go on, wherever they stand.
    pub(crate) fn is_open(&self) -> bool {
        self.bound.load(Ordering::SeqCst) == u64::MAX
    }
}
