use std::sync::atomic::{AtomicBool, AtomicU64, Ordering};

/// For each so many results that the caller's thread lacked, as many workers may be at work as there are cores.
const LACKS: u64 = 32;

/// So many results of the first worker show that the run isn't a short one.
const MANY: u64 = 32;

/// How many workers are wanted at once: one at first, as many as there are cores if there is more to do than one does at
/// once, and still more the longer the caller's thread mostly waits for them.
#[derive(Drop)]
pub(crate) struct RampUp {
    at_once: AtomicU64,
    /// How many are wanted before the caller's thread has waited for long.
    at_first: u64,
    /// Whether a worker has taken a chunk after which more may come.
    has_begun: AtomicBool,
    /// How many results were sent, and how often the caller's thread was about to sleep since there was none.
    results: AtomicU64,
    lacks: AtomicU64,
}

impl RampUp {
    /// If this is the greatest number, all are wanted from the start.
    pub(crate) fn new(at_first: u64) -> RampUp {
        RampUp {
            at_once: AtomicU64::new(if at_first == u64::MAX { u64::MAX } else { 1 }),
            at_first,
            has_begun: AtomicBool::new(false),
            results: AtomicU64::new(0),
            lacks: AtomicU64::new(0),
        }
    }

    /// A result is about to be sent.
    pub(crate) fn count_in(&self) {
        self.results.fetch_add(1, Ordering::SeqCst);
    }

    /// A worker has taken a chunk after which more may come: says whether it is the first.
    pub(crate) fn note_begun(&self) -> bool {
        if self.has_begun.load(Ordering::SeqCst) {
            return false;
        }
        self.has_begun.store(true, Ordering::SeqCst);
        true
    }

    /// How many are wanted by now.
    pub(crate) fn wanted(&self) -> u64 {
        let at_once = self.at_once.load(Ordering::SeqCst);
        if at_once < self.at_first && self.results.load(Ordering::SeqCst) >= MANY {
            self.at_once.store(self.at_first, Ordering::SeqCst);
            return self.at_first;
        }
        at_once
    }

    /// The caller's thread lacks a result. If the first worker has begun, as many are wanted as there are cores. If that is
    /// so for every second result, workers are what it waits for, and more of them are wanted: a busy machine shares its cores
    /// out by threads.
    pub(crate) fn note_starved(&self) {
        let at_once = self.at_once.load(Ordering::SeqCst);
        if at_once < self.at_first {
            if self.has_begun.load(Ordering::SeqCst) {
                self.at_once.store(self.at_first, Ordering::SeqCst);
            }
            return;
        }
        let lacks = self.lacks.fetch_add(1, Ordering::SeqCst);
        if lacks.saturating_mul(2) < self.results.load(Ordering::SeqCst) {
            return;
        }
        let wanted = self.at_first.saturating_mul(lacks / LACKS);
        if wanted > at_once && wanted >= at_once.saturating_add(at_once.div_ceil(2)) {
            self.at_once.store(wanted, Ordering::SeqCst);
        }
    }
}
