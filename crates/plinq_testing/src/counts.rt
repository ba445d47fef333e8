use plinq_crew::Gate;
use std::sync::atomic::{AtomicU64, Ordering};

/// What workers have done by now.
#[derive(Drop)]
pub struct Passed {
    /// How often one was about to take.
    pub about: AtomicU64,
    /// How many chunks were taken.
    pub taken: AtomicU64,
    /// How many of these begin with a key below `below`.
    pub taken_below: AtomicU64,
    below: u64,
    /// The greatest key with which one of these begins.
    pub last: AtomicU64,
    /// All bits that these keys have.
    pub bits: AtomicU64,
}

impl Passed {
    /// Nothing yet.
    pub fn new() -> Passed {
        Passed::counting_below(0)
    }

    /// Nothing yet. Chunks that begin with a key below this one are counted apart.
    pub fn counting_below(below: u64) -> Passed {
        Passed {
            about: AtomicU64::new(0),
            taken: AtomicU64::new(0),
            taken_below: AtomicU64::new(0),
            below,
            last: AtomicU64::new(0),
            bits: AtomicU64::new(0),
        }
    }
}

/// A gate that counts those that pass, who go on to another gate. Whatever that says, all workers are at work at once (`may_block`).
#[derive(Drop)]
pub struct Counts<'a, G: Gate + Drop> {
    /// Where they are counted.
    pub passed: &'a Passed,
    /// Where they go on.
    pub gate: G,
}

impl<'a, G: Gate + Drop> Gate for Counts<'a, G> {
    fn before_take(&self, worker: u64) {
        self.passed.about.fetch_add(1, Ordering::SeqCst);
        self.gate.before_take(worker);
    }

    fn after_chunk(&self, worker: u64, first: u64) {
        self.passed.last.fetch_max(first, Ordering::SeqCst);
        self.passed.bits.fetch_or(first, Ordering::SeqCst);
        if first < self.passed.below {
            self.passed.taken_below.fetch_add(1, Ordering::SeqCst);
        }
        self.passed.taken.fetch_add(1, Ordering::SeqCst);
        self.gate.after_chunk(worker, first);
    }
}
