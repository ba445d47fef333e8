use crate::ramp_up::RampUp;
use crate::window::Window;
use crossbeam_utils::sync::Key;
use plinq_wait::WaitQueue;
use std::sync::atomic::{AtomicBool, AtomicU64, Ordering};

/// How far the threads of a run are. It only tells the caller's thread when to sleep and when to join the workers, and the
/// workers when to wait and when to go on; and how many workers are wanted. No answer rests on it.
#[derive(Drop)]
pub struct Progress {
    pub(crate) window: Window,
    ramp_up: RampUp,
    ended: AtomicU64,
    failed: AtomicBool,
    /// What the caller's thread sleeps on.
    news: WaitQueue,
}

impl Progress {
    /// Nothing is merged yet, and workers may be so many keys above it, and so many items. One of them is wanted at first, and so
    /// many if there is more to do than one does at once; still more the longer the caller's thread mostly waits for them.
    /// If that is the greatest number, all are wanted from the start.
    pub fn new(keys: u64, items: u64, at_first: u64) -> Progress {
        Progress {
            window: Window::new(keys, items),
            ramp_up: RampUp::new(at_first),
            ended: AtomicU64::new(0),
            failed: AtomicBool::new(false),
            news: WaitQueue::new(),
        }
    }

    /// A result with so many items is about to be sent.
    pub(crate) fn count_in(&self, items: u64) {
        self.window.count_in(items);
        self.ramp_up.count_in();
    }

    /// A worker has taken a chunk. The first after which more may come is reported, since another worker may be wanted then.
    pub(crate) fn note_taken(&self, is_last: bool) {
        if !is_last && self.ramp_up.note_begun() {
            self.tell();
        }
    }

    /// How many workers are wanted by now. Once one has ended no more are: the source has nothing more, or the run is over.
    pub(crate) fn wanted(&self) -> u64 {
        if self.ended.load(Ordering::SeqCst) > 0 {
            return 0;
        }
        self.ramp_up.wanted()
    }

    /// A worker has ended.
    pub(crate) fn end(&self) {
        self.ended.fetch_add(1, Ordering::SeqCst);
        self.tell();
    }

    /// A worker ends before it has seen a tail.
    pub(crate) fn fail(&self) {
        self.failed.store(true, Ordering::SeqCst);
        self.tell();
    }

    /// Wakes the caller's thread, since a result was sent, or a worker has ended or failed.
    pub(crate) fn tell(&self) {
        self.news.wake();
    }

    /// Says that the caller's thread is about to sleep. What is reported from now on ends its sleep, so whatever it waits for
    /// is to be looked at once more before it does.
    pub(crate) fn announce_sleep(&self) -> Key<'_> {
        self.ramp_up.note_starved();
        self.news.announce()
    }

    /// Whether so many workers have ended.
    pub(crate) fn have_ended(&self, workers: u64) -> bool {
        self.ended.load(Ordering::SeqCst) >= workers
    }

    /// Whether a worker has failed.
    pub(crate) fn has_failed(&self) -> bool {
        self.failed.load(Ordering::SeqCst)
    }
}
