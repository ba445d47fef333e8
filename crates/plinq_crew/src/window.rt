use crate::ahead::Ahead;
use plinq_wait::WaitQueue;
use std::sync::Wait;
use std::sync::atomic::{AtomicBool, AtomicU64, Ordering};

/// How far workers may be ahead of what is merged: by so many keys, and by so many items that were sent and aren't merged yet.
#[derive(Drop)]
pub(crate) struct Window {
    keys: Ahead,
    items: Ahead,
    sent: AtomicU64,
    /// Whether a result was made that decides the answer, so that no chunk more is of use.
    is_enough: AtomicBool,
    /// What the workers sleep on that are too far ahead.
    merged: WaitQueue,
}

impl Window {
    /// Nothing is merged yet.
    pub(crate) fn new(keys: u64, items: u64) -> Window {
        Window {
            keys: Ahead::new(keys),
            items: Ahead::new(items),
            sent: AtomicU64::new(0),
            is_enough: AtomicBool::new(false),
            merged: WaitQueue::new(),
        }
    }

    /// All keys below this one are merged, and so many items; if they are the greatest numbers, nothing more is wanted.
    pub(crate) fn move_to(&self, key: u64, items: u64) {
        let is_raised = self.keys.move_to(key);
        if self.items.move_to(items) || is_raised {
            self.merged.wake();
        }
    }

    /// Nothing more is wanted: no worker waits from now on.
    pub(crate) fn let_all_on(&self) {
        self.move_to(u64::MAX, u64::MAX);
    }

    /// So many items are about to be sent.
    pub(crate) fn count_in(&self, items: u64) {
        self.sent.fetch_add(items, Ordering::SeqCst);
    }

    /// A result was made that decides the answer once all before it is merged: workers wait from now on until all are let on.
    pub(crate) fn hold_all(&self) {
        self.is_enough.store(true, Ordering::SeqCst);
    }

    /// Whether a worker that stands at this key may go on.
    fn lets_on(&self, key: u64) -> bool {
        let is_enough = self.is_enough.load(Ordering::SeqCst);
        let is_within = self.keys.lets_on(key)
            && self.items.lets_on(self.sent.load(Ordering::SeqCst));
        if is_enough {
            self.items.is_open()
        } else {
            is_within
        }
    }

    /// Waits while a worker stands so far above what is merged that it may not take more, while too many items wait to be
    /// merged, or while the answer is about to be decided. If that takes long, it sleeps.
    pub(crate) fn wait_until_within<R: Wait>(&self, rt: &R, key: u64) {
        let waiter = self.merged.waiter();
        for _ in rt.forever() {
            let sleep = waiter.prepare();
            if self.lets_on(key) {
                return;
            }
            waiter.pause(rt, sleep);
        }
    }
}
