use crate::waiter::Waiter;
use crossbeam_utils::sync::{EventCount, Key};
use std::sync::atomic::{AtomicBool, Ordering};

/// Those that wait for one thing that others change: a lock that is left, a queue that gets room, a bound that is raised.
///
/// As in Linux's wait queues, a change wakes all waiters, and one of the exclusive ones, of which only one could go on. One
/// that was woken looks for a while before it sleeps again, and until it does, or goes on, a change wakes nobody else. So many
/// changes cost little more than one.
///
/// ```text
/// let waiter = queue.waiter();
/// for _ in rt.forever() {
///     let sleep = waiter.prepare();    // before the look, so that no change is missed
///     if is_there() {
///         return;
///     }
///     waiter.pause(rt, sleep);
/// }
/// ```
#[derive(Drop)]
pub struct WaitQueue {
    /// Whether somebody sleeps, or is about to, and wasn't woken since.
    is_watched: AtomicBool,
    shared: EventCount,
    exclusive: EventCount,
}

impl WaitQueue {
    /// Nobody waits.
    pub fn new() -> WaitQueue {
        WaitQueue {
            is_watched: AtomicBool::new(false),
            shared: EventCount::new(),
            exclusive: EventCount::new(),
        }
    }

    /// A thread that waits, and is woken by each change.
    pub fn waiter(&self) -> Waiter<'_> {
        Waiter::new(self, &self.shared)
    }

    /// A thread that waits where one at a time can go on, and is woken when it is its turn.
    pub fn exclusive_waiter(&self) -> Waiter<'_> {
        Waiter::new(self, &self.exclusive)
    }

    /// Something has changed: wakes all waiters, and one exclusive waiter. If nobody sleeps it is one load.
    pub fn wake(&self) {
        if self.is_watched.load(Ordering::SeqCst) {
            self.is_watched.store(false, Ordering::SeqCst);
            self.shared.notify_all();
            self.exclusive.notify_one();
        }
    }

    /// Something has changed that lets many go on: wakes all waiters, the exclusive ones as well, unless they were woken and none
    /// has announced a sleep since. If nobody sleeps it is one load.
    pub fn wake_each(&self) {
        if self.is_watched.load(Ordering::SeqCst) {
            self.is_watched.store(false, Ordering::SeqCst);
            self.wake_all();
        }
    }

    /// Something has changed for good: wakes all waiters, the exclusive ones as well.
    pub fn wake_all(&self) {
        self.shared.notify_all();
        self.exclusive.notify_all();
    }

    /// Says that a thread is about to sleep as one that each change wakes. A change from now on ends its sleep, so whatever it
    /// waits for is to be looked at once more before it does.
    pub fn announce(&self) -> Key<'_> {
        self.watch(&self.shared)
    }

    /// The next change is to wake somebody, if anybody sleeps.
    pub(crate) fn wake_next(&self) {
        self.is_watched.store(true, Ordering::SeqCst);
    }

    /// Announces a sleep.
    pub(crate) fn watch<'a>(&'a self, sleepers: &'a EventCount) -> Key<'a> {
        let sleep = sleepers.prepare_wait();
        self.wake_next();
        sleep
    }
}
