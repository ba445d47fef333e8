use crate::patience::Patience;
use crate::wait_queue::WaitQueue;
use crossbeam_utils::sync::{EventCount, Key};
use std::cell::Cell;
use std::sync::Wait;

/// A thread that waits. It looks for what it waits for between [`Waiter::prepare`] and [`Waiter::pause`].
pub struct Waiter<'a> {
    queue: &'a WaitQueue,
    sleepers: &'a EventCount,
    patience: Patience,
    /// Whether it has announced a sleep, and may have been woken: if it goes on, it has the next one woken in its place.
    has_announced: Cell<bool>,
}

impl<'a> Waiter<'a> {
    pub(crate) fn new(queue: &'a WaitQueue, sleepers: &'a EventCount) -> Waiter<'a> {
        Waiter {
            queue,
            sleepers,
            patience: Patience::new(),
            has_announced: Cell::new(false),
        }
    }

    /// Before a look: if it has looked often enough, it announces its sleep.
    pub fn prepare(&self) -> Option<Key<'a>> {
        if !self.patience.is_over() {
            return None;
        }
        self.has_announced.set(true);
        Some(self.queue.watch(self.sleepers))
    }

    /// After a look in vain: spins for a moment, or sleeps if that was announced.
    pub fn pause<R: Wait>(&self, rt: &R, sleep: Option<Key<'_>>) {
        match sleep {
            Some(sleep) => {
                sleep.wait(rt);
                self.patience.reset();
            }
            None => self.patience.spin(),
        }
    }
}

impl Drop for Waiter<'_> {
    fn drop(self) {
        let has_announced = self.has_announced.get();
        let Self {
            queue,
            sleepers: _,
            patience: _,
            has_announced: _,
        } = self;
        if has_announced {
            queue.wake_next();
        }
    }
}
