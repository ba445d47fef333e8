use crossbeam_utils::Backoff;
use std::hint::spin_loop;
use std::sync::atomic::{AtomicU64, Ordering};
use std::thread::yield_now;

/// Waits until a word is at least so much, and says whether it ever was.
pub fn waits_for(word: &AtomicU64, least: u64) -> bool {
    let backoff = Backoff::new();
    for _turn in 0..10_000_000 {
        if word.load(Ordering::SeqCst) >= least {
            return true;
        }
        backoff.snooze();
    }
    false
}

/// Waits a while, in which other threads that have nothing to do fall asleep. Few turns yield: on processors that are busy, each
/// of these takes as long as another thread's turn.
pub fn lingers() {
    for turn in 0..100_000 {
        if turn % 1_000 == 0 {
            yield_now();
        } else {
            spin_loop();
        }
    }
}
