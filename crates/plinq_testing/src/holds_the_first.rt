use plinq_crew::Gate;
use std::hint::spin_loop;
use std::sync::atomic::{AtomicU64, Ordering};

/// A gate that holds key 0 back until a word is at least so much, or for a long time, and notes what it was by then.
#[derive(Drop)]
pub struct HoldsTheFirst<'a> {
    word: &'a AtomicU64,
    least: u64,
    turns: u64,
    by_then: AtomicU64,
}

impl<'a> HoldsTheFirst<'a> {
    /// It holds key 0 back for so many turns at most. These spin: if other threads have work, a turn that yields takes long.
    pub fn until(word: &'a AtomicU64, least: u64, turns: u64) -> HoldsTheFirst<'a> {
        HoldsTheFirst {
            word,
            least,
            turns,
            by_then: AtomicU64::new(0),
        }
    }

    /// What the word was when key 0 was let go; 0 before.
    pub fn by_then(&self) -> u64 {
        self.by_then.load(Ordering::SeqCst)
    }
}

impl<'a> Gate for HoldsTheFirst<'a> {
    fn before_take(&self, _: u64) {}

    fn after_chunk(&self, _: u64, first: u64) {
        if first > 0 {
            return;
        }
        for _turn in 0..self.turns {
            if self.word.load(Ordering::SeqCst) >= self.least {
                break;
            }
            spin_loop();
        }
        let word = self.word.load(Ordering::SeqCst);
        self.by_then.store(word, Ordering::SeqCst);
    }
}
