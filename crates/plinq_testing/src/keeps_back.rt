use crate::waiting::{lingers, waits_for};
use plinq_crew::Gate;
use std::sync::atomic::{AtomicBool, AtomicU64, Ordering};

/// Whose chunks are kept back, by the key with which each begins.
#[derive(Clone, Copy)]
enum Keys {
    One(u64),
    Below(u64),
    AllButFirst,
}

impl Keys {
    fn has(self, first: u64) -> bool {
        match self {
            Keys::One(key) => first == key,
            Keys::Below(end) => first < end,
            Keys::AllButFirst => first > 0,
        }
    }
}

/// A gate that keeps the workers back which have taken chunks with some keys, until a word is at least so much, or for a long time.
#[derive(Drop)]
pub struct KeepsBack<'a> {
    keys: Keys,
    word: &'a AtomicU64,
    least: u64,
    has_given_up: AtomicBool,
}

impl<'a> KeepsBack<'a> {
    /// It keeps back the worker whose chunk begins with this key, and then a while longer.
    pub fn at(key: u64, word: &'a AtomicU64, least: u64) -> KeepsBack<'a> {
        KeepsBack::new(Keys::One(key), word, least)
    }

    /// It keeps back each whose chunk begins with a key below this one.
    pub fn below(end: u64, word: &'a AtomicU64, least: u64) -> KeepsBack<'a> {
        KeepsBack::new(Keys::Below(end), word, least)
    }

    /// It keeps back each but the one that has key 0.
    pub fn all_but_first(word: &'a AtomicU64, least: u64) -> KeepsBack<'a> {
        KeepsBack::new(Keys::AllButFirst, word, least)
    }

    fn new(keys: Keys, word: &'a AtomicU64, least: u64) -> KeepsBack<'a> {
        KeepsBack {
            keys,
            word,
            least,
            has_given_up: AtomicBool::new(false),
        }
    }

    /// Whether the word was still less after a long time.
    pub fn gave_up(&self) -> bool {
        self.has_given_up.load(Ordering::SeqCst)
    }
}

impl<'a> Gate for KeepsBack<'a> {
    fn before_take(&self, _: u64) {}

    fn after_chunk(&self, _: u64, first: u64) {
        if !self.keys.has(first) {
            return;
        }
        if !waits_for(self.word, self.least) {
            self.has_given_up.store(true, Ordering::SeqCst);
        }
        if let Keys::One(_) = self.keys {
            lingers();
        }
    }
}
