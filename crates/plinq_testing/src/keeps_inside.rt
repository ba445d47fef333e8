use crate::waiting::{lingers, waits_for};
use plinq_source::{Source, Step};
use std::sync::atomic::{AtomicBool, AtomicU64, Ordering};

/// What a source that keeps whoever asks inside shows other threads.
#[derive(Drop)]
pub struct Inside {
    /// 1 once one is kept inside.
    pub came: AtomicU64,
    has_given_up: AtomicBool,
}

impl Inside {
    /// Nobody is inside yet.
    pub fn new() -> Inside {
        Inside {
            came: AtomicU64::new(0),
            has_given_up: AtomicBool::new(false),
        }
    }

    /// Keeps one inside until this word is at least 1, or for a long time, and a while longer.
    fn keep(&self, word: &AtomicU64) {
        self.came.store(1, Ordering::SeqCst);
        if !waits_for(word, 1) {
            self.has_given_up.store(true, Ordering::SeqCst);
        }
        lingers();
    }

    /// Whether one was let go only after a long time.
    pub fn gave_up(&self) -> bool {
        self.has_given_up.load(Ordering::SeqCst)
    }
}

/// Numbers of another source, of which one comes late: whoever asks for it is kept inside, and the lock with it, until a word is at
/// least 1, or for a long time, and a while longer.
#[derive(Drop)]
pub struct KeepsInside<'a, S: Source<Item = i64>> {
    /// Which gives the numbers.
    pub source: S,
    /// The one that comes late.
    pub late: i64,
    /// Who is inside stays until this is at least 1.
    pub word: &'a AtomicU64,
    /// Where it shows who is inside.
    pub inside: &'a Inside,
}

impl<'a, S: Source<Item = i64>> Source for KeepsInside<'a, S> {
    type Item = i64;

    ghost whole = { λ s. S.whole s.source };

    ghost given = { λ s. S.given s.source };

    ghost few = { λ s. S.few s.source };

    ghost ends = { λ s. S.ends s.source };

    ghost within = { λ s. S.within s.source };

    fn next(&mut self) -> Step<i64> {
        let step = self.source.next();
        if let Step::Item(number) = step {
            if number == self.late {
                self.inside.keep(self.word);
            }
        }
        step
    }
}
