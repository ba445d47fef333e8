use plinq_source::{Source, Step};
use std::sync::atomic::{AtomicU64, Ordering};

/// A source that counts how often another one is asked.
#[derive(Drop)]
pub struct Asked<'a, S: Source> {
    /// Which is asked.
    pub source: S,
    /// How often it was.
    pub times: &'a AtomicU64,
}

impl<'a, S: Source> Source for Asked<'a, S> {
    type Item = S::Item;

    ghost whole = { λ s. S.whole s.source };

    ghost given = { λ s. S.given s.source };

    ghost few = { λ s. S.few s.source };

    ghost ends = { λ s. S.ends s.source };

    ghost within = { λ s. S.within s.source };

    fn next(&mut self) -> Step<S::Item> {
        self.times.fetch_add(1, Ordering::SeqCst);
        self.source.next()
    }
}
