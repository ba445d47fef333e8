use plinq_source::{Ending, Source, Step};
use std::sync::atomic::{AtomicU64, Ordering};

/// A source that counts how many chunks another one is asked for.
#[derive(Drop)]
pub struct InChunks<'a, S: Source> {
    pub source: S,
    pub chunks: &'a AtomicU64,
}

impl<'a, S: Source> Source for InChunks<'a, S> {
    type Item = S::Item;

    ghost whole = { λ s. S.whole s.source };

    ghost given = { λ s. S.given s.source };

    ghost few = { λ s. S.few s.source };

    ghost ends = { λ s. S.ends s.source };

    ghost within = { λ s. S.within s.source };

    fn next(&mut self) -> Step<S::Item> {
        self.source.next()
    }

    fn fill(&mut self, items: &mut Vec<S::Item>, n: u64) -> Option<Ending> {
        self.chunks.fetch_add(1, Ordering::SeqCst);
        self.source.fill(items, n)
    }
}
