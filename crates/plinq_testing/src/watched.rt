ghost use Rattle.std.specs.Prelude.{⊤};

use plinq_merge::Sink;
use std::sync::atomic::{AtomicU64, Ordering};

/// What came to a sink by now, for other threads to see.
#[derive(Drop)]
pub struct Seen {
    /// How many batches came, taken or not.
    pub came: AtomicU64,
    /// How many it has taken.
    pub taken: AtomicU64,
    /// How many it has refused.
    pub refused: AtomicU64,
    /// How often it was told that nothing comes.
    pub rests: AtomicU64,
    /// How many of these times came after it had refused a batch.
    pub late_rests: AtomicU64,
    /// How many batches it had taken when it was told so last.
    pub taken_by_rest: AtomicU64,
}

impl Seen {
    /// Nothing came yet.
    pub fn new() -> Seen {
        Seen {
            came: AtomicU64::new(0),
            taken: AtomicU64::new(0),
            refused: AtomicU64::new(0),
            rests: AtomicU64::new(0),
            late_rests: AtomicU64::new(0),
            taken_by_rest: AtomicU64::new(0),
        }
    }
}

/// A sink that does as another one, and shows what came to it.
#[derive(Drop)]
pub struct Watched<'a, K: Sink + Drop> {
    /// Where the batches go.
    pub sink: K,
    /// Where it shows them.
    pub seen: &'a Seen,
}

impl<'a, K: Sink + Drop> Sink for Watched<'a, K> {
    type Item = K::Item;

    ghost accepts = { λ _ _ _. ⊤ };

    ghost refuses = { λ _ _ _ _. ⊤ };

    fn batch(&mut self, items: &[K::Item]) -> Result<(), u32> {
        self.seen.came.fetch_add(1, Ordering::SeqCst);
        let told = self.sink.batch(items);
        let counted = if told.is_ok() {
            &self.seen.taken
        } else {
            &self.seen.refused
        };
        counted.fetch_add(1, Ordering::SeqCst);
        told
    }

    fn idle(&mut self) {
        let taken = self.seen.taken.load(Ordering::SeqCst);
        self.seen.taken_by_rest.store(taken, Ordering::SeqCst);
        self.seen.rests.fetch_add(1, Ordering::SeqCst);
        if self.seen.refused.load(Ordering::SeqCst) > 0 {
            self.seen.late_rests.fetch_add(1, Ordering::SeqCst);
        }
        self.sink.idle();
    }
}
