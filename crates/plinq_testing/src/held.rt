ghost use Rattle.std.specs.Prelude.{⊤};

use crate::waiting::{lingers, waits_for};
use plinq_merge::Sink;
use std::sync::atomic::AtomicU64;

/// A sink that is held with one of its batches until a word is at least so much, or for a long time, and a while longer. Each batch
/// goes on to another sink.
#[derive(Drop)]
pub struct Held<'a, K: Sink + Drop> {
    /// Where the batches go.
    pub sink: K,
    /// Whether the word was still less after a long time.
    pub gave_up: bool,
    /// How many batches are to come before that one.
    before: u64,
    word: &'a AtomicU64,
    least: u64,
}

impl<'a, K: Sink + Drop> Held<'a, K> {
    /// It is held with batch number `number`, from 0 on.
    pub fn at(number: u64, word: &'a AtomicU64, least: u64, sink: K) -> Held<'a, K> {
        Held {
            sink,
            gave_up: false,
            before: number,
            word,
            least,
        }
    }
}

impl<'a, K: Sink + Drop> Sink for Held<'a, K> {
    type Item = K::Item;

    ghost accepts = { λ _ _ _. ⊤ };

    ghost refuses = { λ _ _ _ _. ⊤ };

    fn batch(&mut self, items: &[K::Item]) -> Result<(), u32> {
        if self.before == 0 {
            self.gave_up = !waits_for(self.word, self.least);
            lingers();
        }
        self.before = self.before.wrapping_sub(1);
        self.sink.batch(items)
    }

    fn idle(&mut self) {
        self.sink.idle();
    }
}
