ghost use Rattle.std.specs.Prelude.{⊤};

use plinq_merge::Sink;
use std::alloc::Global;

/// A sink that keeps its batches, and refuses all from one on with 9. If there is no room for a batch, it refuses that with 1,000.
#[derive(Drop)]
pub struct Taken<T: Copy> {
    alloc: Global,
    /// The batches that it has taken, in their order.
    pub batches: Vec<Vec<T>>,
    refused: usize,
}

impl<T: Copy> Taken<T> {
    /// It has no batch yet, and takes so many. (`usize::MAX`: it refuses none.)
    pub fn new(alloc: Global, refused: usize) -> Taken<T> {
        Taken {
            alloc,
            batches: Vec::new(alloc),
            refused,
        }
    }
}

impl<T: Copy> Sink for Taken<T> {
    type Item = T;

    ghost accepts = { λ _ _ _. ⊤ };

    ghost refuses = { λ _ _ _ _. ⊤ };

    fn batch(&mut self, items: &[T]) -> Result<(), u32> {
        if self.batches.len() == self.refused {
            return Err(9);
        }
        match Vec::from_slice(self.alloc, items) {
            Ok(batch) => match self.batches.push(batch) {
                Ok(()) => Ok(()),
                Err(_) => Err(1_000),
            },
            Err(_) => Err(1_000),
        }
    }
}
