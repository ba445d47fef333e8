ghost use Rattle.std.specs.Prelude.{⊤};

use plinq_merge::Sink;

/// A sink that notes how many items each batch has, and refuses a batch with 9 that has this item.
#[derive(Drop)]
pub struct Sizes {
    pub sizes: Vec<usize>,
    pub refused: i64,
}

impl Sink for Sizes {
    type Item = i64;

    ghost accepts = { λ s batch s'. ⊤ };

    ghost refuses = { λ s batch code s'. ⊤ };

    fn batch(&mut self, batch: &[i64]) -> Result<(), u32> {
        for item in batch {
            if *item == self.refused {
                return Err(9);
            }
        }
        self.sizes.push(batch.len()).map_err(|_| 1)
    }
}

/// Whether these are the sizes of batches, and the run ended so.
pub fn are_sizes<E: PartialEq + Drop>(
    found: &Option<(Vec<usize>, Result<(), E>)>,
    wanted: &[usize],
    ended: Result<(), E>,
) -> bool {
    match found {
        Some((sizes, outcome)) => sizes.as_slice() == wanted && *outcome == ended,
        None => false,
    }
}
