ghost use Rattle.std.specs.Prelude.{◌≡◌, ◌++◌};

use plinq_merge::Sink;

/// A sink that collects the items that it takes. If memory runs out, it refuses the batch with 1 and stays as it is.
///
/// ```text
/// let mut sink = Collect(Vec::new(alloc));
/// let report = run_into(rt, alloc, &query, source, &mut sink)?;
/// sink.0    // the items
/// ```
#[derive(Drop)]
pub struct Collect<T>(pub Vec<T>);

impl<T: Copy> Sink for Collect<T> {
    type Item = T;

    ghost accepts = { λ s batch s'. s'.0.items ≡ s.0.items ++ batch };

    ghost refuses = { λ s batch code s'. (code ≡ 1) × (s'.0.items ≡ s.0.items) };

    fn batch(&mut self, batch: &[T]) -> Result<(), u32> {
        self.0.extend_from_slice(batch).map_err(|_| 1)
    }

    fn batches_of(&mut self, size: usize, items: &[T]) -> Result<(), u32> {
        if items.len() < size {
            return Ok(());
        }
        let (full, _left) = items.split_at(items.len() - items.len() % size);
        match self.0.extend_from_slice(full) {
            Ok(()) => Ok(()),
            Err(_) => Err(1),
        }
    }
}
